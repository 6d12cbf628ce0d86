//! Laws of the grammar, each named by the contract of a function that does nothing.

ghost use Rattle.std.specs.Prelude.{ℕ, ◌≡◌, ◌++◌, ◌↔◌, List, length, Some};
ghost use Rattle.msg_grammar.specs.declared.message.MsgOut.{MsgOut};
ghost use Rattle.msg_grammar.specs.declared.message.MsgIn.{MsgIn};
ghost use Rattle.msg_grammar.specs.declared.message.Got.TheVariants.{Whole, More, Unknown};
ghost use Rattle.msg_grammar.specs.Grammar.{Begins, GoesOn, NeverBegins};
ghost use Rattle.msg_grammar.specs.Messages.{FitsIn, FitsOut, got_in, got_out, in_bytes, msg_in_of, msg_out_of, out_bytes};

/// What bytes to the target begin with, by the messages to the target: each answer comes exactly where
/// it is right.
pub fn out_by_grammar()
    ensures whole { (bytes : List ℕ) (m : MsgOut) (n : ℕ) → (got_out bytes ≡ Whole m n) ↔ Begins msg_out_of bytes m n }
    ensures more { (bytes : List ℕ) → (got_out bytes ≡ More) ↔ GoesOn msg_out_of bytes }
    ensures unknown { (bytes : List ℕ) → (got_out bytes ≡ Unknown) ↔ NeverBegins msg_out_of bytes }
{}

/// What bytes to the initiator begin with, by the messages to the initiator: each answer comes exactly
/// where it is right.
pub fn in_by_grammar()
    ensures whole { (bytes : List ℕ) (m : MsgIn) (n : ℕ) → (got_in bytes ≡ Whole m n) ↔ Begins msg_in_of bytes m n }
    ensures more { (bytes : List ℕ) → (got_in bytes ≡ More) ↔ GoesOn msg_in_of bytes }
    ensures unknown { (bytes : List ℕ) → (got_in bytes ≡ Unknown) ↔ NeverBegins msg_in_of bytes }
{}

/// No message begins another of its direction: where two stand at the front of the same bytes, they are
/// the same message, with the same bytes.
pub fn no_message_begins_another()
    ensures out { (a b x y : List ℕ) (m k : MsgOut) → msg_out_of a ≡ Some m → msg_out_of b ≡ Some k → a ++ x ≡ b ++ y
        → (a ≡ b) × (m ≡ k) }
    ensures inward { (a b x y : List ℕ) (m k : MsgIn) → msg_in_of a ≡ Some m → msg_in_of b ≡ Some k → a ++ x ≡ b ++ y
        → (a ≡ b) × (m ≡ k) }
{}

/// Each message has one spelling, and a logical unit below 8. What is spelled so reads back, whatever
/// follows it.
pub fn one_spelling()
    ensures out { (bytes : List ℕ) (m : MsgOut) → (msg_out_of bytes ≡ Some m) ↔ ((bytes ≡ out_bytes m) × FitsOut m) }
    ensures inward { (bytes : List ℕ) (m : MsgIn) → (msg_in_of bytes ≡ Some m) ↔ ((bytes ≡ in_bytes m) × FitsIn m) }
    ensures out_again { (m : MsgOut) (rest : List ℕ) → FitsOut m
        → got_out (out_bytes m ++ rest) ≡ Whole m (length (out_bytes m)) }
    ensures in_again { (m : MsgIn) (rest : List ℕ) → FitsIn m
        → got_in (in_bytes m ++ rest) ≡ Whole m (length (in_bytes m)) }
{}
