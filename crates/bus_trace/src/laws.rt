// Laws of traces and sets of lines, each named by the contract of a function that does nothing.

ghost use Rattle.std.specs.Prelude.{ℕ, ◌≡◌, ◌≢◌, ◌==◌, ◌<◌, ◌≤◌, ◌^◌, ◌%◌, ◌+◌, length, get_or, take, reverse, Bool, true, false, ◌||◌, List, ◌∷◌};
ghost use Rattle.std.specs.Int.{bit_at};
ghost use Rattle.std.specs.Int.RustNames.{bit_or};
ghost use Rattle.bus_trace.specs.LineSet.{LineSet, none, union, set_of, number_of, line_of, bit_value, byte_set, has_odd_parity, id_set, ids_set, ids_in, has_id, has_id_above};
ghost use Rattle.bus_trace.specs.View.{View, IsUpTo};
ghost use Rattle.bus_trace.specs.Agreements.{same_agreement};
ghost use Rattle.bus_trace.specs.declared.agreements.Agreement.{Agreement};
ghost use Rattle.bus_trace.specs.declared.rows.Row.{Row};
ghost use Rattle.bus_trace.specs.declared.rows.Kind.TheVariants.{Drives, Fault};
ghost use Rattle.bus_trace.specs.Trace.{drives, bus, last_time, since, since_line};

/// What is on a bus on which few devices drive anything.
pub fn drivers_make_the_bus()
    ensures none { (rows : List Row) → ((d : ℕ) → d < 8 → drives rows d ≡ none) → bus rows ≡ none }
    ensures one { (rows : List Row) (a : ℕ) → a < 8 → ((d : ℕ) → d < 8 → d ≢ a → drives rows d ≡ none)
        → bus rows ≡ drives rows a }
    ensures two { (rows : List Row) (a b : ℕ) → a ≢ b → a < 8 → b < 8
        → ((d : ℕ) → d < 8 → d ≢ a → d ≢ b → drives rows d ≡ none) → bus rows ≡ union (drives rows a) (drives rows b) }
{}

/// A line that some device drives is true on the bus, and one that none drives is false. `on` is any

/// test of a set that holds of a union where it holds of a part, as `λ s. s.bsy`.
pub fn lines_on_the_bus()
    ensures on { (on : LineSet → Bool) → ((a b : LineSet) → on (union a b) ≡ (on a || on b))
        → (rows : List Row) (d : ℕ) → d < 8 → on (drives rows d) ≡ true → on (bus rows) ≡ true }
    ensures off { (on : LineSet → Bool) → ((a b : LineSet) → on (union a b) ≡ (on a || on b)) → on none ≡ false
        → (rows : List Row) → ((d : ℕ) → d < 8 → on (drives rows d) ≡ false) → on (bus rows) ≡ false }
    ensures data_on { (rows : List Row) (d k : ℕ) → d < 8 → bit_at (drives rows d).data_bits k ≡ 1
        → bit_at (bus rows).data_bits k ≡ 1 }
    ensures data_off { (rows : List Row) (k : ℕ) → ((d : ℕ) → d < 8 → bit_at (drives rows d).data_bits k ≡ 0)
        → bit_at (bus rows).data_bits k ≡ 0 }
    ensures data_below { (rows : List Row) (k : ℕ) → ((d : ℕ) → d < 8 → (drives rows d).data_bits < 2 ^ k)
        → (bus rows).data_bits < 2 ^ k }
{}

/// A trace as a `Vec` has it, the oldest row first: one row more is the newest of those so far.
pub fn rows_come_in_order()
    ensures { (xs : List Row) (i : ℕ) (x : Row) → i < length xs → x ≡ get_or xs i x
        → reverse (take (i + 1) xs) ≡ x ∷ reverse (take i xs) }
{}

/// A row changes what its own device drives, and nothing else; a fault changes no lines.
pub fn rows_change_one_device()
    ensures other { (row : Row) (rows : List Row) (d : ℕ) → d ≢ row.dev → drives (row ∷ rows) d ≡ drives rows d }
    ensures own { (row : Row) (rows : List Row) (lines : LineSet) → row.kind ≡ Drives lines
        → drives (row ∷ rows) row.dev ≡ lines }
    ensures fault { (row : Row) (rows : List Row) (code d : ℕ) → row.kind ≡ Fault code
        → drives (row ∷ rows) d ≡ drives rows d }
    ensures fault_bus { (row : Row) (rows : List Row) (code : ℕ) → row.kind ≡ Fault code → bus (row ∷ rows) ≡ bus rows }
{}

/// A set of lines is a number below 2 ^ 18, and the union of sets is the OR of their numbers.
pub fn sets_are_numbers()
    ensures number { (n : ℕ) → n < 2 ^ 18 → number_of (set_of n) ≡ n }
    ensures set { (s : LineSet) → s.data_bits < 512 → set_of (number_of s) ≡ s }
    ensures small { (s : LineSet) → s.data_bits < 512 → number_of s < 2 ^ 18 }
    ensures either { (a b : ℕ) → set_of (bit_or a b) ≡ union (set_of a) (set_of b) }
{}

/// A byte on the data lines has odd parity, and reads back.
pub fn bytes_have_odd_parity()
    ensures odd { (byte : ℕ) → byte < 256 → has_odd_parity (byte_set byte) ≡ true }
    ensures back { (byte : ℕ) → byte < 256 → (byte_set byte).data_bits % 256 ≡ byte }
    ensures small { (byte : ℕ) → byte < 256 → (byte_set byte).data_bits < 512 }
{}

/// What ID bits on the data lines tell: in arbitration and in a selection (clause 6). A device sees that

/// another has the higher priority exactly where an ID bit above its own is true.
pub fn ids_read_back()
    ensures either { (s t : LineSet) (k : ℕ) → has_id (union s t) k ≡ (has_id s k || has_id t k) }
    ensures one { (d k : ℕ) → has_id (id_set d) k ≡ (d == k) }
    ensures two { (a b k : ℕ) → a < 8 → b < 8 → k < 8 → a ≢ b → has_id (ids_set a b) k ≡ ((a == k) || (b == k)) }
    ensures count { (a b : ℕ) → a < 8 → b < 8 → a ≢ b → ids_in (ids_set a b) ≡ 2 }
    ensures odd { (a b : ℕ) → a < 8 → b < 8 → a ≢ b → has_odd_parity (ids_set a b) ≡ true }
    ensures above { (s : LineSet) (d k : ℕ) → d < k → k < 8 → has_id s k ≡ true → has_id_above s d ≡ true }
    ensures none_above { (s : LineSet) (d : ℕ) → ((k : ℕ) → d < k → k < 8 → has_id s k ≡ false)
        → has_id_above s d ≡ false }
{}

/// A line by its number, 1 where it is true: the nine data lines, and the nine others.
pub fn lines_by_number()
    ensures data_lines { (line : ℕ) (s : LineSet) → line < 9 → line_of line s ≡ bit_at s.data_bits line }
    ensures bsy { (s : LineSet) → line_of 9 s ≡ bit_value s.bsy 1 }
    ensures sel { (s : LineSet) → line_of 10 s ≡ bit_value s.sel 1 }
    ensures cd { (s : LineSet) → line_of 11 s ≡ bit_value s.cd 1 }
    ensures io { (s : LineSet) → line_of 12 s ≡ bit_value s.io 1 }
    ensures msg { (s : LineSet) → line_of 13 s ≡ bit_value s.msg 1 }
    ensures req { (s : LineSet) → line_of 14 s ≡ bit_value s.req 1 }
    ensures ack { (s : LineSet) → line_of 15 s ≡ bit_value s.ack 1 }
    ensures atn { (s : LineSet) → line_of 16 s ≡ bit_value s.atn 1 }
    ensures rst { (s : LineSet) → line_of 17 s ≡ bit_value s.rst 1 }
{}

/// The time of a line by its number is the time of that line.
pub fn times_by_line()
    ensures bsy { (rows : List Row) → since (line_of 9) rows ≡ since_line (λ s. s.bsy) rows }
    ensures sel { (rows : List Row) → since (line_of 10) rows ≡ since_line (λ s. s.sel) rows }
    ensures cd { (rows : List Row) → since (line_of 11) rows ≡ since_line (λ s. s.cd) rows }
    ensures io { (rows : List Row) → since (line_of 12) rows ≡ since_line (λ s. s.io) rows }
    ensures msg { (rows : List Row) → since (line_of 13) rows ≡ since_line (λ s. s.msg) rows }
    ensures req { (rows : List Row) → since (line_of 14) rows ≡ since_line (λ s. s.req) rows }
    ensures ack { (rows : List Row) → since (line_of 15) rows ≡ since_line (λ s. s.ack) rows }
    ensures atn { (rows : List Row) → since (line_of 16) rows ≡ since_line (λ s. s.atn) rows }
    ensures rst { (rows : List Row) → since (line_of 17) rows ≡ since_line (λ s. s.rst) rows }
{}

/// A row sets the time of what changes on the bus, and leaves the time of what stays.
pub fn changes_set_times()
    ensures kept { (seen : LineSet → ℕ) (row : Row) (rows : List Row) → seen (bus rows) ≡ seen (bus (row ∷ rows))
        → since seen (row ∷ rows) ≡ since seen rows }
    ensures set { (seen : LineSet → ℕ) (row : Row) (rows : List Row) → seen (bus rows) ≢ seen (bus (row ∷ rows))
        → since seen (row ∷ rows) ≡ row.time }
    ensures line_kept { (on : LineSet → Bool) (row : Row) (rows : List Row) → on (bus rows) ≡ on (bus (row ∷ rows))
        → since_line on (row ∷ rows) ≡ since_line on rows }
    ensures line_set { (on : LineSet → Bool) (row : Row) (rows : List Row) → on (bus rows) ≢ on (bus (row ∷ rows))
        → since_line on (row ∷ rows) ≡ row.time }
{}

/// A bound on the times of a view holds later too.
pub fn bounds_last()
    ensures { (time later : ℕ) (v : View) → time ≤ later → IsUpTo time v → IsUpTo later v }
{}

/// A change lies no later than the newest row, where it lay no later before that row came.
pub fn changes_are_past()
    ensures seen { (seen : LineSet → ℕ) (row : Row) (rows : List Row) → since seen rows ≤ row.time
        → since seen (row ∷ rows) ≤ last_time (row ∷ rows) }
    ensures line { (on : LineSet → Bool) (row : Row) (rows : List Row) → since_line on rows ≤ row.time
        → since_line on (row ∷ rows) ≤ last_time (row ∷ rows) }
{}

/// Being the same agreement is an equivalence, by which all asynchronous agreements are one, and

/// others are the same only where they are equal.
pub fn agreements_are_an_equivalence()
    ensures itself { (a : Agreement) → same_agreement a a ≡ true }
    ensures turned { (a b : Agreement) → same_agreement a b ≡ true → same_agreement b a ≡ true }
    ensures joined { (a b c : Agreement) → same_agreement a b ≡ true → same_agreement b c ≡ true
        → same_agreement a c ≡ true }
    ensures asynchronous { (a b : Agreement) → a.offset ≡ 0 → b.offset ≡ 0 → same_agreement a b ≡ true }
    ensures equal { (a b : Agreement) → a.offset ≢ 0 → same_agreement a b ≡ true → a ≡ b }
{}
