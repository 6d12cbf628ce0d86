//! Laws of the words: what is spelled is read again, and what is read was spelled so.
ghost use Rattle.std.specs.Prelude.{ℕ, ◌≡◌, ◌<◌, ◌^◌, ◌++◌, [], List, length, Some, decimal};
ghost use Rattle.text_words.specs.Words.{after, number_at, digit_at, hex_digits_at, hex_array_at, bytes_of, is_whole};
ghost use Rattle.text_words.specs.Spelling.{hex_text, digit_text, AreBytes, EndsNumber, EndsHex};

/// A text at the front is found there, whatever follows it.
pub fn after_same()
    ensures { (text rest : List ℕ) → after text (text ++ rest) ≡ Some rest }
{}

/// Bytes after which something follows are that text and what follows.
pub fn after_only()
    ensures { (text bytes rest : List ℕ) → after text bytes ≡ Some rest → bytes ≡ text ++ rest }
{}

/// A number in decimal is read again, whatever follows that does not go on with a digit.
pub fn number_again()
    ensures { (n : ℕ) (rest : List ℕ) → n < 2 ^ 64 → EndsNumber rest
        → number_at (decimal n ++ rest) ≡ Some (Some n, rest) }
{}

/// A number that is read was spelled in decimal, and is below 2^64.
pub fn number_only()
    ensures { (bytes : List ℕ) (n : ℕ) (rest : List ℕ) → number_at bytes ≡ Some (Some n, rest)
        → (n < 2 ^ 64) × (bytes ≡ decimal n ++ rest) }
{}

/// A device's digit is read again, whatever follows it.
pub fn digit_again()
    ensures { (d : ℕ) (rest : List ℕ) → d < 8 → digit_at (digit_text d ++ rest) ≡ Some (d, rest) }
{}

/// A device that is read was spelled by its digit, and is below 8.
pub fn digit_only()
    ensures { (bytes : List ℕ) (d : ℕ) (rest : List ℕ) → digit_at bytes ≡ Some (d, rest)
        → (d < 8) × (bytes ≡ digit_text d ++ rest) }
{}

/// The digits of bytes are read again and spell these bytes, whatever follows that does not go on
/// with a hexadecimal digit.
pub fn hex_again()
    ensures read { (bytes rest : List ℕ) → AreBytes bytes → 0 < length bytes → EndsHex rest
        → hex_digits_at (hex_text bytes ++ rest) ≡ Some (hex_text bytes, rest) }
    ensures bytes { (bytes : List ℕ) → AreBytes bytes → bytes_of (hex_text bytes) ≡ bytes }
{}

/// Digits that are read are the spelling of the bytes that they spell.
pub fn hex_only()
    ensures { (bytes digits rest : List ℕ) → hex_digits_at bytes ≡ Some (digits, rest)
        → (bytes ≡ digits ++ rest) × AreBytes (bytes_of digits) × (digits ≡ hex_text (bytes_of digits)) }
{}

/// The digits of n bytes are read again as these bytes.
pub fn hex_array_again()
    ensures { (n : ℕ) (bytes rest : List ℕ) → AreBytes bytes → length bytes ≡ n → 0 < n → EndsHex rest
        → hex_array_at n (hex_text bytes ++ rest) ≡ Some (bytes, rest) }
{}

/// The n bytes that are read were spelled by their digits.
pub fn hex_array_only()
    ensures { (n : ℕ) (text bytes rest : List ℕ) → hex_array_at n text ≡ Some (bytes, rest)
        → (text ≡ hex_text bytes ++ rest) × AreBytes bytes × (length bytes ≡ n) }
{}

/// Where nothing follows, the bytes are empty.
pub fn whole_only()
    ensures { (bytes : List ℕ) → is_whole bytes ≡ Some tt → bytes ≡ [] }
{}
