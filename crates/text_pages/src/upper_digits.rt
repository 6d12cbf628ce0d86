//! The upper digits of times that follow one another.
ghost use Rattle.std.specs.Prelude.{◌≡◌, ◌-◌, ◌/◌, ◌%◌, ◌≤◌, take, decimal, true};
ghost use Rattle.std.proofs.Props.{props};

use crate::held::SHORT;
use bus_base::Ns;
use itoa::Buffer;

/// How many times differ in their last four digits alone.
pub const SPAN: Ns = 10_000;

/// All digits but the last four of a time of five digits or more. They are mostly those of the time before, and then
/// stay.
#[derive(Drop)]
pub struct UpperDigits {
    text: [u8; SHORT],
    digits: usize,
    from: Ns,
    ghost few: { digits ≤ 16 },
    ghost round: { from % 10000 ≡ 0 },
    ghost upper_digits: { take digits text ≡ decimal (from / 10000) } by { Prim.hlevel props },
}

impl UpperDigits {
    /// The upper digits of this time.
    #[cold]
    #[inline(never)]
    pub fn begun(time: Ns) -> UpperDigits
        ensures { result.from ≡ time - time % 10000 }
    {
        let mut buffer = Buffer::new();
        let upper = buffer.format(time / SPAN).as_bytes();
        let mut text = [0; SHORT];
        text[..upper.len()].copy_from_slice(upper);
        UpperDigits {
            text,
            digits: upper.len(),
            from: time - time % SPAN,
        }
    }

    fn has_upper_of(&self, time: Ns) -> bool
        ensures { result ≡ true → self.now.from / 10000 ≡ time / 10000 }
    {
        self.from <= time && time - self.from < SPAN
    }

    /// Sets them to the upper digits of this time.
    pub fn set_upper(&mut self, time: Ns)
        ensures { self.new.from / 10000 ≡ time / 10000 }
    {
        if !self.has_upper_of(time) {
            *self = UpperDigits::begun(time);
        }
    }

    /// The upper digits, at the front of these bytes.
    pub fn text(&self) -> &[u8; SHORT]
        ensures { result.now ≡ self.now.text }
    {
        &self.text
    }

    /// How many upper digits there are.
    pub fn len(&self) -> usize
        ensures upper { take result self.now.text ≡ decimal (self.now.from / 10000) }
        ensures short { result ≤ 16 }
    {
        self.digits
    }

    /// The last four digits of a time with these upper digits, as a number.
    pub fn low(&self, time: Ns) -> u32
        requires { self.now.from / 10000 ≡ time / 10000 }
        ensures { result ≡ time % 10000 }
    {
        (time - self.from) as u32
    }
}
