//! Why a text is no scenario.
ghost use Rattle.std.specs.Prelude.{◌≡◌};
ghost use Rattle.scenario.specs.declared.fault.Refusal.TheVariants.{Memory};

use crate::reasons::meaning;
use std::alloc::{AllocError, AllocFailed};
use std::error::Error;
use std::fmt;

/// Why a text is no scenario. It prints as its line, its reason, and what the reason means.
#[derive(Clone, Copy, Debug, PartialEq, Eq)]
pub enum Bad {
    /// The first line with a reason, the first line of a text being 1, and its lowest reason, 1 to 8.
    /// A text that is too long is line 0 and reason 9.
    At { line: u32, reason: u8 },
    /// Memory ran out.
    NoMemory,
}

impl fmt::Display for Bad {
    ghost use Rattle.std.specs.Prelude.{Some};
    ghost use Rattle.scenario.specs.ReasonText.{bad_text};

    ghost output = { λ e. Some (bad_text e) };

    fn fmt<W: fmt::Write>(&self, f: &mut fmt::Formatter<W>) -> fmt::Result {
        match *self {
            Bad::At { line, reason } => {
                let meaning = meaning(reason);
                write!(f, "line {line}, reason {reason}: {meaning}")
            }
            Bad::NoMemory => f.write_str("no memory"),
        }
    }
}

impl Error for Bad {}

/// What is wrong with one line.
#[derive(Drop)]
pub(crate) enum Refusal {
    /// Memory ran out.
    Memory,
    /// Its lowest reason.
    Reason(u8),
}

impl From<AllocError> for Refusal {
    ghost from_gives = { λ _ e. e ≡ Memory };

    fn from(_e: AllocError) -> Refusal {
        Refusal::Memory
    }
}

impl<T: Drop> From<AllocFailed<T>> for Refusal {
    ghost from_gives = { λ _ e. e ≡ Memory };

    fn from(_e: AllocFailed<T>) -> Refusal {
        Refusal::Memory
    }
}
