//! What has been read of a dump.
ghost use Rattle.std.specs.Prelude.{◌≡◌};
ghost use Rattle.vcd_text.specs.Reading.{no_dump};

use crate::awaits::Awaits;
use crate::codes::{CodeSet, DeviceCodes};
use crate::driven_rows::DrivenRows;
use crate::word::Word;
use bus_base::Ns;
use std::alloc::Global;

/// What has been read of a dump.
#[derive(Drop)]
pub(crate) struct Dump {
    pub(crate) awaits: Awaits,
    /// `$timescale` was declared.
    pub(crate) has_timescale: bool,
    /// The code of the last variable that was declared.
    pub(crate) code: Word,
    pub(crate) codes: CodeSet,
    pub(crate) devices: DeviceCodes,
    /// The time that stands, in ns.
    pub(crate) time: Ns,
    pub(crate) rows: DrivenRows,
}

/// Before any token.
pub(crate) fn no_dump(alloc: Global) -> Dump
    ensures { result ≡ no_dump }
{
    Dump {
        awaits: Awaits::Declaration,
        has_timescale: false,
        code: Word::new(alloc),
        codes: CodeSet::new(alloc),
        devices: DeviceCodes::new(alloc),
        time: 0,
        rows: DrivenRows::new(alloc),
    }
}
