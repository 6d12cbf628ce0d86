//! The order of kinds.
ghost use Rattle.std.specs.Prelude.{◌≡◌};
ghost use Rattle.scenario.specs.Forms.{said};
ghost use Rattle.scenario.specs.Reading.{rank, kind_of, in_order, is_end, fits_flag, has_tapes, fits_version};

use crate::form::Form;

/// The kinds of lines in the order in which they stand; `Nothing` before the first line.
#[derive(Clone, Copy)]
pub(crate) enum Kind {
    Nothing,
    Scsi,
    Initiator,
    Target,
    Unit,
    Fill,
    Tape,
    Load,
    Cmd,
    Abort,
    Reset,
    Fault,
    End,
}

fn rank(kind: Kind) -> u8
    ensures { result ≡ rank kind }
{
    match kind {
        Kind::Nothing => 0,
        Kind::Scsi => 1,
        Kind::Initiator => 2,
        Kind::Target => 3,
        Kind::Unit => 4,
        Kind::Fill => 5,
        Kind::Tape => 6,
        Kind::Load => 7,
        Kind::Cmd => 8,
        Kind::Abort => 9,
        Kind::Reset => 10,
        Kind::Fault => 11,
        Kind::End => 12,
    }
}

/// Whether a line of kind `next` may follow one of kind `last`.
pub(crate) fn in_order(last: Kind, next: Kind) -> bool
    ensures { result ≡ in_order (rank last) (rank next) }
{
    let last = rank(last);
    let next = rank(next);
    if last == 0 {
        next == 1
    } else {
        1 < next && last <= next && last < 12
    }
}

/// Whether it is the last kind.
pub(crate) fn is_end(kind: Kind) -> bool
    ensures { result ≡ is_end kind }
{
    rank(kind) == 12
}

/// The kind of a line.
pub(crate) fn kind_of(form: Form<'_>) -> Kind
    ensures { result ≡ kind_of (said form.entry) }
{
    match form {
        Form::Scsi(_) => Kind::Scsi,
        Form::Initiator(_) => Kind::Initiator,
        Form::Target(_) => Kind::Target,
        Form::Unit(_) => Kind::Unit,
        Form::Fill(_) => Kind::Fill,
        Form::Tape(_) => Kind::Tape,
        Form::Load(_) => Kind::Load,
        Form::Cmd(_) => Kind::Cmd,
        Form::Abort(_) => Kind::Abort,
        Form::Reset(_) => Kind::Reset,
        Form::Fault(_) => Kind::Fault,
        Form::End => Kind::End,
    }
}

fn fits_flag(version: u8, says: Option<bool>) -> bool
    ensures { result ≡ fits_flag version says }
{
    match says {
        None => version < 2,
        Some(_) => version != 1,
    }
}

// Tapes and loads stand in text 3 alone.
fn has_tapes(version: u8) -> bool
    ensures { result ≡ has_tapes version }
{
    version == 0 || version == 3
}

/// Whether the line has a form of this version, 0 being none yet.
pub(crate) fn fits_version(version: u8, form: Form<'_>) -> bool
    ensures { result ≡ fits_version version (said form.entry) }
{
    match form {
        Form::Scsi(v) => version == 0 || version == v,
        Form::Initiator(form) => fits_flag(version, form.offers),
        Form::Target(form) => fits_flag(version, form.begins),
        Form::Unit(_) => true,
        Form::Fill(_) => true,
        Form::Tape(_) => has_tapes(version),
        Form::Load(_) => has_tapes(version),
        Form::Cmd(_) => true,
        Form::Abort(_) => true,
        Form::Reset(_) => true,
        Form::Fault(_) => true,
        Form::End => true,
    }
}
