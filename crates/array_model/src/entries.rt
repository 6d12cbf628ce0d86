//! What the queue of a logical unit keeps of a command.
ghost use Rattle.std.specs.Prelude.{◌≡◌};
ghost use Rattle.array_model.specs.Order.{tag_number};
ghost use Rattle.array_model.specs.Processes.{same_bool, same_id};

use bus_base::{Class, Dev, ProcId};
use scenario::Tag;

/// A command in the queue of a logical unit: who sent it, how it is tagged, and the blocks that it reads or writes
/// (ANSI X3.131-1994, 6.6.17 and 7.8).
#[derive(Clone, Copy, Debug, PartialEq, Eq)]
pub struct Entry {
    /// The process.
    pub id: ProcId,
    /// The initiator that sent it.
    pub from: Dev,
    /// Its queue tag, or `None` for a command without one.
    pub tag: Option<u8>,
    /// How it is queued.
    pub class: Class,
    /// The first block that it reads or writes.
    pub first: u32,
    /// How many blocks it reads or writes: 0 where it is no read or write, or its command descriptor block has a
    /// fault.
    pub count: u32,
    /// Whether it writes them.
    pub writes: bool,
}

/// The number of a queue tag, `None` for a command without one (6.6.17).
pub fn tag_number(tag: Tag) -> Option<u8>
    ensures { result ≡ tag_number tag }
{
    match tag {
        Tag::Untagged => None,
        Tag::Simple(number) | Tag::Ordered(number) | Tag::Head(number) => Some(number),
    }
}

fn same_kind(one: bool, other: bool) -> bool
    ensures { result ≡ same_bool one other }
{
    if one { other } else { !other }
}

/// Whether the two are the same process.
pub fn same_id(one: ProcId, other: ProcId) -> bool
    ensures { result ≡ same_id one other }
{
    one.command == other.command && same_kind(one.sense, other.sense)
}
