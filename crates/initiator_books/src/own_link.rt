//! What an initiator knows of its own connection (ANSI X3.131-1994, 6.6).
ghost use Rattle.std.specs.Prelude.{◌≡◌, Some, None};
ghost use Rattle.initiator_books.specs.OwnLinks.{process_in, is_open_sense_of, named_in, link_with_name, last_after_out, last_after_in, new_link, undo_of, undone};
ghost use Rattle.initiator_books.specs.Mines.{is_open_mine};
ghost use Rattle.array_model.specs.Order.{same_number, tag_number};

use crate::book::Book;
use crate::held::{Held, HeldPair, held_at, set_held};
use crate::marks::{is_at_unit, is_open_mine};
use crate::mine::{Mine, OwnItem};
use array_model::tag_number;
use bus_base::{Dev, ProcId};
use msg_grammar::{MsgIn, MsgOut};
use scenario::Tag;

/// The last message of a connection, as far as it tells how the connection ends.
#[derive(Clone, Copy)]
pub enum LastMessage {
    /// Any other, or none yet.
    Plain,
    /// COMMAND COMPLETE (6.6.5).
    Complete,
    /// DISCONNECT (6.6.6).
    Disconnect,
    /// ABORT, ABORT TAG, CLEAR QUEUE or BUS DEVICE RESET (6.6.1 to 6.6.4).
    Abortive,
}

/// What was held of a process before a message.
#[derive(Clone, Copy)]
pub struct Undo {
    /// The process.
    pub id: ProcId,
    /// What was held of it.
    pub held: Held,
}

/// What an initiator knows of its own connection.
#[derive(Clone, Copy)]
pub struct OwnLink {
    /// The target.
    pub target: Dev,
    /// The command, the automatic REQUEST SENSE or the abort to which the connection belongs.
    pub item: Option<OwnItem>,
    /// The unit that the target has named.
    pub unit: u8,
    /// Its last message.
    pub last: LastMessage,
    /// The one before the last message to the initiator.
    pub before: LastMessage,
    /// What MESSAGE PARITY ERROR brings back (6.6.13).
    pub undo: Option<Undo>,
}

/// The process that an item is; an abort is none.
pub fn process_in(item: Option<OwnItem>) -> Option<ProcId>
    ensures { result ≡ process_in item }
{
    match item {
        None | Some(OwnItem::Abort(_)) => None,
        Some(OwnItem::Command(command)) => Some(ProcId {
            command,
            sense: false,
        }),
        Some(OwnItem::Sense(command)) => Some(ProcId {
            command,
            sense: true,
        }),
    }
}

fn same_number(a: Option<u8>, b: Option<u8>) -> bool
    ensures { result ≡ same_number a b }
{
    match (a, b) {
        (None, None) => true,
        (Some(a), Some(b)) => a == b,
        (None, Some(_)) | (Some(_), None) => false,
    }
}

fn is_open_sense(mine: &Mine) -> bool
    ensures { result ≡ is_open_sense_of mine.now }
{
    mine.sense_sent && !mine.sense_over
}

/// The first of these that is open, of this target, unit and tag; an automatic REQUEST SENSE is untagged.
pub fn named_in(mines: &[Mine], target: Dev, unit: u8, tag: Option<u8>) -> Option<OwnItem>
    ensures { result ≡ named_in mines.now target unit tag }
{
    for mine in mines {
        if is_at_unit(mine, target, unit)
            && is_open_mine(mine)
            && same_number(tag_number(mine.tag), tag)
        {
            return Some(OwnItem::Command(mine.number));
        }
        if is_at_unit(mine, target, unit) && is_open_sense(mine) && same_number(None, tag) {
            return Some(OwnItem::Sense(mine.number));
        }
    }
    None
}

fn last_after_in(message: MsgIn) -> LastMessage
    ensures { result ≡ last_after_in message }
{
    match message {
        MsgIn::CommandComplete => LastMessage::Complete,
        MsgIn::Disconnect => LastMessage::Disconnect,
        _ => LastMessage::Plain,
    }
}

/// What is held of this process, if there is one.
pub fn undo_of(all: &[HeldPair], id: Option<ProcId>) -> Option<Undo>
    ensures { result ≡ undo_of all.now id }
{
    match id {
        None => None,
        Some(id) => Some(Undo {
            id,
            held: held_at(all, id),
        }),
    }
}

/// What was held is held again.
pub fn bring_back(all: &mut [HeldPair], undo: Option<Undo>)
    ensures { all.new ≡ undone all.old undo }
{
    if let Some(undo) = undo {
        set_held(all, undo.id, undo.held);
    }
}

impl OwnLink {
    /// A connection with this target begins, for this.
    pub fn new(target: Dev, item: Option<OwnItem>) -> OwnLink
        ensures { result ≡ new_link target item }
    {
        OwnLink {
            target,
            item,
            unit: 0,
            last: LastMessage::Plain,
            before: LastMessage::Plain,
            undo: None,
        }
    }

    fn last_after_out(self, message: MsgOut) -> LastMessage
        ensures { result ≡ last_after_out message self }
    {
        match message {
            MsgOut::Abort | MsgOut::AbortTag | MsgOut::ClearQueue | MsgOut::DeviceReset => {
                LastMessage::Abortive
            }
            MsgOut::ParityError => self.before,
            _ => LastMessage::Plain,
        }
    }

    /// The initiator says this.
    pub fn after_out(self, message: MsgOut) -> OwnLink
        ensures { result ≡ record self { last = last_after_out message self } }
    {
        OwnLink {
            last: self.last_after_out(message),
            ..self
        }
    }

    /// The target says this: IDENTIFY and SIMPLE QUEUE TAG name a process of this book (6.6.7, 6.6.17).
    pub fn with_name(self, book: &Book, message: MsgIn) -> OwnLink
        ensures { result ≡ link_with_name book.now.mines self message }
    {
        match message {
            MsgIn::Identify { lun } => OwnLink {
                unit: lun,
                item: book.named(self.target, lun, None),
                ..self
            },
            MsgIn::SimpleTag(tag) => OwnLink {
                item: book.named(self.target, self.unit, Some(tag)),
                ..self
            },
            _ => self,
        }
    }

    /// The target has said this, after this message; it can be undone so.
    pub fn after_in(self, message: MsgIn, before: LastMessage, undo: Option<Undo>) -> OwnLink
        ensures { result ≡ record self { last = last_after_in message; before = before; undo = undo } }
    {
        OwnLink {
            last: last_after_in(message),
            before,
            undo,
            ..self
        }
    }
}
