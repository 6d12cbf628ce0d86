// What an initiator says first in a connection that it began (6.6.7, 6.6.17, 6.6.21).
ghost use Rattle.std.specs.Prelude.{◌≡◌, ◌<◌, ◌≤◌, ◌+◌, ◌++◌, length, not, false, Some};
ghost use Rattle.msg_grammar.specs.Messages.{FitsOut, out_bytes};
ghost use Rattle.array_model.specs.Processes.{Process};
ghost use Rattle.msg_grammar.specs.declared.MsgOut.TheVariants as to_target;
ghost use Rattle.initiator_books.specs.Openings.{mine_opening, my_abort_opening, opening_by};
ghost use Rattle.due_model.specs.dialogue_model.specs.Words.{offer_if, tag_bytes, abort_bytes, process_opening, abort_opening};

use crate::book::Book;
use crate::mine::{Mine, MyAbort, OwnItem};
use arrayvec::ArrayVec;
use bus_base::AbortKind;
use bus_trace::Agreement;
use msg_grammar::{MsgOut, encode_out};
use scenario::{AbortDef, HostDef, Tag};

/// The bytes of a MESSAGE OUT phase: eight at most.
pub type Words = ArrayVec<u8, 8>;

// These bytes, and then those of a message.
fn add(words: &mut Words, message: &MsgOut)
    requires fits { FitsOut message.now }
    requires room { length words.old.items ≤ 3 }
    ensures { words.new.items ≡ words.old.items ++ out_bytes message.now }
{
    let bytes = encode_out(message);
    let _ = words.try_extend_from_slice(bytes.as_slice());
}

// And then the queue tag message of a tagged command.
fn add_tag(words: &mut Words, tag: Tag)
    requires { length words.old.items ≤ 1 }
    ensures exact { words.new.items ≡ words.old.items ++ tag_bytes tag }
    ensures short { length words.new.items ≤ length words.old.items + 2 }
{
    match tag {
        Tag::Untagged => {}
        Tag::Simple(number) => add(words, &MsgOut::SimpleTag(number)),
        Tag::Ordered(number) => add(words, &MsgOut::OrderedTag(number)),
        Tag::Head(number) => add(words, &MsgOut::HeadTag(number)),
    }
}

// And then the offer of synchronous data transfer, where there is one to make.
fn add_offer(words: &mut Words, negotiates: bool, host: &HostDef)
    requires { length words.old.items ≤ 3 }
    ensures { words.new.items ≡ words.old.items ++ offer_if negotiates (Some host.now) }
{
    if negotiates && host.offers && host.period > 0 {
        add(
            words,
            &MsgOut::Sdtr(Agreement {
                period: host.period,
                offset: host.offset,
            }),
        );
    }
}

/// What is said first for a process of this logical unit, 0 to 7, and tag: IDENTIFY, with the disconnect privilege but
/// for an automatic REQUEST SENSE, the queue tag message, and an offer of synchronous data transfer where the pair may
/// negotiate in this connection (6.6.7, 6.6.17, 6.6.21).
pub fn process_opening(host: &HostDef, negotiates: bool, sense: bool, unit: u8, tag: Tag) -> Words
    requires { unit < 8 }
    ensures exact { result.items ≡ out_bytes (to_target.Identify (not sense) unit)
        ++ (tag_bytes tag ++ offer_if negotiates (Some host.now)) }
    ensures process { (p : Process) → p.id.sense ≡ sense → p.unit ≡ unit → p.tag ≡ tag
        → result.items ≡ process_opening (Some host.now) negotiates (Some p) }
{
    let mut words = Words::new();
    add(
        &mut words,
        &MsgOut::Identify {
            disc: !sense,
            lun: unit,
        },
    );
    add_tag(&mut words, tag);
    add_offer(&mut words, negotiates, host);
    words
}

fn add_abort(words: &mut Words, what: AbortKind)
    requires { length words.old.items ≤ 1 }
    ensures { words.new.items ≡ words.old.items ++ abort_bytes what }
{
    match what {
        AbortKind::All => add(words, &MsgOut::Abort),
        AbortKind::Tag(number) => {
            add(words, &MsgOut::SimpleTag(number));
            add(words, &MsgOut::AbortTag);
        }
        AbortKind::WholeQueue => add(words, &MsgOut::ClearQueue),
        AbortKind::Device => add(words, &MsgOut::DeviceReset),
    }
}

fn abort_words(unit: u8, what: AbortKind) -> Words
    requires { unit < 8 }
    ensures { result.items ≡ out_bytes (to_target.Identify false unit) ++ abort_bytes what }
{
    let mut words = Words::new();
    add(
        &mut words,
        &MsgOut::Identify {
            disc: false,
            lun: unit,
        },
    );
    add_abort(&mut words, what);
    words
}

/// What is said for an abort: IDENTIFY without the privilege, the queue tag message of the process that ABORT TAG is
/// for, and the message (6.6.1 to 6.6.4, 6.6.7).
pub fn abort_opening(abort: &AbortDef) -> Words
    requires { abort.now.unit < 8 }
    ensures { result.items ≡ abort_opening (Some abort.now) }
{
    abort_words(abort.unit, abort.what)
}

// IDENTIFY has room for a unit of 0 to 7; an automatic REQUEST SENSE is untagged.
fn mine_opening(host: &HostDef, negotiates: bool, sense: bool, mine: Option<Mine>) -> Words
    ensures { result.items ≡ mine_opening (Some host.now) negotiates sense mine }
{
    match mine {
        None => Words::new(),
        Some(mine) => {
            let tag = if sense { Tag::Untagged } else { mine.tag };
            process_opening(host, negotiates, sense, mine.unit % 8, tag)
        }
    }
}

fn my_abort_opening(abort: Option<MyAbort>) -> Words
    ensures { result.items ≡ my_abort_opening abort }
{
    match abort {
        None => Words::new(),
        Some(abort) => abort_words(abort.unit % 8, abort.what),
    }
}

/// What is said first for an item of this book, if for one.
pub fn item_opening(host: &HostDef, negotiates: bool, book: &Book, item: Option<OwnItem>) -> Words
    ensures { result.items ≡ opening_by (Some host.now) negotiates book.now item }
{
    match item {
        None => Words::new(),
        Some(OwnItem::Command(number)) => {
            mine_opening(host, negotiates, false, book.mine(number))
        }
        Some(OwnItem::Sense(number)) => mine_opening(host, negotiates, true, book.mine(number)),
        Some(OwnItem::Abort(number)) => my_abort_opening(book.abort_line(number)),
    }
}
