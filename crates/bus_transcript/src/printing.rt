//! The text of a transcript on its way to a sink.
ghost use Rattle.std.specs.Prelude.{◌≡◌, ◌≤◌, ◌++◌, ◌∷◌, [], OnErr, decimal};
ghost use Rattle.std.specs.List.{flat_map};
ghost use Rattle.bus_base.specs.Faults.{HasRisen};
ghost use Rattle.bus_base.specs.Whole.{WritesAll};
ghost use Rattle.text_words.specs.Spelling.{byte_text, hex_text};
ghost use Rattle.text_pages.specs.Pages.{Prints};
ghost use Rattle.msg_grammar.specs.Messages.{FitsOut, FitsIn};
ghost use Rattle.bus_transcript.specs.Text.{fitted_out, fitted_in, number_or_dash, name_text, beginning_text, status_text, data_word, item_words, item_text, transcript_text};

use crate::item::{Item, Name, Transcript};
use bus_base::{AbortKind, Dev, Failed, Ns, Sink};
use msg_grammar::{MsgIn, MsgOut, encode_in, encode_out};
use text_pages::{
    Page, flush, is_failed, new_page, put, put_abort, put_byte, put_hex, put_number, put_spaced,
};

fn put_or_dash<K: Sink>(out: &mut K, page: &mut Page, number: Option<u8>)
    ensures { Prints K.written K.faults out.old out.new page.old page.new (number_or_dash number) }
{
    match number {
        None => put(out, page, b"-"),
        Some(number) => put_number(out, page, number as u64),
    }
}

fn put_name<K: Sink>(out: &mut K, page: &mut Page, name: Name)
    ensures { Prints K.written K.faults out.old out.new page.old page.new (name_text name) }
{
    put_number(out, page, name.initiator as u64);
    put(out, page, b".");
    put_number(out, page, name.target as u64);
    put(out, page, b".");
    put_or_dash(out, page, name.unit);
    put(out, page, b".");
    put_or_dash(out, page, name.tag);
    put(out, page, b".");
    put_number(out, page, name.number as u64);
}

fn put_beginning<K: Sink>(out: &mut K, page: &mut Page, again: bool)
    ensures { Prints K.written K.faults out.old out.new page.old page.new (beginning_text again) }
{
    put(out, page, if again { b" again" } else { b" first" });
}

fn put_status<K: Sink>(out: &mut K, page: &mut Page, status: Option<u8>)
    ensures { Prints K.written K.faults out.old out.new page.old page.new (status_text status) }
{
    match status {
        None => put(out, page, b"none"),
        Some(byte) => put_byte(out, page, byte),
    }
}

fn put_connect<K: Sink>(out: &mut K, page: &mut Page, at: Ns, name: Name, again: bool)
    ensures { Prints K.written K.faults out.old out.new page.old page.new (item_words (Item.Connect at name again)) }
{
    put(out, page, b"connect ");
    put_spaced(out, page, at);
    put_name(out, page, name);
    put_beginning(out, page, again);
}

fn put_unanswered<K: Sink>(out: &mut K, page: &mut Page, at: Ns, caller: Dev, called: Dev)
    ensures { Prints K.written K.faults out.old out.new page.old page.new
        (item_words (Item.Unanswered at caller called)) }
{
    put(out, page, b"unanswered ");
    put_spaced(out, page, at);
    put_spaced(out, page, caller as u64);
    put_number(out, page, called as u64);
}

// The unit of an IDENTIFY has three bits.
fn fitted_out(message: MsgOut) -> MsgOut
    ensures exact { result ≡ fitted_out message }
    ensures fits { FitsOut result }
{
    match message {
        MsgOut::Identify { disc, lun } => MsgOut::Identify { disc, lun: lun % 8 },
        _ => message,
    }
}

fn fitted_in(message: MsgIn) -> MsgIn
    ensures exact { result ≡ fitted_in message }
    ensures fits { FitsIn result }
{
    match message {
        MsgIn::Identify { lun } => MsgIn::Identify { lun: lun % 8 },
        _ => message,
    }
}

fn put_out<K: Sink>(out: &mut K, page: &mut Page, message: MsgOut)
    ensures { Prints K.written K.faults out.old out.new page.old page.new (item_words (Item.Out message)) }
{
    put(out, page, b"out ");
    put_hex(out, page, encode_out(&fitted_out(message)).as_slice());
}

fn put_in<K: Sink>(out: &mut K, page: &mut Page, message: MsgIn)
    ensures { Prints K.written K.faults out.old out.new page.old page.new (item_words (Item.In message)) }
{
    put(out, page, b"in ");
    put_hex(out, page, encode_in(&fitted_in(message)).as_slice());
}

fn put_command<K: Sink>(out: &mut K, page: &mut Page, bytes: &[u8])
    ensures { Prints K.written K.faults out.old out.new page.old page.new (item_words (Item.Cdb bytes.now)) }
{
    put(out, page, b"command ");
    put_hex(out, page, bytes);
}

fn put_data_word<K: Sink>(out: &mut K, page: &mut Page, to_target: bool)
    ensures { Prints K.written K.faults out.old out.new page.old page.new (data_word to_target) }
{
    if to_target {
        put(out, page, b"dataout ");
    } else {
        put(out, page, b"datain ");
    }
}

fn put_data<K: Sink>(out: &mut K, page: &mut Page, to_target: bool, at: u32, bytes: &[u8])
    ensures { Prints K.written K.faults out.old out.new page.old page.new
        (item_words (Item.Payload to_target at bytes.now)) }
{
    put_data_word(out, page, to_target);
    put_spaced(out, page, at as u64);
    put_hex(out, page, bytes);
}

// A word, and the name of a process.
fn put_named<K: Sink>(out: &mut K, page: &mut Page, word: &[u8], name: Name)
    ensures { Prints K.written K.faults out.old out.new page.old page.new (word.now ++ name_text name) }
{
    put(out, page, word);
    put_name(out, page, name);
}

fn put_end<K: Sink>(out: &mut K, page: &mut Page, name: Name, status: Option<u8>)
    ensures { Prints K.written K.faults out.old out.new page.old page.new (item_words (Item.End name status)) }
{
    put_named(out, page, b"end ", name);
    put(out, page, b" ");
    put_status(out, page, status);
}

fn put_aborted<K: Sink>(
    out: &mut K,
    page: &mut Page,
    initiator: Dev,
    target: Dev,
    unit: Option<u8>,
    kind: AbortKind,
)
    ensures { Prints K.written K.faults out.old out.new page.old page.new
        (item_words (Item.Abort initiator target unit kind)) }
{
    put(out, page, b"abort ");
    put_spaced(out, page, initiator as u64);
    put_spaced(out, page, target as u64);
    put_or_dash(out, page, unit);
    put(out, page, b" ");
    put_abort(out, page, kind);
}

// A word and a number.
fn put_counted<K: Sink>(out: &mut K, page: &mut Page, word: &[u8], number: u64)
    ensures { Prints K.written K.faults out.old out.new page.old page.new (word.now ++ decimal number) }
{
    put(out, page, word);
    put_number(out, page, number);
}

fn put_status_byte<K: Sink>(out: &mut K, page: &mut Page, byte: u8)
    ensures { Prints K.written K.faults out.old out.new page.old page.new (item_words (Item.Status byte)) }
{
    put(out, page, b"status ");
    put_byte(out, page, byte);
}

fn put_words<K: Sink>(out: &mut K, page: &mut Page, item: &Item)
    ensures { Prints K.written K.faults out.old out.new page.old page.new (item_words item.now) }
{
    match item {
        Item::Connect { at, name, again } => put_connect(out, page, *at, *name, *again),
        Item::Unanswered { at, caller, called } => {
            put_unanswered(out, page, *at, *caller, *called)
        }
        Item::Out(message) => put_out(out, page, *message),
        Item::In(message) => put_in(out, page, *message),
        Item::Cdb(bytes) => put_command(out, page, bytes.as_slice()),
        Item::Payload {
            out: to_target,
            at,
            bytes,
        } => put_data(out, page, *to_target, *at, bytes.as_slice()),
        Item::Status(byte) => put_status_byte(out, page, *byte),
        Item::Arrive(name) => put_named(out, page, b"arrive ", *name),
        Item::Ready(name) => put_named(out, page, b"ready ", *name),
        Item::End(name, status) => put_end(out, page, *name, *status),
        Item::Lost(name) => put_named(out, page, b"lost ", *name),
        Item::Abort(initiator, target, unit, kind) => {
            put_aborted(out, page, *initiator, *target, *unit, *kind)
        }
        Item::Reset(dev) => put_counted(out, page, b"reset ", *dev as u64),
        Item::Free(at) => put_counted(out, page, b"free ", *at),
    }
}

fn put_item<K: Sink>(out: &mut K, page: &mut Page, item: &Item)
    ensures { Prints K.written K.faults out.old out.new page.old page.new (item_text item.now) }
{
    put_words(out, page, item);
    put(out, page, b"\n");
}

fn put_items<K: Sink>(out: &mut K, page: &mut Page, items: &[Item])
    ensures { Prints K.written K.faults out.old out.new page.old page.new (flat_map item_text items.now) }
{
    for item in items {
        put_item(out, page, item);
    }
}

fn put_transcript<K: Sink>(out: &mut K, page: &mut Page, items: &[Item])
    ensures { Prints K.written K.faults out.old out.new page.old page.new (transcript_text items.now) }
{
    put(out, page, b"transcript 1\n");
    put_items(out, page, items);
    put(out, page, b"done\n");
}

/// Writes the text of a transcript. It takes no memory, and the sink gets it in pieces of up to some KiB.
///
/// # Errors
///
/// `Failed` where the sink failed, whose count of faults then rose; a front of the text was written.
pub fn print_transcript<K: Sink>(transcript: &Transcript, out: &mut K) -> Result<(), Failed>
    ensures whole { WritesAll (K.written out.old) (K.written out.new)
        (transcript_text transcript.now.items.items) result }
    ensures failed { OnErr result (HasRisen (K.faults out.old) (K.faults out.new)) }
    ensures never_falls { K.faults out.old ≤ K.faults out.new }
{
    let mut page = new_page();
    put_transcript(out, &mut page, transcript.items.as_slice());
    flush(out, &mut page);
    if is_failed(&page) {
        Err(Failed)
    } else {
        Ok(())
    }
}
