//! The part of a report with the replies.
ghost use Rattle.trace_text.specs.ReplyText.{bytes_text, residue_text, sense_text, outcome_text, reply_text, replies_text};
ghost use Rattle.text_pages.specs.Pages.{Prints};

use bus_base::Sink;
use cdb_codec::Sense;
use run_record::Outcome;
use text_pages::{Page, put, put_byte, put_hex, put_number, put_spaced};

// The bytes that came in, if any did.
fn put_bytes<K: Sink>(out: &mut K, page: &mut Page, bytes: &[u8])
    ensures { Prints K.written K.faults out.old out.new page.old page.new (bytes_text bytes.now) }
{
    if bytes.is_empty() {
        return;
    }
    put(out, page, b" ");
    put_hex(out, page, bytes);
}

// What a tape met, and how many it did not move over or write, if it tells.
fn put_residue<K: Sink>(out: &mut K, page: &mut Page, marks: u8, residue: Option<u32>)
    ensures { Prints K.written K.faults out.old out.new page.old page.new (residue_text marks residue) }
{
    match residue {
        None => {}
        Some(residue) => {
            put(out, page, b" ");
            put_byte(out, page, marks);
            put(out, page, b" ");
            put_number(out, page, residue as u64)
        }
    }
}

fn put_sense<K: Sink>(out: &mut K, page: &mut Page, sense: Option<Sense>)
    ensures { Prints K.written K.faults out.old out.new page.old page.new (sense_text sense) }
{
    match sense {
        None => put(out, page, b"none"),
        Some(sense) => {
            put_byte(out, page, sense.key);
            put_byte(out, page, sense.asc);
            put_byte(out, page, sense.ascq);
            put_residue(out, page, sense.marks, sense.residue)
        }
    }
}

fn put_outcome<K: Sink>(out: &mut K, page: &mut Page, outcome: &Outcome)
    ensures { Prints K.written K.faults out.old out.new page.old page.new (outcome_text outcome.now) }
{
    match outcome {
        Outcome::Good(bytes) => {
            put(out, page, b"GOOD");
            put_bytes(out, page, bytes.as_slice())
        }
        Outcome::Check(sense) => {
            put(out, page, b"CHECK ");
            put_sense(out, page, *sense)
        }
        Outcome::QFull => put(out, page, b"QFULL"),
        Outcome::SelTimeout => put(out, page, b"SELTIMEOUT"),
        Outcome::Lost => put(out, page, b"LOST"),
        Outcome::Reset => put(out, page, b"RESET"),
        Outcome::Aborted => put(out, page, b"ABORTED"),
    }
}

fn put_reply<K: Sink>(out: &mut K, page: &mut Page, number: u64, outcome: &Outcome)
    ensures { Prints K.written K.faults out.old out.new page.old page.new (reply_text number outcome.now) }
{
    put(out, page, b"cmd ");
    put_spaced(out, page, number);
    put_outcome(out, page, outcome);
    put(out, page, b"\n");
}

/// The replies, numbered from 1.
pub(crate) fn put_replies<K: Sink>(out: &mut K, page: &mut Page, outcomes: &[Outcome])
    ensures { Prints K.written K.faults out.old out.new page.old page.new (replies_text 1 outcomes.now) }
{
    for index in 0..outcomes.len() {
        put_reply(out, page, index as u64 + 1, &outcomes[index]);
    }
}
