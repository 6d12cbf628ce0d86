//! What the messages of a connection say of it (ANSI X3.131-1994, 6.6).
ghost use Rattle.std.specs.Prelude.{◌≡◌};
ghost use Rattle.bus_transcript.specs.Nexus.{unit_out, unit_in, tag_out, tag_in, tag_aborted, kind_of, no_summary, named, named_out, named_in, last_abort, departure_out, departure_in, summary_out, summary_in, summary_after, summary_of};
ghost use Rattle.msg_grammar.specs.Grammar.{is_abort};

use crate::part::Part;
use bus_base::AbortKind;
use msg_grammar::{MsgIn, MsgOut};
use std::collections::VecDeque;

/// What it means that the target goes to BUS FREE.
#[derive(Clone, Copy)]
pub enum Departure {
    /// The process is lost.
    Loss,
    /// The target has said so, by COMMAND COMPLETE or DISCONNECT.
    Leave,
    /// The initiator has asked for it, by an abort message.
    Abortion,
}

/// What the messages of a connection so far say of it.
#[derive(Clone, Copy)]
pub struct Summary {
    /// The unit that was named.
    pub unit: Option<u8>,
    /// The tag that was named.
    pub tag: Option<u8>,
    /// The next message of the end that names the nexus may be a tag.
    pub awaits_tag: bool,
    /// The last abort message.
    pub abort: Option<MsgOut>,
    /// What BUS FREE would mean.
    pub departure: Departure,
}

fn unit_out(message: MsgOut) -> Option<u8>
    ensures { result ≡ unit_out message }
{
    match message {
        MsgOut::Identify { lun, .. } => Some(lun),
        _ => None,
    }
}

fn unit_in(message: MsgIn) -> Option<u8>
    ensures { result ≡ unit_in message }
{
    match message {
        MsgIn::Identify { lun } => Some(lun),
        _ => None,
    }
}

fn tag_out(message: MsgOut) -> Option<u8>
    ensures { result ≡ tag_out message }
{
    match message {
        MsgOut::SimpleTag(tag) | MsgOut::HeadTag(tag) | MsgOut::OrderedTag(tag) => Some(tag),
        _ => None,
    }
}

fn tag_in(message: MsgIn) -> Option<u8>
    ensures { result ≡ tag_in message }
{
    match message {
        MsgIn::SimpleTag(tag) => Some(tag),
        _ => None,
    }
}

fn is_abort(message: MsgOut) -> bool
    ensures { result ≡ is_abort message }
{
    match message {
        MsgOut::Abort | MsgOut::AbortTag | MsgOut::ClearQueue | MsgOut::DeviceReset => true,
        _ => false,
    }
}

fn tag_aborted(tag: Option<u8>) -> AbortKind
    ensures { result ≡ tag_aborted tag }
{
    match tag {
        None => AbortKind::All,
        Some(tag) => AbortKind::Tag(tag),
    }
}

/// What an abort message aborts in a connection with this tag.
pub(crate) fn kind_of(message: MsgOut, tag: Option<u8>) -> AbortKind
    ensures { result ≡ kind_of message tag }
{
    match message {
        MsgOut::AbortTag => tag_aborted(tag),
        MsgOut::ClearQueue => AbortKind::WholeQueue,
        MsgOut::DeviceReset => AbortKind::Device,
        _ => AbortKind::All,
    }
}

fn no_summary() -> Summary
    ensures { result ≡ no_summary }
{
    Summary {
        unit: None,
        tag: None,
        awaits_tag: false,
        abort: None,
        departure: Departure::Loss,
    }
}

fn departure_out(message: MsgOut) -> Departure
    ensures { result ≡ departure_out message }
{
    if is_abort(message) {
        Departure::Abortion
    } else {
        Departure::Loss
    }
}

fn departure_in(message: MsgIn) -> Departure
    ensures { result ≡ departure_in message }
{
    match message {
        MsgIn::CommandComplete | MsgIn::Disconnect => Departure::Leave,
        _ => Departure::Loss,
    }
}

fn last_abort(was: Option<MsgOut>, message: MsgOut) -> Option<MsgOut>
    ensures { result ≡ last_abort was message }
{
    if is_abort(message) {
        Some(message)
    } else {
        was
    }
}

impl Summary {
    // A message of the end that names the nexus, which names this unit or this tag.
    fn named(self, unit: Option<u8>, tag: Option<u8>) -> Summary
        ensures { result ≡ named self unit tag }
    {
        if self.unit.is_none() {
            Summary {
                unit,
                awaits_tag: unit.is_some(),
                ..self
            }
        } else if self.awaits_tag {
            Summary {
                tag,
                awaits_tag: false,
                ..self
            }
        } else {
            self
        }
    }

    fn named_out(self, again: bool, message: MsgOut) -> Summary
        ensures { result ≡ named_out again self message }
    {
        if again {
            self
        } else {
            self.named(unit_out(message), tag_out(message))
        }
    }

    fn named_in(self, again: bool, message: MsgIn) -> Summary
        ensures { result ≡ named_in again self message }
    {
        if again {
            self.named(unit_in(message), tag_in(message))
        } else {
            self
        }
    }

    fn with_out(self, again: bool, message: MsgOut) -> Summary
        ensures { result ≡ summary_out again self message }
    {
        Summary {
            abort: last_abort(self.abort, message),
            departure: departure_out(message),
            ..self.named_out(again, message)
        }
    }

    fn with_in(self, again: bool, message: MsgIn) -> Summary
        ensures { result ≡ summary_in again self message }
    {
        Summary {
            departure: departure_in(message),
            ..self.named_in(again, message)
        }
    }

    fn with_part(self, again: bool, part: &Part) -> Summary
        ensures { result ≡ summary_after again self part.now }
    {
        match part {
            Part::Out(message) => self.with_out(again, *message),
            Part::In(message) => self.with_in(again, *message),
            Part::BrokenOff => Summary {
                departure: Departure::Loss,
                ..self
            },
            _ => self,
        }
    }
}

/// What these parts of a connection, the oldest first, say of it; a reselection began it or not.
pub(crate) fn summary_of(again: bool, parts: &VecDeque<Part>) -> Summary
    ensures { result ≡ summary_of again no_summary parts.now.items }
{
    let mut summary = no_summary();
    for i in 0..parts.len() {
        summary = summary.with_part(again, &parts[i]);
    }
    summary
}
