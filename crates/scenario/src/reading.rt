//! From a text to a scenario.
ghost use Rattle.std.specs.Prelude.{◌≡◌, IfOk};
ghost use Rattle.scenario.specs.Writing.{Obeys};
ghost use Rattle.scenario.specs.Reading.{scenario_of, told, Answers};

use crate::bounds::LIMIT;
use crate::draft::Draft;
use crate::fault::{Bad, Refusal};
use crate::kind::is_end;
use crate::value::Scenario;
use std::alloc::Global;
use text_words::first_line;

fn told(refusal: Refusal, line: u32) -> Bad
    ensures { result ≡ told refusal line }
{
    match refusal {
        Refusal::Memory => Bad::NoMemory,
        Refusal::Reason(reason) => Bad::At { line, reason },
    }
}

/// The scenario that the text says, or its first line with a reason and the lowest reason there.
///
/// # Examples
///
/// ```rust
/// let text = "scsi 1\ninitiator 7 latency 0 open 1 retries 2 sync 0 0 lag 0\nend\n";
/// let Ok(scenario) = read(rt.alloc(), text.as_bytes()) else {
///     panic!(rt; "it is a scenario");
/// };
/// assert!(rt; scenario.hosts.len() == 1);
/// // There is no text 4, so the line has none of the forms.
/// let Err(bad) = read(rt.alloc(), b"scsi 4\nend\n") else {
///     panic!(rt; "it is none");
/// };
/// assert!(rt; bad == Bad::At { line: 1, reason: 2 });
/// ```
pub fn read(alloc: Global, bytes: &[u8]) -> Result<Scenario, Bad>
    // Which it is.
    ensures exact { Answers result (scenario_of bytes.now) }
    // What is read obeys the rules, so what is printed of it reads back.
    ensures obeys { IfOk result (λ s. Obeys s) }
{
    read_lines(alloc, bytes)
}

fn read_lines(alloc: Global, bytes: &[u8]) -> Result<Scenario, Bad>
    ensures { Answers result (scenario_of bytes.now) }
{
    if bytes.len() > LIMIT {
        return Err(Bad::At { line: 0, reason: 9 });
    }
    let mut draft = Draft::new(alloc);
    let mut rest = bytes;
    let mut count = 0u32;
    while !rest.is_empty() {
        let line = first_line(rest);
        count += 1;
        match draft.take_line(alloc, line.text, line.ended) {
            Ok(()) => {}
            Err(refusal) => return Err(told(refusal, count)),
        }
        rest = line.rest;
    }
    if is_end(draft.last) {
        Ok(draft.scenario)
    } else {
        Err(Bad::At {
            line: count + 1,
            reason: 2,
        })
    }
}
