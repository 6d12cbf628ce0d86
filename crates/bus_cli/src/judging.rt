//! The word `judge`.
ghost use Rattle.std.specs.Prelude.{◌≡◌, ◌+◌, ◌≤◌, Some, IfSome, IsErrOf};
ghost use Rattle.bus_base.specs.Faults.{HasRisen};
ghost use Rattle.bus_base.specs.Whole.{TakesAtMost};
ghost use Rattle.bus_cli.specs.Words.{limit_of};
ghost use Rattle.bus_cli.specs.Lines.{IfTold};
ghost use Rattle.bus_cli.specs.Judging.{SaysVerdict, JudgeSays, TellsVerdict, JudgeTells, HearsAll};
ghost use Rattle.bus_cli.specs.Ends.{Reads};
ghost use Rattle.bus_cli.specs.declared.words.Word.TheVariants as words;
ghost use Rattle.bus_base.specs.declared.reading.Cut.TheVariants as cuts;

use crate::answers::{broken_line, trace_line};
use crate::hearing::Hearing;
use crate::saying::say;
use crate::status::Status;
use bus_base::{BUFFER, Cut, Sink, Source, read_piece, write_all};
use bus_rules::Verdict;
use trace_text::LIMIT;

// Reads all bytes of the input, at most the limit, through a buffer: the verdict on their trace, or their first
// line that breaks the form. It reads on after a broken rule and after a broken line.
fn hear<S: Source>(input: &mut S) -> Result<Result<Verdict, u32>, Cut>
    ensures whole { HearsAll (S.left input.old) (S.left input.new) result }
    ensures taken { TakesAtMost (S.left input.old) (S.left input.new) (limit_of words.Judge + 1) }
    ensures fault { IsErrOf result cuts.Fault → HasRisen (S.faults input.old) (S.faults input.new) }
    ensures never_falls { S.faults input.old ≤ S.faults input.new }
{
    let mut hearing = Hearing::new();
    let mut heard = 0;
    let mut buffer = [0u8; BUFFER];
    loop {
        let count = read_piece(input, &mut buffer, LIMIT - heard)?;
        if count == 0 {
            return Ok(hearing.finish());
        }
        hearing.take_all(&buffer[..count]);
        heard += count;
    }
}

// Writes the verdict, or the first line that breaks the form.
fn answer<K: Sink>(verdict: Result<Verdict, u32>, out: &mut K) -> Status
    ensures words { result ≡ Status.Words → ⊥ }
    ensures read { result ≡ Status.Read → ⊥ }
    ensures memory { result ≡ Status.Memory → ⊥ }
    ensures write { result ≡ Status.Write → HasRisen (K.faults out.old) (K.faults out.new) }
    ensures form { TellsVerdict result verdict }
    ensures said { IfTold K.written K.faults out.old out.new (SaysVerdict result (Some verdict)) }
    ensures never_falls { K.faults out.old ≤ K.faults out.new }
{
    match verdict {
        Ok(Verdict::Lawful) => match write_all(out, b"lawful\n") {
            Ok(()) => Status::Done,
            Err(_) => Status::Write,
        },
        Ok(Verdict::Broken { row, rule }) => {
            say(out, broken_line(row, rule).as_str().as_bytes());
            Status::Broken
        }
        Err(line) => {
            say(out, trace_line(line).as_str().as_bytes());
            Status::BadTrace
        }
    }
}

/// Reads the input, and judges the trace that it says. Takes no memory.
pub fn judge<S: Source, K: Sink>(input: &mut S, out: &mut K) -> Status
    ensures words { result ≡ Status.Words → ⊥ }
    ensures memory { result ≡ Status.Memory → ⊥ }
    ensures read { result ≡ Status.Read → HasRisen (S.faults input.old) (S.faults input.new) }
    ensures write { result ≡ Status.Write → HasRisen (K.faults out.old) (K.faults out.new) }
    ensures far { IfSome (S.left input.old) (λ bytes. Reads (limit_of words.Judge) result bytes (S.left input.new)) }
    ensures taken { TakesAtMost (S.left input.old) (S.left input.new) (limit_of words.Judge + 1) }
    ensures form { IfSome (S.left input.old) (λ bytes. JudgeTells result bytes) }
    ensures said { IfTold K.written K.faults out.old out.new (JudgeSays result (S.left input.old)) }
    ensures source_falls { S.faults input.old ≤ S.faults input.new }
    ensures sink_falls { K.faults out.old ≤ K.faults out.new }
{
    match hear(input) {
        Ok(verdict) => answer(verdict, out),
        Err(Cut::TooLong) => {
            say(out, trace_line(0).as_str().as_bytes());
            Status::BadTrace
        }
        Err(Cut::Fault) => {
            say(out, b"read fault\n");
            Status::Read
        }
    }
}
