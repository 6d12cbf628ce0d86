//! The word `transcript`.
ghost use Rattle.std.specs.Prelude.{ℕ, ◌≡◌, ◌+◌, ◌≤◌, List, reverse, Option, Ok, IfOk, IfSome};
ghost use Rattle.std.specs.List.{AllByRecursion};
ghost use Rattle.bus_base.specs.Faults.{HasRisen};
ghost use Rattle.bus_base.specs.Whole.{TakesAtMost};
ghost use Rattle.bus_trace.specs.OfTrace.{IsRow};
ghost use Rattle.trace_text.specs.Whole.{trace_of, trace_told};
ghost use Rattle.bus_rules.specs.Rules.{judged_whole};
ghost use Rattle.bus_cli.specs.Words.{limit_of};
ghost use Rattle.bus_cli.specs.Lines.{IfTold};
ghost use Rattle.bus_cli.specs.Texts.{SaysText, TellsText};
ghost use Rattle.bus_cli.specs.Vcd.{VcdTells};
ghost use Rattle.bus_cli.specs.Transcripts.{text_of_rows, SaysTranscript, TranscriptSays, TellsTrace};
ghost use Rattle.bus_cli.specs.Ends.{Reads};
ghost use Rattle.bus_cli.specs.declared.words.Word.TheVariants as words;

use crate::answers::{broken_line, trace_line};
use crate::kept::read_kept;
use crate::saying::{say, status_written};
use crate::status::Status;
use crate::verdict::judged;
use bus_base::{Ns, ReadEnd, Sink, Source};
use bus_rules::Verdict;
use bus_transcript::{print_transcript, transcribe};
use row_store::RowStore;
use std::alloc::Global;
use trace_text::Trace;

// Writes the transcript of these rows and this end, in ns.
fn write_transcript<K: Sink>(alloc: Global, rows: &RowStore, end: Ns, out: &mut K) -> Status
    requires { AllByRecursion IsRow rows.now }
    ensures write { result ≡ Status.Write → HasRisen (K.faults out.old) (K.faults out.new) }
    ensures form { TellsText result }
    ensures said { IfTold K.written K.faults out.old out.new (SaysText result (text_of_rows rows.now)) }
    ensures never_falls { K.faults out.old ≤ K.faults out.new }
{
    let Ok(transcript) = transcribe(alloc, rows, end) else {
        say(out, b"no memory\n");
        return Status::Memory;
    };
    status_written(print_transcript(&transcript, out))
}

// Writes the transcript of a lawful trace, or the rule that a trace breaks.
fn transcribe_trace<K: Sink>(alloc: Global, trace: &Trace, out: &mut K) -> Status
    requires { AllByRecursion IsRow trace.now.rows }
    ensures words { result ≡ Status.Words → ⊥ }
    ensures read { result ≡ Status.Read → ⊥ }
    ensures write { result ≡ Status.Write → HasRisen (K.faults out.old) (K.faults out.new) }
    ensures form { TellsTrace result (Ok (judged_whole (reverse trace.now.rows) trace.now.end)) }
    ensures said { IfTold K.written K.faults out.old out.new
        (SaysTranscript result trace.now.rows trace.now.end) }
    ensures never_falls { K.faults out.old ≤ K.faults out.new }
{
    match judged(&trace.rows, trace.end) {
        Verdict::Lawful => write_transcript(alloc, &trace.rows, trace.end, out),
        Verdict::Broken { row, rule } => {
            say(out, broken_line(row, rule).as_str().as_bytes());
            Status::Broken
        }
    }
}

// Judges the trace that was read, and writes its transcript; or the first line that breaks the form.
fn transcribe_read<K: Sink>(alloc: Global, read: Result<Trace, u32>, out: &mut K) -> Status
    requires { IfOk read (λ trace. AllByRecursion IsRow trace.rows) }
    ensures words { result ≡ Status.Words → ⊥ }
    ensures read { result ≡ Status.Read → ⊥ }
    ensures write { result ≡ Status.Write → HasRisen (K.faults out.old) (K.faults out.new) }
    ensures form { (bytes : List ℕ) → trace_of bytes ≡ trace_told read → VcdTells result bytes }
    ensures said { (input : Option (List ℕ)) → IfSome input (λ bytes. trace_of bytes ≡ trace_told read)
        → IfTold K.written K.faults out.old out.new (TranscriptSays result input) }
    ensures never_falls { K.faults out.old ≤ K.faults out.new }
{
    match read {
        Ok(trace) => transcribe_trace(alloc, &trace, out),
        Err(line) => {
            say(out, trace_line(line).as_str().as_bytes());
            Status::BadTrace
        }
    }
}

/// Reads the input, and writes the transcript of the trace that it says, where that is lawful.
pub fn transcript<S: Source, K: Sink>(alloc: Global, input: &mut S, out: &mut K) -> Status
    ensures words { result ≡ Status.Words → ⊥ }
    ensures read { result ≡ Status.Read → HasRisen (S.faults input.old) (S.faults input.new) }
    ensures write { result ≡ Status.Write → HasRisen (K.faults out.old) (K.faults out.new) }
    ensures far { IfSome (S.left input.old)
        (λ bytes. Reads (limit_of words.Transcript) result bytes (S.left input.new)) }
    ensures taken { TakesAtMost (S.left input.old) (S.left input.new) (limit_of words.Transcript + 1) }
    ensures form { IfSome (S.left input.old) (λ bytes. VcdTells result bytes) }
    ensures said { IfTold K.written K.faults out.old out.new (TranscriptSays result (S.left input.old)) }
    ensures source_falls { S.faults input.old ≤ S.faults input.new }
    ensures sink_falls { K.faults out.old ≤ K.faults out.new }
{
    match read_kept(alloc, input) {
        Ok(read) => transcribe_read(alloc, read, out),
        Err(ReadEnd::TooLong) => {
            say(out, trace_line(0).as_str().as_bytes());
            Status::BadTrace
        }
        Err(ReadEnd::Fault) => {
            say(out, b"read fault\n");
            Status::Read
        }
        Err(ReadEnd::NoMemory) => {
            say(out, b"no memory\n");
            Status::Memory
        }
    }
}
