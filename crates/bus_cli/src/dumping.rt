//! The word `vcd`.
ghost use Rattle.std.specs.Prelude.{ℕ, ◌≡◌, ◌+◌, ◌≤◌, List, reverse, Option, Ok, IfOk, IfSome};
ghost use Rattle.std.specs.List.{AllByRecursion};
ghost use Rattle.bus_base.specs.Faults.{HasRisen};
ghost use Rattle.bus_base.specs.Whole.{TakesAtMost};
ghost use Rattle.bus_trace.specs.OfTrace.{IsRow};
ghost use Rattle.trace_text.specs.Whole.{trace_of, trace_told};
ghost use Rattle.bus_rules.specs.Rules.{judged_whole};
ghost use Rattle.bus_cli.specs.Words.{limit_of};
ghost use Rattle.bus_cli.specs.Lines.{IfTold};
ghost use Rattle.bus_cli.specs.Judging.{TellsVerdict};
ghost use Rattle.bus_cli.specs.Vcd.{SaysTrace, VcdSays, VcdTells};
ghost use Rattle.bus_cli.specs.Ends.{Reads};
ghost use Rattle.bus_cli.specs.declared.words.Word.TheVariants as words;

use crate::answers::{broken_line, trace_line};
use crate::kept::read_kept;
use crate::saying::say;
use crate::status::Status;
use crate::verdict::judged;
use bus_base::{ReadEnd, Sink, Source};
use bus_rules::Verdict;
use std::alloc::Global;
use trace_text::Trace;
use vcd_text::write_vcd;

// Writes the dump of a lawful trace, or the rule that a trace breaks.
fn dump<K: Sink>(trace: &Trace, out: &mut K) -> Status
    requires { AllByRecursion IsRow trace.now.rows }
    ensures words { result ≡ Status.Words → ⊥ }
    ensures read { result ≡ Status.Read → ⊥ }
    ensures write { result ≡ Status.Write → HasRisen (K.faults out.old) (K.faults out.new) }
    ensures form { TellsVerdict result (Ok (judged_whole (reverse trace.now.rows) trace.now.end)) }
    ensures said { IfTold K.written K.faults out.old out.new (SaysTrace result trace.now.rows trace.now.end) }
    ensures never_falls { K.faults out.old ≤ K.faults out.new }
{
    match judged(&trace.rows, trace.end) {
        Verdict::Lawful => match write_vcd(&trace.rows, trace.end, out) {
            Ok(()) => Status::Done,
            Err(_) => Status::Write,
        },
        Verdict::Broken { row, rule } => {
            say(out, broken_line(row, rule).as_str().as_bytes());
            Status::Broken
        }
    }
}

// Judges the trace that was read, and writes its dump; or the first line that breaks the form.
fn dump_read<K: Sink>(read: Result<Trace, u32>, out: &mut K) -> Status
    requires { IfOk read (λ trace. AllByRecursion IsRow trace.rows) }
    ensures words { result ≡ Status.Words → ⊥ }
    ensures read { result ≡ Status.Read → ⊥ }
    ensures write { result ≡ Status.Write → HasRisen (K.faults out.old) (K.faults out.new) }
    ensures form { (bytes : List ℕ) → trace_of bytes ≡ trace_told read → VcdTells result bytes }
    ensures said { (input : Option (List ℕ)) → IfSome input (λ bytes. trace_of bytes ≡ trace_told read)
        → IfTold K.written K.faults out.old out.new (VcdSays result input) }
    ensures never_falls { K.faults out.old ≤ K.faults out.new }
{
    match read {
        Ok(trace) => dump(&trace, out),
        Err(line) => {
            say(out, trace_line(line).as_str().as_bytes());
            Status::BadTrace
        }
    }
}

/// Reads the input, and writes the value change dump of the trace that it says, where that is lawful.
pub fn vcd<S: Source, K: Sink>(alloc: Global, input: &mut S, out: &mut K) -> Status
    ensures words { result ≡ Status.Words → ⊥ }
    ensures read { result ≡ Status.Read → HasRisen (S.faults input.old) (S.faults input.new) }
    ensures write { result ≡ Status.Write → HasRisen (K.faults out.old) (K.faults out.new) }
    ensures far { IfSome (S.left input.old) (λ bytes. Reads (limit_of words.Vcd) result bytes (S.left input.new)) }
    ensures taken { TakesAtMost (S.left input.old) (S.left input.new) (limit_of words.Vcd + 1) }
    ensures form { IfSome (S.left input.old) (λ bytes. VcdTells result bytes) }
    ensures said { IfTold K.written K.faults out.old out.new (VcdSays result (S.left input.old)) }
    ensures source_falls { S.faults input.old ≤ S.faults input.new }
    ensures sink_falls { K.faults out.old ≤ K.faults out.new }
{
    match read_kept(alloc, input) {
        Ok(read) => dump_read(read, out),
        Err(ReadEnd::TooLong) => {
            say(out, trace_line(0).as_str().as_bytes());
            Status::BadTrace
        }
        Err(ReadEnd::Fault) => {
            say(out, b"read fault\n");
            Status::Read
        }
        Err(ReadEnd::NoMemory) => {
            say(out, b"no memory\n");
            Status::Memory
        }
    }
}
