//! The words `run`, `run --short` and `run --transcript`.
ghost use Rattle.std.specs.Prelude.{◌≡◌, ◌+◌, ◌≤◌, Some, IfSome, length};
ghost use Rattle.std.specs.List.{AllByRecursion};
ghost use Rattle.bus_base.specs.Faults.{HasRisen};
ghost use Rattle.bus_base.specs.Whole.{TakesAtMost};
ghost use Rattle.bus_cli.specs.Words.{limit_of};
ghost use Rattle.bus_cli.specs.Lines.{IfTold};
ghost use Rattle.bus_cli.specs.Texts.{SaysText, TellsText};
ghost use Rattle.scenario.specs.Reading.{scenario_of};
ghost use Rattle.bus_cli.specs.Transcripts.{text_of_rows};
ghost use Rattle.bus_cli.specs.Running.{run_text, RunSays, RunTells, StepsBy};
ghost use Rattle.bus_cli.specs.Ends.{Reads};
ghost use Rattle.bus_cli.specs.declared.words.Word.TheVariants as words;
ghost use Rattle.bus_trace.specs.OfTrace.{IsOfDevice};

use crate::answers::refusal_line;
use crate::saying::{say, status_written};
use crate::status::Status;
use crate::words::Extent;
use bus_base::{ReadEnd, Sink, Source, Steps, read_all};
use bus_engine::Run;
use bus_transcript::{print_transcript, transcribe_run};
use scenario::{Bad, LIMIT, Scenario, read};
use std::alloc::Global;
use std::sync::ledger::Ledger;
use trace_text::{report, short_report};

// Writes the transcript of a run of this scenario.
fn write_transcript<K: Sink>(alloc: Global, scenario: &Scenario, run: &Run, out: &mut K) -> Status
    requires { AllByRecursion IsOfDevice run.now.rows }
    ensures write { result ≡ Status.Write → HasRisen (K.faults out.old) (K.faults out.new) }
    ensures form { TellsText result }
    ensures said { IfTold K.written K.faults out.old out.new (SaysText result (text_of_rows run.now.rows)) }
    ensures never_falls { K.faults out.old ≤ K.faults out.new }
{
    let Ok(transcript) = transcribe_run(alloc, scenario, run) else {
        say(out, b"no memory\n");
        return Status::Memory;
    };
    status_written(print_transcript(&transcript, out))
}

// Writes what the words ask of a run of this scenario.
fn write_run<K: Sink>(
    alloc: Global,
    scenario: &Scenario,
    run: &Run,
    extent: Extent,
    out: &mut K,
) -> Status
    requires replies { length run.now.replies ≡ length scenario.now.commands }
    requires disks { length run.now.disks ≡ length scenario.now.units }
    requires tapes { length run.now.tapes ≡ length scenario.now.tapes }
    requires rows { AllByRecursion IsOfDevice run.now.rows }
    ensures write { result ≡ Status.Write → HasRisen (K.faults out.old) (K.faults out.new) }
    ensures form { TellsText result }
    ensures said { IfTold K.written K.faults out.old out.new
        (SaysText result (run_text extent scenario.now run.now)) }
    ensures never_falls { K.faults out.old ≤ K.faults out.new }
{
    match extent {
        Extent::Whole => status_written(report(scenario, run, out)),
        Extent::Short => status_written(short_report(run, out)),
        Extent::Transcript => write_transcript(alloc, scenario, run, out),
    }
}

// Runs the scenario that these bytes say.
fn run_bytes<K: Sink, L: Ledger>(
    alloc: Global,
    extent: Extent,
    bytes: &[u8],
    out: &mut K,
    steps: &mut Steps<L>,
) -> Status
    ensures words { result ≡ Status.Words → ⊥ }
    ensures read { result ≡ Status.Read → ⊥ }
    ensures write { result ≡ Status.Write → HasRisen (K.faults out.old) (K.faults out.new) }
    ensures form { RunTells result bytes.now }
    ensures said { IfTold K.written K.faults out.old out.new (RunSays extent result (Some bytes.now)) }
    ensures never_falls { K.faults out.old ≤ K.faults out.new }
    ensures steps { StepsBy (scenario_of bytes.now) steps.old steps.new }
{
    let scenario = match read(alloc, bytes) {
        Ok(scenario) => scenario,
        Err(Bad::At { line, reason }) => {
            say(out, refusal_line(line, reason).as_str().as_bytes());
            return Status::Refused;
        }
        Err(Bad::NoMemory) => {
            say(out, b"no memory\n");
            return Status::Memory;
        }
    };
    let Ok(run) = bus_engine::run(alloc, &scenario, steps) else {
        say(out, b"no memory\n");
        return Status::Memory;
    };
    write_run(alloc, &scenario, &run, extent, out)
}

/// Reads the input, runs the scenario that it says, and writes the report of the run, the short one, or its transcript.
pub fn run<S: Source, K: Sink, L: Ledger>(
    alloc: Global,
    extent: Extent,
    input: &mut S,
    out: &mut K,
    steps: &mut Steps<L>,
) -> Status
    ensures words { result ≡ Status.Words → ⊥ }
    ensures read { result ≡ Status.Read → HasRisen (S.faults input.old) (S.faults input.new) }
    ensures write { result ≡ Status.Write → HasRisen (K.faults out.old) (K.faults out.new) }
    ensures far { IfSome (S.left input.old)
        (λ bytes. Reads (limit_of (words.Run extent)) result bytes (S.left input.new)) }
    ensures taken { TakesAtMost (S.left input.old) (S.left input.new) (limit_of (words.Run extent) + 1) }
    ensures form { IfSome (S.left input.old) (λ bytes. RunTells result bytes) }
    ensures said { IfTold K.written K.faults out.old out.new (RunSays extent result (S.left input.old)) }
    ensures source_falls { S.faults input.old ≤ S.faults input.new }
    ensures sink_falls { K.faults out.old ≤ K.faults out.new }
    ensures steps { IfSome (S.left input.old) (λ bytes. StepsBy (scenario_of bytes) steps.old steps.new) }
{
    match read_all(alloc, input, LIMIT) {
        Ok(bytes) => run_bytes(alloc, extent, &bytes, out, steps),
        Err(ReadEnd::TooLong) => {
            say(out, refusal_line(0, 9).as_str().as_bytes());
            Status::Refused
        }
        Err(ReadEnd::Fault) => {
            say(out, b"read fault\n");
            Status::Read
        }
        Err(ReadEnd::NoMemory) => {
            say(out, b"no memory\n");
            Status::Memory
        }
    }
}
