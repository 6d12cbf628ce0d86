//! The program.
ghost use Rattle.std.specs.Prelude.{◌≡◌, ◌≤◌, ◌↔◌, Some, None};
ghost use Rattle.bus_base.specs.Faults.{HasRisen};
ghost use Rattle.bus_cli.specs.declared.words.Word.TheVariants as words_of;
ghost use Rattle.bus_cli.specs.Lines.{IfTold};
ghost use Rattle.bus_cli.specs.Ends.{Says, word_in, IsMaking, ReadsFar, TakesWithin, TellsInput, MeetsInput, TakesSteps};

use crate::dumping::vcd;
use crate::judging::judge;
use crate::making::make;
use crate::running::run;
use crate::saying::say;
use crate::status::Status;
use crate::transcribing::transcript;
use crate::undumping::unvcd;
use crate::words::{Word, word_of};
use bus_base::{Sink, Source, Steps};
use std::alloc::Global;
use std::sync::ledger::Ledger;

/// The whole program, but for its runtime.
///
/// `words` are the arguments after the program's name. With `run` it reads all of `input`, at most 4,194,304
/// bytes, runs the scenario that it says, and writes the report of the run to `out`, or with `run --short` the
/// short report, or with `run --transcript` the transcript of its trace. With `make SEED N` it reads nothing, and
/// writes the scenario of this number. With `judge` it reads all of `input`, at most 1,073,741,824 bytes, judges
/// the trace that it says, and writes the verdict in one line. With `transcript` it judges as with `judge`, and
/// writes the transcript of a trace that is lawful; with `vcd` likewise its value change dump. With `unvcd` it
/// reads a value change dump of as many bytes, and writes the text of its trace. A refusal writes its one line to
/// `out` instead. Where a line cannot be written the status stays; but what was asked for ends with `Write` where
/// it cannot be written, and so does the answer `lawful`. A run counts in `steps` each time that it asks a device,
/// at most as many as its budget has.
///
/// The words are looked at first, then the input is read, then it is read as a scenario, a trace or a dump, then
/// the scenario is run, or the trace is judged; the first refusal is the answer. Want of memory can come at any
/// time after the words; `judge` takes none.
pub fn bus_main<S: Source, K: Sink, L: Ledger>(
    alloc: Global,
    words: &[String],
    input: &mut S,
    out: &mut K,
    steps: &mut Steps<L>,
) -> Status
    ensures words { (result ≡ Status.Words) ↔ (word_in words.now ≡ None) }
    ensures untouched { result ≡ Status.Words → input.new ≡ input.old }
    ensures idle { IsMaking (word_in words.now) → input.new ≡ input.old }
    ensures memory { word_in words.now ≡ Some words_of.Judge → result ≡ Status.Memory → ⊥ }
    ensures read { result ≡ Status.Read → HasRisen (S.faults input.old) (S.faults input.new) }
    ensures write { result ≡ Status.Write → HasRisen (K.faults out.old) (K.faults out.new) }
    ensures far { ReadsFar (word_in words.now) result (S.left input.old) (S.left input.new) }
    ensures taken { TakesWithin (word_in words.now) (S.left input.old) (S.left input.new) }
    ensures form { TellsInput (word_in words.now) result (S.left input.old) }
    ensures said { IfTold K.written K.faults out.old out.new (Says (word_in words.now) result (S.left input.old)) }
    ensures complete { ¬ HasRisen (S.faults input.old) (S.faults input.new)
        → MeetsInput (word_in words.now) result (S.left input.old) }
    ensures source_never_falls { S.faults input.old ≤ S.faults input.new }
    ensures sink_never_falls { K.faults out.old ≤ K.faults out.new }
    ensures steps { TakesSteps (word_in words.now) (S.left input.old) steps.old steps.new }
{
    match word_of(words) {
        Some(Word::Run(extent)) => run(alloc, extent, input, out, steps),
        Some(Word::Judge) => judge(input, out),
        Some(Word::Make { seed, n }) => make(alloc, seed, n, out),
        Some(Word::Vcd) => vcd(alloc, input, out),
        Some(Word::Unvcd) => unvcd(alloc, input, out),
        Some(Word::Transcript) => transcript(alloc, input, out),
        None => {
            say(
                out,
                b"usage: scsibus run [--short|--transcript] | judge | make SEED N | transcript | vcd | unvcd\n",
            );
            Status::Words
        }
    }
}
