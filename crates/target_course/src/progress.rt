//! How far the processes of a target have come: the data runs that each has made, and the recoveries that were counted
//! for it (ANSI X3.131-1994, 6.6.10, 6.6.13, 6.6.19 and 6.6.20).
ghost use Rattle.std.specs.Prelude.{ℕ, ◌≡◌, ◌<◌, ◌+◌, ◌^◌, [], ◌∷◌, List, Some, true, length, IfOk};
ghost use Rattle.bus_trace.specs.declared.Row.{Row};
ghost use Rattle.bus_trace.specs.Terms.{connection as connection_after};
ghost use Rattle.scenario.specs.Value.{ScenarioValue};
ghost use Rattle.array_model.specs.Processes.{Process, process_of};
ghost use Rattle.due_model.specs.dialogue_model.specs.Hearing.{hearing as hearing_in};
ghost use Rattle.due_model.specs.Faithful.{faithful};
ghost use Rattle.due_model.specs.LastingState.{progress_in};
ghost use Rattle.due_model.specs.Plain.{AreOfDevices};
ghost use Rattle.due_model.specs.RunSteps.{run_state};
ghost use Rattle.target_course.specs.Progress.{no_counts, counts_after, no_pair, half_of, pair_after, counts_at, no_progress, is_phase_left, progress_counted, progress_seen, counts_of, IsProgressOf, IsLeftSo, AreExactly};
ghost use Rattle.bus_phases.specs.Phases.{count_after};

use bus_base::{Dev, NoMemory, ProcId};
use bus_phases::count_after;
use bus_trace::{Connection, changes_phase};
use due_model::the_dialogue_model::{Hearing, Leaving};
use due_model::{hearings_are_plain, kept_is_plain};
use scenario::Scenario;
use std::alloc::Global;
use std::marker::Model;

/// How far a process has come. A count stays at the last u64.
#[derive(Clone, Copy)]
pub struct Counts {
    /// The data runs that it has made.
    pub runs: u64,
    /// The recoveries that were counted for it.
    pub recoveries: u64,
}

/// How far a command has come, and its automatic REQUEST SENSE.
#[derive(Clone, Copy)]
pub struct CountsPair {
    /// The command.
    pub command: Counts,
    /// Its automatic REQUEST SENSE.
    pub sense: Counts,
}

/// How far the processes of a target have come.
#[derive(Drop)]
pub struct Progress {
    dev: Dev,
    // By the number of the command, from 1.
    pairs: Vec<CountsPair>,
}

impl Model for Progress {
    ghost use Rattle.target_course.specs.Progress.{ProgressValue};

    ghost Value = { ProgressValue };

    ghost view = { λ a. record { dev = a.dev; pairs = a.pairs.items } };
}

fn no_counts() -> Counts
    ensures { result ≡ no_counts }
{
    Counts {
        runs: 0,
        recoveries: 0,
    }
}

fn no_pair() -> CountsPair
    ensures { result ≡ no_pair }
{
    CountsPair {
        command: no_counts(),
        sense: no_counts(),
    }
}

impl Counts {
    // A phase is left so.
    fn after(self, leaving: &Leaving) -> Counts
        ensures { result ≡ counts_after self leaving.now }
    {
        Counts {
            runs: count_after(leaving.done, self.runs),
            recoveries: count_after(leaving.counts, self.recoveries),
        }
    }
}

impl CountsPair {
    fn half(self, sense: bool) -> Counts
        ensures { result ≡ half_of self sense }
    {
        if sense { self.sense } else { self.command }
    }

    fn after(self, sense: bool, leaving: &Leaving) -> CountsPair
        ensures { result ≡ pair_after self sense leaving.now }
    {
        if sense {
            CountsPair {
                sense: self.sense.after(leaving),
                ..self
            }
        } else {
            CountsPair {
                command: self.command.after(leaving),
                ..self
            }
        }
    }
}

/// Whether a phase that had begun is left in the row that told this.
pub fn is_phase_left(hearing: &Hearing) -> bool
    ensures { result ≡ is_phase_left hearing.now }
{
    changes_phase(&hearing.change) && hearing.begun
}

impl Progress {
    fn uncounted(alloc: Global, scenario: &Scenario, dev: Dev) -> Result<Progress, NoMemory>
        ensures { IfOk result (λ made. made ≡ no_progress dev (length scenario.now.commands + 1)) }
    {
        let pairs = vec![in alloc; no_pair(); scenario.commands.len() + 1]?;
        Ok(Progress { dev, pairs })
    }

    /// Of this target, before any row. It takes all its memory here.
    pub fn new(alloc: Global, scenario: &Scenario, dev: Dev) -> Result<Progress, NoMemory>
        ensures exact { IfOk result (λ made. made ≡ no_progress dev (length scenario.now.commands + 1)) }
        ensures trace { IfOk result (λ made. IsProgressOf scenario.now [] made) }
    {
        Progress::uncounted(alloc, scenario, dev)
    }

    fn at(&self, id: ProcId) -> Counts
        ensures { result ≡ counts_at self.now.pairs id }
    {
        match self.pairs.get(id.command as usize) {
            None => no_counts(),
            Some(pair) => pair.half(id.sense),
        }
    }

    /// How far this process has come. After fewer than 2^64 rows no count is at its last.
    pub fn counts(&self, id: ProcId) -> Counts
        ensures value { result ≡ counts_at self.now.pairs id }
        ensures trace { (s : ScenarioValue) (rows : List Row) (p : Process) → IsProgressOf s rows self.now
            → process_of s id ≡ Some p → p.target ≡ self.now.dev
            → result ≡ counts_of (progress_in (run_state s rows).progress id) }
        ensures exact { (s : ScenarioValue) (rows : List Row) (p : Process) → IsProgressOf s rows self.now
            → process_of s id ≡ Some p → p.target ≡ self.now.dev → length rows < 2 ^ 64
            → AreExactly (progress_in (run_state s rows).progress id) result }
    {
        self.at(id)
    }

    fn count(&mut self, process: Option<ProcId>, leaving: &Leaving)
        ensures { self.new ≡ progress_counted self.old process leaving.now }
    {
        if let Some(id) = process {
            let number = id.command as usize;
            if number < self.pairs.len() {
                self.pairs[number] = self.pairs[number].after(id.sense, leaving);
            }
        }
    }

    fn after_row(
        &mut self,
        process: Option<ProcId>,
        leaving: &Leaving,
        hearing: &Hearing,
        before: Option<Connection>,
        after: Option<Connection>,
    )
        ensures { self.new ≡ progress_seen self.old process leaving.now hearing.now before after }
    {
        if let (Some(connection), Some(_)) = (before, after) {
            if connection.target.get() == self.dev && is_phase_left(hearing) {
                self.count(process, leaving);
            }
        }
    }

    /// A row was made, of any device, that told this, and before and after which these connections stand. `process` is
    /// the process that the target serves before it, and `leaving` how it leaves the phase that stands then.
    pub fn see(
        &mut self,
        process: Option<ProcId>,
        leaving: &Leaving,
        hearing: &Hearing,
        before: Option<Connection>,
        after: Option<Connection>,
    )
        ensures dev { self.new.dev ≡ self.old.dev }
        ensures exact { self.new ≡ progress_seen self.old process leaving.now hearing.now before after }
        ensures trace { (s : ScenarioValue) (rows : List Row) (row : Row) → AreOfDevices (row ∷ rows)
            → hearing.now ≡ hearing_in rows row → before ≡ connection_after rows
            → after ≡ connection_after (row ∷ rows) → faithful s rows ≡ true
            → IsLeftSo s rows self.old.dev hearing.now after process leaving.now
            → IsProgressOf s rows self.old → IsProgressOf s (row ∷ rows) self.new }
    {
        kept_is_plain();
        hearings_are_plain();
        self.after_row(process, leaving, hearing, before, after);
    }
}
