//! The run of a scenario.
ghost use Rattle.std.specs.Prelude.{ℕ, ◌≡◌, ◌≤◌, ◌+◌, [], true, List, IfOk, map, length, reverse};
ghost use Rattle.std.specs.List.{AllByRecursion};
ghost use Rattle.bus_trace.specs.declared.Row.{Row as TraceRow};
ghost use Rattle.bus_trace.specs.Trace.{last_time};
ghost use Rattle.scenario.specs.Value.{ScenarioValue};
ghost use Rattle.scenario.specs.Writing.{Obeys};
ghost use Rattle.array_model.specs.ArrayHistory.{array_after, disks_of, tapes_of};
ghost use Rattle.array_model.specs.SoundArray.{HasSeats};
ghost use Rattle.due_model.specs.story_model.specs.Budget.{budget};
ghost use Rattle.due_model.specs.story_model.specs.Outcomes.{outcomes};
ghost use Rattle.due_model.specs.story_model.specs.TraceHistory.{trace_history};
ghost use Rattle.due_model.specs.Allowed.{allowed};
ghost use Rattle.due_model.specs.Plain.{IsPlain};
ghost use Rattle.due_model.specs.RunSteps.{run_state};
ghost use Rattle.delivery_laws.specs.scsi_device.specs.Lines.{FitsBus};
ghost use Rattle.run_record.specs.Value.{held_by, reeled_by};
ghost use Rattle.bus_run.specs.Places.{AreIn};
ghost use Rattle.bus_engine.specs.Answers.{are_answered};
ghost use Rattle.bus_engine.specs.Members.{IsMember};
ghost use Rattle.bus_engine.specs.Over.{AreOver};
ghost use Rattle.bus_engine.specs.Disks.{IsWithin, IsTapeWithin, have_targets};
ghost use Rattle.bus_engine.specs.Runs.{told_reply, IsRunOf};

use crate::finishing::{Media, media_by_line, replies, units_by_target};
use crate::laws::prompt_traces_tie_devices;
use crate::member::{Member, runs_end};
use crate::places::member_places;
use array_model::arrays_are_sound;
use bus_base::{NoMemory, Steps};
use bus_run::{Trace, rows_tie_devices};
use delivery_laws::the_book_laws::failures_have_strikes;
use delivery_laws::the_right_laws::prompt_traces_are_right;
use delivery_laws::the_trace_laws::limits_are_kept;
use delivery_laws::{
    arrivals_are_by_room, ended_traces_are_right, invalid_commands_are_checked, openings_are_said,
    outcomes_are_exact, outcomes_have_causes, recoveries_are_due, replies_last,
    resets_are_by_lines, senseless_checks_were_stopped, senses_are_their_own,
    valid_commands_are_delivered,
};
use disk_target::the_scsi_device::scenarios_fit_the_bus;
use disk_target::the_target_units::units_hold_their_blocks;
use due_model::{kept_is_plain, wants_are_items};
use initiator::endings_have_causes;
use measure_laws::runs_stay_within_budget;
use run_record::Run;
use scenario::{Scenario, TapeDef, UnitDef};
use std::alloc::Global;
use std::sync::ledger::Ledger;
use transcript_laws::transcripts_follow_prompt_traces;

// What the units of these targets hold, in the order of their lines.
fn media_in(
    alloc: Global,
    units: &[UnitDef],
    lines: &[TapeDef],
    places: &mut [Option<Member>],
) -> Result<Media, NoMemory>
    requires lines { AllByRecursion IsWithin units.now }
    requires tape_lines { AllByRecursion IsTapeWithin lines.now }
    requires eight { length places.old ≡ 8 }
    ensures count { IfOk result (λ media. length media.disks.items ≡ length units.now) }
    ensures tape_count { IfOk result (λ media. length media.tapes.items ≡ length lines.now) }
    ensures held { (s : ScenarioValue) (rows : List TraceRow) (first : ℕ) → FitsBus s → units.now ≡ s.units
        → lines.now ≡ s.tapes → HasSeats s → IsPlain s rows (run_state s rows) → allowed s rows ≡ true
        → have_targets s ≡ true → AreOver s rows first places.old
        → IfOk result (λ media. (map held_by media.disks.items ≡ disks_of (array_after s (trace_history s rows)))
        × (map reeled_by media.tapes.items ≡ tapes_of (array_after s (trace_history s rows)))) }
{
    arrays_are_sound();
    units_hold_their_blocks();
    let mut of_target = units_by_target(alloc, places)?;
    media_by_line(alloc, units, lines, of_target.as_mut_slice())
}

// What these devices leave, which were told of these rows.
fn finish(
    alloc: Global,
    scenario: &Scenario,
    places: &mut [Option<Member>],
    trace: Trace,
) -> Result<Run, NoMemory>
    requires lawful { Obeys scenario.now }
    requires eight { length places.old ≡ 8 }
    ensures rows { IfOk result (λ run. run.rows ≡ trace.rows) }
    ensures history { IfOk result (λ run. run.history ≡ trace.history.items) }
    ensures end { IfOk result (λ run. run.end ≡ last_time (reverse trace.rows)) }
    ensures answered { IfOk result (λ run. length run.replies ≡ length scenario.now.commands) }
    ensures stored { IfOk result (λ run. length run.disks ≡ length scenario.now.units) }
    ensures reeled { IfOk result (λ run. length run.tapes ≡ length scenario.now.tapes) }
    ensures replies { (rows : List TraceRow) → AreIn IsMember scenario.now rows places.old
        → are_answered scenario.now rows ≡ true
        → IfOk result (λ run. map told_reply run.replies
        ≡ outcomes scenario.now (run_state scenario.now rows).story) }
    ensures disks { (rows : List TraceRow) → IsPlain scenario.now rows (run_state scenario.now rows)
        → allowed scenario.now rows ≡ true
        → AreIn IsMember scenario.now rows places.old
        → IfOk result (λ run. run.disks ≡ disks_of (array_after scenario.now (trace_history scenario.now rows))) }
    ensures tapes { (rows : List TraceRow) → IsPlain scenario.now rows (run_state scenario.now rows)
        → allowed scenario.now rows ≡ true
        → AreIn IsMember scenario.now rows places.old
        → IfOk result (λ run. run.tapes ≡ tapes_of (array_after scenario.now (trace_history scenario.now rows))) }
{
    scenarios_fit_the_bus();
    runs_end();
    let replies = replies(alloc, scenario.commands.as_slice(), places)?;
    let media = media_in(
        alloc,
        scenario.units.as_slice(),
        scenario.tapes.as_slice(),
        places,
    )?;
    let end = trace.rows.last_time();
    Ok(Run {
        rows: trace.rows,
        end,
        history: trace.history,
        replies,
        disks: media.disks,
        tapes: media.tapes,
    })
}

// The run of a scenario by its devices, each in the place of its ID.
fn run_in<L: Ledger>(
    alloc: Global,
    scenario: &Scenario,
    places: &mut [Option<Member>],
    steps: &mut Steps<L>,
) -> Result<Run, NoMemory>
    requires lawful { Obeys scenario.now }
    requires eight { length places.old ≡ 8 }
    ensures exact { AreIn IsMember scenario.now [] places.old → IfOk result (λ run. IsRunOf scenario.now run) }
    ensures steps { AreIn IsMember scenario.now [] places.old → steps.new ≤ steps.old + budget scenario.now }
{
    rows_tie_devices();
    prompt_traces_tie_devices();
    runs_stay_within_budget();
    kept_is_plain();
    ended_traces_are_right();
    prompt_traces_are_right();
    transcripts_follow_prompt_traces();
    wants_are_items();
    endings_have_causes();
    valid_commands_are_delivered();
    outcomes_have_causes();
    senseless_checks_were_stopped();
    invalid_commands_are_checked();
    failures_have_strikes();
    limits_are_kept();
    senses_are_their_own();
    replies_last();
    resets_are_by_lines();
    outcomes_are_exact();
    arrivals_are_by_room();
    recoveries_are_due();
    openings_are_said();
    let trace = bus_run::run(alloc, scenario, places, steps)?;
    Ok(finish(alloc, scenario, places, trace)?)
}

/// Runs a scenario from time 0 until nothing is due. Each time that a device is asked is a step, and of steps there are
/// at most as many as its budget has.
///
/// # Errors
///
/// Only where memory ran out.
///
/// # Examples
///
/// With `read` of `scenario`; `L` is the ledger of `blank`, as [`Steps::new`] asks:
///
/// ```rust
/// let text = "scsi 1\n\
///     initiator 7 latency 0 open 1 retries 2 sync 0 0 lag 0\n\
///     target 0 latency 0 retries 2 disc never pick first seek 0 sync 0 0\n\
///     unit 0 0 blocks 1 size 16 depth 1\n\
///     fill 0 0 0 000102030405060708090a0b0c0d0e0f\n\
///     cmd 7 0 0 at 0 untagged cdb 080000000100 none\n\
///     end\n";
/// let Ok(scenario) = read(alloc, text.as_bytes()) else {
///     panic!(rt; "it is a scenario");
/// };
/// let mut steps = Steps::<L>::new(blank);
/// let run = bus_engine::run(alloc, &scenario, &mut steps)?;
/// assert!(rt; run.rows.len() == 120);
/// assert!(rt; run.end == 9080);
/// ```
pub fn run<L: Ledger>(
    alloc: Global,
    scenario: &Scenario,
    steps: &mut Steps<L>,
) -> Result<Run, NoMemory>
    requires { Obeys scenario.now }
    ensures exact { IfOk result (λ run. IsRunOf scenario.now run) }
    ensures steps { steps.new ≤ steps.old + budget scenario.now }
{
    let mut places = member_places(alloc, scenario)?;
    run_in(alloc, scenario, places.as_mut_slice(), steps)
}
