//! The data runs of a process: in how many goes, and which bytes in each, its data are moved (ANSI X3.131-1994, 6.6.6,
//! 6.6.20). A place among bytes that is past the last u64 counts as that one; no data reach so far.
ghost use Rattle.std.specs.Prelude.{ℕ, ◌≡◌, ◌+◌, ◌*◌, ◌<◌, ◌^◌, min, ◌-◌, ◌==◌, ◌&&◌, if◌then◌else◌, length, slice_index_or, nat_lt, List};
ghost use Rattle.due_model.specs.dialogue_model.specs.DataRuns.{runs_in, runs_in_all, run_at, run_length, run_byte};
ghost use Rattle.due_model.specs.dialogue_model.specs.PhaseBytes.{run_length_if, data_byte, one_if};
ghost use Rattle.due_model.specs.story_model.specs.Budget.{runs_by};
ghost use Rattle.target_course.specs.Servings.{byte_if};
ghost use Rattle.scenario.specs.declared.value.Policy.TheVariants.{Burst};

use due_model::the_dialogue_model::Task;
use scenario::Policy;

fn burst_count(most: u32, blocks: u32) -> u64
    ensures { result ≡ runs_by (Burst most) blocks }
{
    if most == 0 {
        return 0;
    }
    (u64::from(blocks) + (u64::from(most) - 1)) / u64::from(most)
}

fn runs_by(policy: Policy, blocks: u32) -> u64
    ensures { result ≡ runs_by policy blocks }
{
    match policy {
        Policy::Never | Policy::Command => 1,
        Policy::Burst(most) => burst_count(most, blocks),
        Policy::NoSave(most) => { if blocks <= most { 1 } else { 2 } }
    }
}

/// How many runs a process has that moves data: by the policy of its target, where it reads or writes so many blocks.
pub fn runs_in(policy: Policy, blocks: Option<u32>) -> u64
    ensures { result ≡ runs_in policy blocks }
{
    match blocks {
        None => 1,
        Some(blocks) => runs_by(policy, blocks),
    }
}

/// How many runs the process has.
pub fn runs_in_all(policy: Policy, task: &Task) -> u64
    ensures { result ≡ runs_in_all policy task.now }
{
    if task.moved == 0 {
        0
    } else {
        runs_in(policy, task.blocks)
    }
}

/// Whether a run follows the present one.
pub fn has_further_run(policy: Policy, task: &Task) -> bool
    ensures { result ≡ nat_lt (task.now.runs + 1) (runs_in_all policy task.now) }
{
    let all = runs_in_all(policy, task);
    all > 0 && task.runs < all - 1
}

// So many blocks of so many bytes.
fn step_of(most: u32, size: u64) -> u64
    ensures { result ≡ min (most * size) (2 ^ 64 - 1) }
{
    u64::from(most).saturating_mul(size)
}

fn burst_start(most: u32, size: u64, n: u64) -> u64
    ensures { result ≡ min (n * (most * size)) (2 ^ 64 - 1) }
{
    n.saturating_mul(step_of(most, size))
}

fn burst_end(most: u32, size: u64, moved: u64, n: u64) -> u64
    ensures { result ≡ min (n * (most * size) + most * size) moved }
{
    burst_start(most, size, n)
        .saturating_add(step_of(most, size))
        .min(moved)
}

fn part_end(most: u32, size: u64, moved: u64, n: u64) -> u64
    ensures { result ≡ (if n == 0 && nat_lt (most * size) moved then most * size else moved) }
{
    let step = step_of(most, size);
    if n == 0 && step < moved { step } else { moved }
}

/// Where the n-th run begins, in bytes.
pub fn run_start(policy: Policy, task: &Task, n: u64) -> u64
    ensures { result ≡ min (run_at policy task.now n).start (2 ^ 64 - 1) }
{
    match (task.blocks, policy) {
        (Some(_), Policy::Burst(most)) => burst_start(most, task.size, n),
        _ => 0,
    }
}

// Where it ends.
fn run_end(policy: Policy, task: &Task, n: u64) -> u64
    ensures { result ≡ (run_at policy task.now n).end }
{
    match (task.blocks, policy) {
        (Some(_), Policy::Burst(most)) => burst_end(most, task.size, task.moved, n),
        (Some(_), Policy::NoSave(most)) => part_end(most, task.size, task.moved, n),
        _ => task.moved,
    }
}

/// How many bytes the present run has.
pub fn run_length(policy: Policy, task: &Task) -> u64
    ensures { result ≡ run_length policy task.now }
{
    run_end(policy, task, task.runs).saturating_sub(run_start(policy, task, task.runs))
}

/// How many bytes the present run has; none where no process is served.
pub fn run_length_if(policy: Policy, task: &Option<Task>) -> u64
    ensures { result ≡ run_length_if policy task.now }
{
    match task {
        None => 0,
        Some(task) => run_length(policy, task),
    }
}

fn one_if(done: bool) -> u64
    ensures { result ≡ one_if done }
{
    if done { 1 } else { 0 }
}

fn run_byte_place(policy: Policy, task: &Task, done: bool, place: u64) -> u64
    ensures { (given : List ℕ) → length given < 2 ^ 64
        → slice_index_or given result 0 ≡ run_byte policy task.now given (task.now.runs + one_if done) place }
{
    let run = task.runs.saturating_add(one_if(done));
    run_start(policy, task, run).saturating_add(place)
}

/// At which place among the bytes that the process gives stands this byte, counted from 0, of its present run, or with
/// `done` of the run after that; none where no process is served.
pub fn process_byte_place(
    policy: Policy,
    task: &Option<Task>,
    done: bool,
    place: u64,
) -> Option<u64>
    ensures { (given : List ℕ) → length given < 2 ^ 64
        → byte_if given result ≡ data_byte policy task.now given (one_if done) place }
{
    match task {
        None => None,
        Some(task) => Some(run_byte_place(policy, task, done, place)),
    }
}
