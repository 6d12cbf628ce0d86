//! The words of a view of the lines, row by row.
ghost use Rattle.std.specs.Prelude.{ℕ, true, cond, ◌≡◌, ◌<◌, ◌∷◌, List, slice_index};
ghost use Rattle.bus_trace.specs.declared.Row.{Row};
ghost use Rattle.bus_trace.specs.LineSet.{line_of, data_of};
ghost use Rattle.bus_trace.specs.Changes.{same_stage};
ghost use Rattle.bus_trace.specs.Saved.{lines_in, view_in};
ghost use Rattle.bus_trace.specs.Trace.{IsViewOf, bus, drives, driven_after, newer, times_after_transfer};

use bus_base::{Dev, Ns};
use bus_trace::{LineTimes, LineView, Lines, Row, SavedView, lines_in, lines_word};

fn newest(differs: bool, time: Ns, was: Ns) -> Ns
    ensures { result ≡ cond differs time was }
{
    if differs { time } else { was }
}

// Sets the time of each data line that differs.
fn renew_data_lines(data_lines: &mut [Ns; 9], before: Lines, after: Lines, time: Ns)
    ensures { (line : ℕ) → line < 9
        → slice_index data_lines.new line ≡ newer (line_of line) before after (slice_index data_lines.old line) time }
{
    for k in 0..9 {
        // A choice without a branch: the data lines change at random.
        data_lines[k as usize] = newest(before.differs(after, k), time, data_lines[k as usize]);
    }
}

// The same where any differs, and since when they all stand so. Most rows change none.
#[inline(always)]
fn renew(data_lines: &mut [Ns; 9], data_changed: &mut Ns, before: Lines, after: Lines, time: Ns)
    ensures lines { (line : ℕ) → line < 9
        → slice_index data_lines.new line ≡ newer (line_of line) before after (slice_index data_lines.old line) time }
    ensures changed { data_changed.new ≡ newer data_of before after data_changed.old time }
{
    if before.data_bits() != after.data_bits() {
        *data_changed = time;
        renew_data_lines(data_lines, before, after, time);
    }
}

/// What is on the bus once this device drives these lines in place of its own.
#[inline(always)]
pub fn bus_with(view: &SavedView, dev: Dev, lines: Lines) -> Lines
    requires { dev < 8 }
    ensures { (rows : List Row) (row : Row) → IsViewOf rows (view_in view.now) → row.dev ≡ dev
        → lines ≡ driven_after row.kind (drives rows dev) → result ≡ bus (row ∷ rows) }
{
    LineView::restored(view).bus_with(dev, lines)
}

/// One row more, where it is known what its device drives from then on, and what is on the bus.
#[inline(always)]
pub fn step_lines(view: &mut SavedView, row: &Row, next: Lines, after: Lines)
    requires { row.now.dev < 8 }
    ensures { (rows : List Row) → IsViewOf rows (view_in view.old)
        → next ≡ driven_after row.now.kind (drives rows row.now.dev) → after ≡ bus (row.now ∷ rows)
        → IsViewOf (row.now ∷ rows) (view_in view.new) }
{
    let before = lines_in(view.present);
    view.driven[row.dev as usize] = lines_word(next);
    view.present = lines_word(after);
    renew(
        &mut view.data_lines,
        &mut view.data_changed,
        before,
        after,
        row.time,
    );
    view.times.step(before, after, row.time);
    view.last = row.time;
}

// Since when REQ and ACK stand so. Each row changes one of them at most.
#[inline(always)]
fn transfer_times(times: &mut LineTimes, before: Lines, after: Lines, time: Ns)
    ensures { times.new ≡ times_after_transfer times.old before after time }
{
    if before.req() != after.req() {
        times.req = time;
    }
    if before.ack() != after.ack() {
        times.ack = time;
    }
}

/// The same of a row that changes REQ, ACK and data lines alone on the bus.
#[inline(always)]
pub fn transfer_lines(view: &mut SavedView, row: &Row, next: Lines, after: Lines)
    requires { row.now.dev < 8 }
    ensures { (rows : List Row) → IsViewOf rows (view_in view.old) → same_stage (lines_in view.old.present) after ≡ true
        → next ≡ driven_after row.now.kind (drives rows row.now.dev) → after ≡ bus (row.now ∷ rows)
        → IsViewOf (row.now ∷ rows) (view_in view.new) }
{
    let before = lines_in(view.present);
    view.driven[row.dev as usize] = lines_word(next);
    view.present = lines_word(after);
    renew(
        &mut view.data_lines,
        &mut view.data_changed,
        before,
        after,
        row.time,
    );
    transfer_times(&mut view.times, before, after, row.time);
    view.last = row.time;
}
