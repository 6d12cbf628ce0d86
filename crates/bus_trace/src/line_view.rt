// A running view of the lines.

ghost use Rattle.std.specs.Prelude.{ℕ, true, max, cond, ◌≡◌, ◌<◌, ◌≤◌, List, [], ◌∷◌, slice_index};
ghost use Rattle.bus_trace.specs.LineSet.{LineSet, line_of, data_of};
ghost use Rattle.bus_trace.specs.View.{driven_at, time_of_line, AreBefore, AreTimesBefore, IsUpTo};
ghost use Rattle.bus_trace.specs.Trace.{drives, driven_after, bus, last_time, newer, since, no_times, line_times, times_after_transfer, free_time, phase_time, IsViewOf};
ghost use Rattle.bus_trace.specs.Changes.{same_stage};
ghost use Rattle.bus_trace.specs.Terms.{free_since};
ghost use Rattle.bus_trace.specs.Saved.{view_in};
ghost use Rattle.bus_trace.specs.Phases.{phase_since};

use crate::line_set::Lines;
use crate::line_times::LineTimes;
use crate::rows::Row;
use crate::saved::{SavedView, lines_in, lines_word};
use bus_base::{Dev, Ns};
use std::marker::Model;

/// What each device drives and what is on the bus after the rows of a trace so far, and since when each
/// line has stood as it does.
#[derive(Drop)]
pub struct LineView {
    driven: [Lines; 8],
    present: Lines,
    data_lines: [Ns; 9],
    data_changed: Ns,
    times: LineTimes,
    last: Ns,
}

impl Model for LineView {
    ghost use Rattle.bus_trace.specs.View.{View};

    ghost Value = { View };

    ghost view = { λ a. record {
      driven = a.driven;
      present = a.present;
      data_lines = a.data_lines;
      data_changed = a.data_changed;
      times = a.times;
      last = a.last;
    } };
}

impl LineView {
    /// The view before any row: no device drives anything, and every line has stood since 0.
    pub fn new() -> LineView
        ensures trace { IsViewOf [] result }
        ensures up_to { (time : ℕ) → IsUpTo time result }
        ensures lines { (line : ℕ) → line < 18 → time_of_line result line ≡ 0 }
        ensures data_lines { result.data_changed ≡ 0 }
        ensures last { result.last ≡ 0 }
    {
        LineView {
            driven: [Lines::none(); 8],
            present: Lines::none(),
            data_lines: [0; 9],
            data_changed: 0,
            times: LineTimes::new(),
            last: 0,
        }
    }

    /// The view as plain words.
    pub fn saved(&self) -> SavedView
        ensures { view_in result ≡ self.now }
    {
        SavedView {
            driven: [
                lines_word(self.driven[0]),
                lines_word(self.driven[1]),
                lines_word(self.driven[2]),
                lines_word(self.driven[3]),
                lines_word(self.driven[4]),
                lines_word(self.driven[5]),
                lines_word(self.driven[6]),
                lines_word(self.driven[7]),
            ],
            present: lines_word(self.present),
            data_lines: self.data_lines,
            data_changed: self.data_changed,
            times: self.times,
            last: self.last,
        }
    }

    /// The view that plain words say.
    pub fn restored(saved: &SavedView) -> LineView
        ensures { result ≡ view_in saved.now }
    {
        LineView {
            driven: [
                lines_in(saved.driven[0]),
                lines_in(saved.driven[1]),
                lines_in(saved.driven[2]),
                lines_in(saved.driven[3]),
                lines_in(saved.driven[4]),
                lines_in(saved.driven[5]),
                lines_in(saved.driven[6]),
                lines_in(saved.driven[7]),
            ],
            present: lines_in(saved.present),
            data_lines: saved.data_lines,
            data_changed: saved.data_changed,
            times: saved.times,
            last: saved.last,
        }
    }

    /// What this device drives.
    pub fn drives(&self, dev: Dev) -> Lines
        requires { dev < 8 }
        ensures value { result ≡ driven_at self.now.driven dev }
        ensures trace { (rows : List Row) → IsViewOf rows self.now → result ≡ drives rows dev }
    {
        self.driven[dev as usize]
    }

    /// What is on the bus.
    pub fn bus(&self) -> Lines
        ensures value { result ≡ self.now.present }
        ensures trace { (rows : List Row) → IsViewOf rows self.now → result ≡ bus rows }
    {
        self.present
    }

    /// When the line of this number last changed on the bus, or 0, in nanoseconds.
    pub fn since(&self, line: u8) -> Ns
        requires { line < 18 }
        ensures value { result ≡ time_of_line self.now line }
        ensures trace { (rows : List Row) → IsViewOf rows self.now → result ≡ since (line_of line) rows }
        ensures up_to { (time : ℕ) → IsUpTo time self.now → result ≤ time }
    {
        if line < 9 {
            return self.data_lines[line as usize];
        }
        self.times.by_number(line)
    }

    /// Since when each line but the data lines stands as it does.
    pub fn times(&self) -> LineTimes
        ensures value { result ≡ self.now.times }
        ensures trace { (rows : List Row) → IsViewOf rows self.now → result ≡ line_times rows }
        ensures timely { (end : ℕ) → AreBefore end self.now → AreTimesBefore end result }
    {
        self.times
    }

    /// When DB(7-0) or DB(P) last changed on the bus, or 0.
    pub fn data_since(&self) -> Ns
        ensures value { result ≡ self.now.data_changed }
        ensures trace { (rows : List Row) → IsViewOf rows self.now → result ≡ since data_of rows }
        ensures up_to { (time : ℕ) → IsUpTo time self.now → result ≤ time }
    {
        self.data_changed
    }

    /// The time of the last row, or 0.
    pub fn last_time(&self) -> Ns
        ensures value { result ≡ self.now.last }
        ensures trace { (rows : List Row) → IsViewOf rows self.now → result ≡ last_time rows }
        ensures up_to { (time : ℕ) → IsUpTo time self.now → result ≤ time }
    {
        self.last
    }

    /// Since when BSY, SEL and RST stand as they do: where they are false, the bus is free since then (6.1.1).
    pub fn free_since(&self) -> Ns
        ensures value { result ≡ free_time self.now.times }
        ensures trace { (rows : List Row) → IsViewOf rows self.now → result ≡ free_since rows }
        ensures up_to { (time : ℕ) → IsUpTo time self.now → result ≤ time }
    {
        self.times.free()
    }

    /// When MSG, C/D or I/O last changed: since when the phase stands as it does (6.1.5).
    pub fn phase_since(&self) -> Ns
        ensures value { result ≡ phase_time self.now.times }
        ensures trace { (rows : List Row) → IsViewOf rows self.now → result ≡ phase_since rows }
        ensures up_to { (time : ℕ) → IsUpTo time self.now → result ≤ time }
    {
        self.times.phase()
    }

    /// What is on the bus once this device drives these lines in place of its own.
    #[inline]
    pub fn bus_with(&self, dev: Dev, lines: Lines) -> Lines
        requires { dev < 8 }
        ensures { (rows : List Row) (row : Row) → IsViewOf rows self.now → row.dev ≡ dev
            → lines ≡ driven_after row.kind (drives rows dev) → result ≡ bus (row ∷ rows) }
    {
        // In a copy, so that no line is compared with the device's number.
        let mut driven = self.driven;
        driven[dev as usize] = lines;
        driven[0]
            .with(driven[1])
            .with(driven[2])
            .with(driven[3])
            .with(driven[4])
            .with(driven[5])
            .with(driven[6])
            .with(driven[7])
    }

    /// One more row. Its time may be any, also before that of the last row.
    pub fn step(&mut self, row: &Row)
        requires { row.now.dev < 8 }
        ensures trace { (rows : List Row) → IsViewOf rows self.old → IsViewOf (row.now ∷ rows) self.new }
        // Where no time lay after the row's, none does afterwards.
        ensures up_to { IsUpTo row.now.time self.old → IsUpTo row.now.time self.new }
        ensures lines { (line : ℕ) → line < 18 → time_of_line self.old line ≤ row.now.time
            → time_of_line self.new line ≤ row.now.time }
        ensures data_lines { self.old.data_changed ≤ row.now.time → self.new.data_changed ≤ row.now.time }
        ensures last { self.new.last ≡ row.now.time }
    {
        let driven = row.kind.driven_after(self.drives(row.dev));
        let after = self.bus_with(row.dev, driven);
        self.step_to(row, after);
    }

    /// The same, where it is known what is on the bus after the row.
    pub fn step_to(&mut self, row: &Row, after: Lines)
        requires { row.now.dev < 8 }
        ensures trace { (rows : List Row) → IsViewOf rows self.old → after ≡ bus (row.now ∷ rows)
            → IsViewOf (row.now ∷ rows) self.new }
        ensures up_to { IsUpTo row.now.time self.old → IsUpTo row.now.time self.new }
        ensures lines { (line : ℕ) → line < 18 → time_of_line self.old line ≤ row.now.time
            → time_of_line self.new line ≤ row.now.time }
        ensures data_lines { self.old.data_changed ≤ row.now.time → self.new.data_changed ≤ row.now.time }
        ensures last { self.new.last ≡ row.now.time }
    {
        let driven = row.kind.driven_after(self.drives(row.dev));
        let before = self.present;
        self.driven[row.dev as usize] = driven;
        self.present = after;
        self.data_changed = renewed(before, after, self.data_changed, row.time);
        renew(&mut self.data_lines, before, after, row.time);
        self.times.step(before, after, row.time);
        self.last = row.time;
    }

    /// The same of a row that changes REQ, ACK and data lines alone on the bus, where it is known too what its device
    /// drives from then on.
    #[inline(always)]
    pub fn transfer(&mut self, row: &Row, next: Lines, after: Lines)
        requires { row.now.dev < 8 }
        ensures trace { (rows : List Row) → IsViewOf rows self.old → same_stage self.old.present after ≡ true
            → next ≡ driven_after row.now.kind (drives rows row.now.dev) → after ≡ bus (row.now ∷ rows)
            → IsViewOf (row.now ∷ rows) self.new }
        ensures present { self.new.present ≡ after }
        ensures times { self.new.times
            ≡ times_after_transfer self.old.times self.old.present after row.now.time }
    {
        let before = self.present;
        self.driven[row.dev as usize] = next;
        self.present = after;
        self.data_changed = renewed(before, after, self.data_changed, row.time);
        renew(&mut self.data_lines, before, after, row.time);
        self.times.transfer(before, after, row.time);
        self.last = row.time;
    }
}

fn newest(differs: bool, time: Ns, was: Ns) -> Ns
    ensures { result ≡ cond differs time was }
{
    if differs { time } else { was }
}

// Sets the time of each data line that differs. Most rows change none.
fn renew(data_lines: &mut [Ns; 9], before: Lines, after: Lines, time: Ns)
    ensures { (line : ℕ) → line < 9
        → slice_index data_lines.new line ≡ newer (line_of line) before after (slice_index data_lines.old line) time }
{
    if before.data_bits() != after.data_bits() {
        renew_data_lines(data_lines, before, after, time);
    }
}

// The same, one by one.
fn renew_data_lines(data_lines: &mut [Ns; 9], before: Lines, after: Lines, time: Ns)
    ensures { (line : ℕ) → line < 9
        → slice_index data_lines.new line ≡ newer (line_of line) before after (slice_index data_lines.old line) time }
{
    for k in 0..9 {
        // A choice without a branch: the data lines change at random.
        data_lines[k as usize] = newest(before.differs(after, k), time, data_lines[k as usize]);
    }
}

// When a data line last changed.
fn renewed(before: Lines, after: Lines, was: Ns, time: Ns) -> Ns
    ensures { result ≡ newer data_of before after was time }
{
    if before.data_bits() == after.data_bits() {
        was
    } else {
        time
    }
}
