//! A judge in memory of the caller.
ghost use Rattle.std.specs.Prelude.{true, false, ◌≡◌, ◌≢◌, ◌<◌, ◌+◌, ◌^◌, ◌∷◌, None, [], List, length};
ghost use Rattle.std.specs.List.{position};
ghost use Rattle.bus_trace.specs.declared.Row.{Row};
ghost use Rattle.bus_rules.specs.Rules.{judged, judged_whole};
ghost use Rattle.trace_checker.specs.Judging.{IsJudgeOf};
ghost use Rattle.trace_checker.specs.Saved.{judge_in};
ghost use Rattle.scsibus_c.specs.Rows.{is_off, row_of, rows_after, told, answer, off_at};
ghost use Rattle.scsibus_c.specs.States.{IsStateOf, IsForeign, taken, foreign};
ghost use Rattle.scsibus_c.specs.declared.judge.TheConstants.{FORM, SIZE, VERSION};

use crate::rows::{ScsibusRow, ScsibusVerdict, first_off, is_row, row_of, told};
use trace_checker::{Judge, SavedJudge};

/// What a judge in memory of the caller begins with: the letters "scsibus" and the number of this form, so that other
/// memory is not taken for a judge.
const FORM: u64 = 0x7363_7369_6275_7301;

/// A judge, in memory of the caller: plain words, which it may copy, write to a file and read back.
#[repr(C)]
#[derive(Clone, Copy)]
pub struct ScsibusJudge {
    /// The form of the words.
    pub form: u64,
    /// The judge.
    pub judge: SavedJudge,
}

/// How many bytes a judge has.
const SIZE: usize = size_of::<ScsibusJudge>();

// So many rows of a call at most are taken in the words of the judge. For more it is worth to read the words into its
// own form and to write them back.
const FEW: usize = 64;

/// The version of what C sees of this library.
const VERSION: u64 = 1;

// The place of a row that is out of range, from 0, as a verdict.
fn off_at(at: usize) -> ScsibusVerdict
    requires { at < 2 ^ 63 }
    ensures { result ≡ off_at at }
{
    ScsibusVerdict {
        row: at as u64 + 1,
        rule: 255,
    }
}

// The memory holds no judge.
fn foreign() -> ScsibusVerdict
    ensures { result ≡ foreign }
{
    ScsibusVerdict { row: 0, rule: 254 }
}

// The judge takes these rows.
fn take(judge: &mut Judge, rows: &[ScsibusRow])
    requires { position is_off rows.now ≡ None }
    ensures { (past : List Row) → IsJudgeOf past judge.old → length past + length rows.now < 2 ^ 63
        → IsJudgeOf (rows_after past rows.now) judge.new }
{
    for row in rows {
        let _ = judge.feed(&row_of(row));
    }
}

// A judge in words takes this row there, where it passes the short test, as most rows of a long trace do; and whether
// it does.
#[inline(always)]
fn pass(judge: &mut SavedJudge, row: &ScsibusRow) -> bool
    requires { row.now.dev < 8 }
    ensures kept { (past : List Row) → IsJudgeOf past (judge_in judge.old) → length past < 2 ^ 63 → result ≡ true
        → IsJudgeOf (row_of row.now ∷ past) (judge_in judge.new) }
    ensures other { result ≡ false → judge.new ≡ judge.old }
{
    row.kind == 0 && judge.pass(&row_of(row))
}

// It takes this row by the rules. A function of its own, so that no row that passes has to be kept for it.
#[inline(never)]
fn take_by_rules(judge: &mut SavedJudge, row: &ScsibusRow)
    requires { row.now.dev < 8 }
    ensures { (past : List Row) → IsJudgeOf past (judge_in judge.old) → length past < 2 ^ 63
        → IsJudgeOf (row_of row.now ∷ past) (judge_in judge.new) }
{
    judge.feed(&row_of(row));
}

// It takes this row.
#[inline(always)]
fn take_one(judge: &mut SavedJudge, row: &ScsibusRow)
    requires { row.now.dev < 8 }
    ensures { (past : List Row) → IsJudgeOf past (judge_in judge.old) → length past < 2 ^ 63
        → IsJudgeOf (row_of row.now ∷ past) (judge_in judge.new) }
{
    if pass(judge, row) {
        return;
    }
    take_by_rules(judge, row);
}

// It takes these rows.
#[inline(never)]
fn take_few(judge: &mut SavedJudge, rows: &[ScsibusRow])
    requires { position is_off rows.now ≡ None }
    ensures { (past : List Row) → IsJudgeOf past (judge_in judge.old) → length past + length rows.now < 2 ^ 63
        → IsJudgeOf (rows_after past rows.now) (judge_in judge.new) }
{
    for row in rows {
        take_one(judge, row);
    }
}

// The same in the judge's own form.
#[inline(never)]
fn take_many(judge: &mut SavedJudge, rows: &[ScsibusRow])
    requires { position is_off rows.now ≡ None }
    ensures { (past : List Row) → IsJudgeOf past (judge_in judge.old) → length past + length rows.now < 2 ^ 63
        → IsJudgeOf (rows_after past rows.now) (judge_in judge.new) }
{
    let mut own = Judge::restored(judge);
    take(&mut own, rows);
    *judge = own.saved();
}

// A judge in words takes these rows.
fn take_in_words(judge: &mut SavedJudge, rows: &[ScsibusRow])
    requires { position is_off rows.now ≡ None }
    ensures { (past : List Row) → IsJudgeOf past (judge_in judge.old) → length past + length rows.now < 2 ^ 63
        → IsJudgeOf (rows_after past rows.now) (judge_in judge.new) }
{
    if let [row] = rows {
        // One row alone that comes here did not pass.
        take_by_rules(judge, row);
    } else if rows.len() <= FEW {
        take_few(judge, rows);
    } else {
        take_many(judge, rows);
    }
}

// The verdict on these rows and an end.
fn whole(rows: &[ScsibusRow], end: u64) -> ScsibusVerdict
    requires in_range { position is_off rows.now ≡ None }
    requires few { length rows.now < 2 ^ 63 }
    ensures { result ≡ told (judged_whole (rows_after [] rows.now) end) }
{
    let mut judge = Judge::new();
    take(&mut judge, rows);
    told(judge.finish(end))
}

/// The verdict on the trace of these rows that ends at `end`, in ns.
#[unsafe(no_mangle)]
pub extern "C" fn scsibus_judge_trace(rows: &[ScsibusRow], end: u64, verdict: &mut ScsibusVerdict)
    ensures { verdict.new ≡ answer (position is_off rows.now) (judged_whole (rows_after [] rows.now) end) }
{
    *verdict = match first_off(rows) {
        Some(at) => off_at(at),
        None => whole(rows, end),
    };
}

/// Makes a judge that has seen no row.
#[unsafe(no_mangle)]
pub extern "C" fn scsibus_judge_start(state: &mut ScsibusJudge)
    ensures { IsStateOf [] state.new }
{
    *state = ScsibusJudge {
        form: FORM,
        judge: Judge::new().saved(),
    };
}

// One row a call is the usual: whether there is one alone, in range, that passes the short test. Then it is taken.
#[inline(always)]
fn pass_alone(state: &mut ScsibusJudge, rows: &[ScsibusRow]) -> bool
    ensures form { result ≡ true → state.old.form ≡ FORM }
    ensures in_range { result ≡ true → position is_off rows.now ≡ None }
    ensures kept { (past : List Row) → IsStateOf past state.old → length past + length rows.now < 2 ^ 63 → result ≡ true
        → IsStateOf (rows_after past rows.now) state.new }
    ensures other { result ≡ false → state.new ≡ state.old }
{
    if let [row] = rows {
        return state.form == FORM && is_row(row) && pass(&mut state.judge, row);
    }
    false
}

// The judge takes these rows, however many and of whatever kind.
#[inline(never)]
fn feed_any(state: &mut ScsibusJudge, rows: &[ScsibusRow], verdict: &mut ScsibusVerdict)
    ensures kept { (past : List Row) → IsStateOf past state.old → length past + length rows.now < 2 ^ 63
        → IsStateOf (taken (position is_off rows.now) past rows.now) state.new }
    ensures verdict { (past : List Row) → IsStateOf past state.old → length past + length rows.now < 2 ^ 63
        → verdict.new ≡ answer (position is_off rows.now) (judged (rows_after past rows.now)) }
    ensures foreign { IsForeign state.old → (state.new ≡ state.old) × (verdict.new ≡ foreign) }
{
    if state.form != FORM {
        *verdict = foreign();
        return;
    }
    match first_off(rows) {
        Some(at) => *verdict = off_at(at),
        None => {
            take_in_words(&mut state.judge, rows);
            *verdict = told(state.judge.verdict());
        }
    }
}

/// The judge takes these rows: the verdict on all rows so far. Where one of them is out of range it takes none.
#[unsafe(no_mangle)]
pub extern "C" fn scsibus_judge_feed(
    state: &mut ScsibusJudge,
    rows: &[ScsibusRow],
    verdict: &mut ScsibusVerdict,
)
    ensures kept { (past : List Row) → IsStateOf past state.old → length past + length rows.now < 2 ^ 63
        → IsStateOf (taken (position is_off rows.now) past rows.now) state.new }
    ensures verdict { (past : List Row) → IsStateOf past state.old → length past + length rows.now < 2 ^ 63
        → verdict.new ≡ answer (position is_off rows.now) (judged (rows_after past rows.now)) }
    ensures foreign { IsForeign state.old → (state.new ≡ state.old) × (verdict.new ≡ foreign) }
{
    if pass_alone(state, rows) {
        *verdict = told(state.judge.verdict());
    } else {
        feed_any(state, rows, verdict);
    }
}

/// The verdict that these rows would get as the next ones. The judge takes none.
#[unsafe(no_mangle)]
pub extern "C" fn scsibus_judge_try(
    state: &ScsibusJudge,
    rows: &[ScsibusRow],
    verdict: &mut ScsibusVerdict,
)
    ensures verdict { (past : List Row) → IsStateOf past state.now → length past + length rows.now < 2 ^ 63
        → verdict.new ≡ answer (position is_off rows.now) (judged (rows_after past rows.now)) }
    ensures foreign { IsForeign state.now → verdict.new ≡ foreign }
{
    let mut copy = *state;
    scsibus_judge_feed(&mut copy, rows, verdict);
}

/// The verdict on the trace of the rows so far that ends at `end`, in ns. The judge may take further rows afterwards.
#[unsafe(no_mangle)]
pub extern "C" fn scsibus_judge_finish(state: &ScsibusJudge, end: u64, verdict: &mut ScsibusVerdict)
    ensures verdict { (past : List Row) → IsStateOf past state.now → length past < 2 ^ 63
        → verdict.new ≡ told (judged_whole past end) }
    ensures foreign { IsForeign state.now → verdict.new ≡ foreign }
{
    *verdict = if state.form == FORM {
        told(Judge::restored(&state.judge).finish(end))
    } else {
        foreign()
    };
}

/// How many bytes a judge has, so that a caller can compare.
#[unsafe(no_mangle)]
pub extern "C" fn scsibus_judge_size() -> u64
    ensures { result ≡ SIZE }
{
    SIZE as u64
}

/// The version of what C sees of this library.
#[unsafe(no_mangle)]
pub extern "C" fn scsibus_version() -> u64
    ensures { result ≡ VERSION }
{
    VERSION
}
