//! The transcript of a trace, row by row.
ghost use Rattle.std.specs.Prelude.{◌≡◌, ◌<◌, [], ◌∷◌, Some, true, false, reverse, OnOk, IfOk, option_to_list};
ghost use Rattle.std.specs.List.{AllByRecursion};
ghost use Rattle.story_model.specs.TraceHistory.{trace_history};
ghost use Rattle.bus_transcript.specs.Events.{resets_shown, resets_told};
ghost use Rattle.bus_transcript.specs.Opened.{opened_connection, settled, spoken};
ghost use Rattle.bus_transcript.specs.Rows.{nothing_seen, with_items, name_of, account_from, account_parts, abort_item, departed, departed_if, with_account, closed_by, closed_parts, closed_with, closed_phase, closed_if, reset_items, free_items, under_reset, unanswered_by, unanswered_items, on_free_bus, in_connection, on_bus, by_change, with_bus, after_reading, after_row, finished_if, finished, transcript_of};
ghost use Rattle.bus_trace.specs.OfTrace.{IsOfDevice};

use crate::account::Account;
use crate::bus::{Bus, Reading};
use crate::item::{Item, Name, Transcript};
use crate::opened::Opened;
use crate::part::Part;
use crate::process::{Process, Processes, process_after};
use crate::summary::{Departure, Summary, kind_of, summary_of};
use bus_base::{NoMemory, Ns};
use bus_trace::{Call, Calling, Change, Connection, Kind, Row, ScsiId, falls, rises};
use msg_grammar::MsgOut;
use row_store::RowStore;
use run_record::Run;
use scenario::Scenario;
use std::alloc::{AllocError, Global};
use std::collections::VecDeque;
use std::marker::Model;

/// The transcript of the rows of a trace so far.
#[derive(Drop)]
pub struct Transcriber {
    alloc: Global,
    bus: Bus,
    opened: Option<Opened>,
    processes: Processes,
    items: Vec<Item>,
}

impl Model for Transcriber {
    ghost use Rattle.bus_transcript.specs.Rows.{TranscriberValue};

    ghost Value = { TranscriberValue };

    ghost view = { λ a. record {
      bus_state = a.bus;
      opened = a.opened;
      processes = a.processes;
      items = a.items.items;
    } };
}

fn name_of(connection: &Connection, summary: &Summary) -> Name
    ensures { result ≡ name_of connection.now summary.now }
{
    Name {
        initiator: connection.initiator.get(),
        target: connection.target.get(),
        unit: summary.unit,
        tag: summary.tag,
        number: 0,
    }
}

fn abort_of(name: Name, message: MsgOut) -> Item
    ensures { result ≡ abort_item name message }
{
    let kind = kind_of(message, name.tag);
    Item::Abort(name.initiator, name.target, name.unit, kind)
}

// The account of a connection of this process, after these items, before any part.
fn account_from(
    alloc: Global,
    connection: &Connection,
    process: Process,
    items: Vec<Item>,
) -> Result<Account, AllocError>
    ensures { IfOk result (λ a. a ≡ account_from connection.now process items.items) }
{
    let mut account = Account::new(alloc, process, items);
    account.add(Item::Connect {
        at: connection.began,
        name: process.name,
        again: connection.reselected,
    })?;
    Ok(account)
}

// The account of all parts of it.
fn account_parts(
    alloc: Global,
    connection: &Connection,
    process: Process,
    parts: VecDeque<Part>,
    items: Vec<Item>,
) -> Result<Account, AllocError>
    ensures { IfOk result (λ a. a ≡ account_parts connection.now process parts.items items.items) }
{
    let mut account = account_from(alloc, connection, process, items)?;
    account.take_all(parts)?;
    Ok(account)
}

// What BUS FREE shows of the process.
fn depart(account: &mut Account, summary: &Summary) -> Result<(), AllocError>
    ensures { OnOk result (account.new ≡ departed account.old summary.now.departure summary.now.abort) }
{
    let name = account.name();
    match summary.departure {
        Departure::Loss => account.add(Item::Lost(name)),
        Departure::Leave => Ok(()),
        Departure::Abortion => match summary.abort {
            None => Ok(()),
            Some(message) => account.add(abort_of(name, message)),
        },
    }
}

fn depart_if(free: bool, account: &mut Account, summary: &Summary) -> Result<(), AllocError>
    ensures { OnOk result (account.new ≡ departed_if free account.old summary.now) }
{
    if free {
        depart(account, summary)
    } else {
        Ok(())
    }
}

fn unanswered_by(caller: ScsiId, calling: Calling, time: Ns) -> Option<Item>
    ensures { option_to_list result ≡ unanswered_by caller (Some calling) time }
{
    if calling.answered.is_some() {
        return None;
    }
    Some(Item::Unanswered {
        at: time,
        caller: caller.get(),
        called: calling.called.get(),
    })
}

// The caller has released all lines, and no answer had come.
fn unanswered(call: Option<Call>, time: Ns) -> Option<Item>
    ensures { option_to_list result ≡ unanswered_items call time }
{
    let call = call?;
    unanswered_by(call.caller, call.calling?, time)
}

fn reset(change: &Change, row: &Row) -> Option<Item>
    ensures { option_to_list result ≡ reset_items change.now row.now.dev }
{
    if rises(change.own.rst(), change.next.rst()) {
        Some(Item::Reset(row.dev))
    } else {
        None
    }
}

fn free(before: Option<Connection>, after: Option<Connection>, time: Ns) -> Option<Item>
    ensures { option_to_list result ≡ free_items before after time }
{
    match (before, after) {
        (Some(_), None) => Some(Item::Free(time)),
        _ => None,
    }
}

impl Transcriber {
    /// Before any row.
    pub fn new(alloc: Global) -> Transcriber
        ensures { result ≡ nothing_seen }
    {
        Transcriber {
            alloc,
            bus: Bus::new(),
            opened: None,
            processes: Processes::new(alloc),
            items: Vec::new(alloc),
        }
    }

    fn add(&mut self, item: Option<Item>) -> Result<(), AllocError>
        ensures { OnOk result (self.new ≡ with_items self.old (option_to_list item)) }
    {
        if let Some(item) = item {
            self.items.push(item)?;
        }
        Ok(())
    }

    // The connection is over, of which this is the account.
    fn keep(&mut self, again: bool, aborts: bool, account: Account) -> Result<(), AllocError>
        ensures { OnOk result (self.new ≡ with_account self.old again aborts account) }
    {
        self.opened = None;
        self.processes.keep(again, aborts, account.process())?;
        self.items = account.into_items();
        Ok(())
    }

    fn close_by(
        &mut self,
        connection: &Connection,
        parts: VecDeque<Part>,
        free: bool,
        summary: &Summary,
    ) -> Result<(), AllocError>
        ensures { OnOk result (self.new ≡ closed_by self.old connection.now parts.items free summary.now) }
    {
        let again = connection.reselected;
        let aborts = summary.abort.is_some();
        let name = name_of(connection, summary);
        let process = process_after(again, aborts, self.processes.of(name), name);
        let items = std::mem::replace(&mut self.items, Vec::new(self.alloc));
        let mut account = account_parts(self.alloc, connection, process, parts, items)?;
        depart_if(free, &mut account, summary)?;
        self.keep(again, aborts, account)
    }

    // A connection with these parts is over; it may have ended with BUS FREE.
    fn close_parts(
        &mut self,
        connection: &Connection,
        parts: VecDeque<Part>,
        free: bool,
    ) -> Result<(), AllocError>
        ensures { OnOk result (self.new ≡ closed_parts self.old connection.now parts.items free) }
    {
        let summary = summary_of(connection.reselected, &parts);
        self.close_by(connection, parts, free, &summary)
    }

    // All parts of the connection are settled.
    fn close(&mut self, opened: Opened, free: bool) -> Result<(), AllocError>
        ensures { OnOk result (self.new ≡ closed_with self.old opened free) }
    {
        let connection = opened.connection();
        self.close_parts(&connection, opened.into_parts(), free)
    }

    fn close_phase(
        &mut self,
        opened: Opened,
        reading: &Reading,
        free: bool,
    ) -> Result<(), AllocError>
        ensures { OnOk result (self.new ≡ closed_phase self.old opened reading.now free) }
    {
        let mut opened = opened;
        let half = &self.bus.dialogue().half;
        opened.finish_phase(self.alloc, reading.change.before, half, false)?;
        opened.settle(false)?;
        self.close(opened, free)
    }

    fn close_if(&mut self, reading: &Reading, free: bool) -> Result<(), AllocError>
        ensures { OnOk result (self.new ≡ closed_if self.old self.old.opened reading.now free) }
    {
        match self.opened.take() {
            None => Ok(()),
            Some(opened) => self.close_phase(opened, reading, free),
        }
    }

    // RST is true after the row.
    fn see_reset(&mut self, reading: &Reading, row: &Row) -> Result<(), AllocError>
        ensures { OnOk result (self.new ≡ under_reset self.old reading.now row.now) }
    {
        let before = self.bus.connection();
        self.close_if(reading, false)?;
        self.add(reset(&reading.change, row))?;
        self.add(free(before, reading.next, row.time))
    }

    fn see_free_bus(&mut self, change: &Change, time: Ns) -> Result<(), AllocError>
        ensures { OnOk result (self.new ≡ on_free_bus self.old change.now time) }
    {
        if falls(change.before.sel(), change.after.sel()) {
            let item = unanswered(self.bus.call(), time);
            self.add(item)?;
        }
        Ok(())
    }

    fn see_connection(&mut self, reading: &Reading, kind: Kind) -> Result<(), AllocError>
        ensures { OnOk result (self.new ≡ in_connection self.old self.old.opened reading.now kind) }
    {
        match &mut self.opened {
            None => Ok(()),
            Some(opened) => opened.see(self.alloc, &self.bus, reading, kind),
        }
    }

    fn connect(&mut self, connection: Connection)
        ensures { self.new ≡ record self.old { opened = Some (opened_connection connection) } }
    {
        self.opened = Some(Opened::new(self.alloc, connection));
    }

    fn disconnect(&mut self, reading: &Reading, time: Ns) -> Result<(), AllocError>
        ensures { OnOk result (self.new
            ≡ with_items (closed_if self.old self.old.opened reading.now true) (Item.Free time ∷ [])) }
    {
        self.close_if(reading, true)?;
        self.add(Some(Item::Free(time)))
    }

    fn see_bus(&mut self, reading: &Reading, row: &Row) -> Result<(), AllocError>
        ensures { OnOk result (self.new
            ≡ on_bus self.old self.old.bus_state.connection reading.now.next reading.now row.now) }
    {
        match (self.bus.connection(), reading.next) {
            (None, None) => self.see_free_bus(&reading.change, row.time),
            (None, Some(connection)) => {
                self.connect(connection);
                Ok(())
            }
            (Some(_), None) => self.disconnect(reading, row.time),
            (Some(_), Some(_)) => self.see_connection(reading, row.kind),
        }
    }

    #[tactic(auto, unfolding(crate::specs::Rows::by_change))]
    fn see_change(&mut self, reading: &Reading, row: &Row) -> Result<(), AllocError>
        ensures { OnOk result (self.new ≡ by_change self.old reading.now row.now) }
    {
        if reading.change.after.rst() {
            self.see_reset(reading, row)
        } else {
            self.see_bus(reading, row)
        }
    }

    fn step(&mut self, row: &Row, reading: &Reading)
        requires { row.now.dev < 8 }
        ensures { self.new ≡ with_bus self.old row.now reading.now }
    {
        self.bus.step(row, reading);
    }

    // One row more, which does this.
    fn see_reading(&mut self, row: &Row, reading: &Reading) -> Result<(), AllocError>
        requires { row.now.dev < 8 }
        ensures { OnOk result (self.new ≡ after_reading self.old row.now reading.now) }
    {
        self.see_change(reading, row)?;
        self.step(row, reading);
        Ok(())
    }

    /// One row more. Its time may be any, also before that of the last row.
    ///
    /// # Errors
    ///
    /// `NoMemory` where there was no memory left; the transcriber is of no use then.
    pub fn see(&mut self, row: &Row) -> Result<(), NoMemory>
        requires { row.now.dev < 8 }
        ensures { OnOk result (self.new ≡ after_row self.old row.now) }
    {
        let change = self.bus.change(row);
        if self.bus.is_still(&change, row.kind) {
            self.bus.step_still(row, &change);
            return Ok(());
        }
        let reading = self.bus.reading_of(row, change);
        self.see_reading(row, &reading)?;
        Ok(())
    }

    fn settle(&mut self, opened: Opened) -> Result<(), AllocError>
        ensures { OnOk result (self.new ≡ closed_with self.old (settled (spoken opened) false) false) }
    {
        let mut opened = opened;
        opened.speak(self.alloc)?;
        opened.settle(false)?;
        self.close(opened, false)
    }

    fn settle_if(&mut self) -> Result<(), AllocError>
        ensures { OnOk result (self.new ≡ finished_if self.old self.old.opened) }
    {
        match self.opened.take() {
            None => Ok(()),
            Some(opened) => self.settle(opened),
        }
    }

    /// The transcript of the rows so far, the last of which need not end its connection.
    ///
    /// # Errors
    ///
    /// `NoMemory` where there was no memory left.
    pub fn finish(self) -> Result<Transcript, NoMemory>
        ensures { IfOk result (λ transcript. transcript.items.items ≡ finished self) }
    {
        let mut last = self;
        last.settle_if()?;
        Ok(Transcript { items: last.items })
    }
}

// The transcript of these rows of the eight devices, the oldest first.
fn transcript(alloc: Global, rows: &RowStore) -> Result<Transcript, NoMemory>
    requires { AllByRecursion IsOfDevice rows.now }
    ensures { IfOk result (λ transcript. transcript.items.items ≡ transcript_of (reverse rows.now)) }
{
    let mut transcriber = Transcriber::new(alloc);
    for row in rows.iter() {
        transcriber.see(&row)?;
    }
    transcriber.finish()
}

/// The transcript of these rows, the oldest first. The end of the trace, in ns, adds nothing to it.
///
/// # Errors
///
/// `NoMemory` where there was no memory left.
///
/// # Examples
///
/// With `read_trace` of `trace_text`, and `MemSink` of `bus_base`:
///
/// ```rust
/// // Device 2 resets the bus, for a reset hold time.
/// let text = "trace 1\n8855 2 20000\n33855 2 00000\nend 33855\n";
/// let Ok(trace) = read_trace(rt.alloc(), text.as_bytes()) else {
///     panic!(rt; "it is a trace");
/// };
/// let transcript = transcribe(rt.alloc(), &trace.rows, trace.end)?;
/// let mut out = MemSink::new(rt.alloc(), 64, 64, &[])?;
/// assert!(rt; print_transcript(&transcript, &mut out) == Ok(()));
/// assert!(rt; out.bytes() == b"transcript 1\nreset 2\ndone\n".as_slice());
/// ```
pub fn transcribe(alloc: Global, rows: &RowStore, end: Ns) -> Result<Transcript, NoMemory>
    requires { AllByRecursion IsOfDevice rows.now }
    ensures { IfOk result (λ transcript. transcript.items.items ≡ transcript_of (reverse rows.now)) }
{
    let _ = end;
    transcript(alloc, rows)
}

/// The transcript of the rows of a run of this scenario. Where its history is what its rows tell, the resets of the
/// transcript are those of the history.
///
/// # Errors
///
/// `NoMemory` where there was no memory left.
pub fn transcribe_run(alloc: Global, s: &Scenario, run: &Run) -> Result<Transcript, NoMemory>
    requires { AllByRecursion IsOfDevice run.now.rows }
    ensures exact { IfOk result (λ transcript. transcript.items.items ≡ transcript_of (reverse run.now.rows)) }
    ensures resets { IfOk result (λ transcript. reverse run.now.history ≡ trace_history s.now (reverse run.now.rows)
        → resets_shown transcript.items.items ≡ resets_told run.now.history) }
{
    let _ = s;
    transcript(alloc, &run.rows)
}
