//! The terms of the rules but for what a view of the bus keeps.
ghost use Rattle.std.specs.Prelude.{◌≡◌, ◌<◌, ◌∷◌, [], List};
ghost use Rattle.bus_trace.specs.declared.Row.{Row};
ghost use Rattle.bus_trace.specs.Trace.{since_line};
ghost use Rattle.bus_trace.specs.Changes.{change_of};
ghost use Rattle.bus_trace.specs.Terms.{free_since, call, connection};
ghost use Rattle.bus_phases.specs.Phases.{is_attention_held};
ghost use Rattle.bus_phases.specs.Dialogue.{asynchronous, dialogue};
ghost use Rattle.bus_phases.specs.Reading.{reading_of};
ghost use Rattle.bus_rules.specs.DataRows.{course_after_transfer, course_after_ask, course_after_answer, initiator_in, target_in};

use crate::data_rows::{crosses_in, duty_in_data};
use bus_base::Ns;
use bus_phases::{
    Agreements, Dialogue, Duty, Pulses, Raises, Reading, agree, asynchronous, duty_after,
    is_attention_held, no_pulses, pulses_after, turned_after,
};
use bus_trace::{
    Arbitration, Call, Change, Connection, Row, ScsiId, falls, receiver_of, rises, see_arbitration,
    see_call, see_connection,
};

/// What stands on the bus after the rows of a trace so far.
#[derive(Drop)]
pub struct Course {
    /// When each device last raised BSY.
    pub bsy_raised: Raises,
    /// When each device last raised RST.
    pub rst_raised: Raises,
    /// The arbitration that stands.
    pub arbitration: Option<Arbitration>,
    /// The call that stands, while SEL is true.
    pub call: Option<Call>,
    /// The connection that stands.
    pub connection: Option<Connection>,
    /// The receiver of the byte that crossed in the last row.
    pub receiver: Option<ScsiId>,
    /// The pulses in the present phase.
    pub pulses: Pulses,
    /// Whether I/O became true in the connection.
    pub turned: bool,
    /// What ATN asks of the target.
    pub duty: Duty,
    /// The agreements before the connection that stands.
    pub agreed: Agreements,
    /// What the messages of the connection say.
    pub dialogue: Dialogue,
}

/// The initiator of a connection.
pub fn initiator_in(connection: &Option<Connection>) -> Option<ScsiId>
    ensures { result ≡ initiator_in connection.now }
{
    match connection {
        None => None,
        Some(connection) => Some(connection.initiator),
    }
}

/// Its target.
pub fn target_in(connection: &Option<Connection>) -> Option<ScsiId>
    ensures { result ≡ target_in connection.now }
{
    match connection {
        None => None,
        Some(connection) => Some(connection.target),
    }
}

impl Course {
    ghost use Rattle.bus_rules.specs.Judging.{IsCourseOf};

    /// Nothing stands on the bus.
    pub fn new() -> Course
        ensures { IsCourseOf [] result }
    {
        Course {
            bsy_raised: Raises::new(),
            rst_raised: Raises::new(),
            arbitration: None,
            call: None,
            connection: None,
            receiver: None,
            pulses: no_pulses(),
            turned: false,
            duty: Duty::Nothing,
            agreed: Agreements::new(),
            dialogue: Dialogue::opened(asynchronous()),
        }
    }

    // REQ rises, or not, in a row in which ACK does not move.
    #[inline(always)]
    fn ask(&mut self, rises: bool, reads: bool, time: Ns)
        ensures { self.new ≡ course_after_ask self.old rises reads time }
    {
        self.receiver = None;
        if rises {
            self.pulses.req = self.pulses.req.saturating_add(1);
            self.pulses.last_req = Some(time);
            self.duty = Duty::Nothing;
            if reads {
                self.receiver = initiator_in(&self.connection);
                self.dialogue.begun = true;
            }
        }
    }

    // ACK rises, or not, in a row in which REQ does not move; or it falls while ATN is held.
    #[inline(always)]
    fn answer(&mut self, rises: bool, heeded: bool, reads: bool, time: Ns)
        ensures { self.new ≡ course_after_answer self.old rises heeded reads time }
    {
        self.receiver = None;
        if heeded {
            self.duty = Duty::Asked;
        }
        if rises {
            self.pulses.ack = self.pulses.ack.saturating_add(1);
            self.pulses.last_ack = Some(time);
            if !reads {
                self.receiver = target_in(&self.connection);
                self.dialogue.begun = true;
            }
        }
    }

    // The same, where both move.
    #[cold]
    #[inline(never)]
    fn transfer_both(&mut self, held: bool, change: &Change, time: Ns)
        ensures { self.new ≡ course_after_transfer self.old held change.now time }
    {
        self.receiver = receiver_of(&self.connection, change);
        self.pulses.count(change, time);
        self.duty = duty_in_data(self.duty, change, held);
        self.dialogue.takes_data(crosses_in(change));
    }

    /// One row more that passes the short test. `held` says whether ATN is held over it.
    #[inline(always)]
    pub fn transfer(&mut self, held: bool, change: &Change, time: Ns)
        ensures { self.new ≡ course_after_transfer self.old held change.now time }
    {
        let (before, after) = (change.before, change.after);
        if before.ack() == after.ack() {
            self.ask(rises(before.req(), after.req()), before.io(), time);
        } else if before.req() == after.req() {
            let (ack, next_ack) = (before.ack(), after.ack());
            let heeded = falls(ack, next_ack) && held;
            self.answer(rises(ack, next_ack), heeded, before.io(), time);
        } else {
            self.transfer_both(held, change, time);
        }
    }

    /// One row more that changes this, on a bus that was free since `free`, in ns. `held` says whether ATN is
    /// held over it. Tells what a byte makes of a message.
    pub fn step(&mut self, free: Ns, held: bool, change: &Change, row: &Row) -> Reading
        requires { row.now.dev < 8 }
        ensures kept { (rows : List Row) → IsCourseOf rows self.old → free ≡ free_since rows
            → change.now ≡ change_of rows row.now
            → held ≡ is_attention_held (change_of rows row.now) (since_line (λ s. s.atn) rows) row.now.time
            → IsCourseOf (row.now ∷ rows) self.new }
        ensures reading { result ≡ reading_of self.old.dialogue.half self.old.connection change.now }
    {
        let before = self.connection;
        let spoken = self.dialogue.heard.now;
        see_connection(&mut self.connection, &self.call, change, row);
        let reading = self
            .dialogue
            .step(&before, &self.connection, &self.agreed, change);
        agree(&mut self.agreed, before, spoken, change.after);
        self.receiver = receiver_of(&before, change);
        self.turned = turned_after(self.turned, before, change);
        self.pulses = pulses_after(self.pulses, self.connection, change, row.time);
        self.duty = duty_after(self.duty, self.connection, change, held);
        see_arbitration(&mut self.arbitration, free, change, row);
        see_call(&mut self.call, change, row);
        let (own, next) = (change.own, change.next);
        self.bsy_raised
            .step(row.dev, row.time, own.bsy(), next.bsy());
        self.rst_raised
            .step(row.dev, row.time, own.rst(), next.rst());
        reading
    }
}
