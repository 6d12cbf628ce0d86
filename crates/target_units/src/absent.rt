//! A logical unit of a target that is not there, at its seat of the plain disk array (ANSI X3.131-1994, 7.5.3).
ghost use Rattle.std.specs.Prelude.{◌≡◌, ℕ, ◌<◌, ◌≤◌, ◌+◌, Bool, false, List, length, take, drop, Option, Some, None, slice_index_or};
ghost use Rattle.cdb_codec.specs.declared.operation.TheConstants.{INQUIRY as INQUIRY_CODE};
ghost use Rattle.scenario.specs.declared.value.HostDef.{HostDef};
ghost use Rattle.array_model.specs.Execution.{Reply as ArrayReply, execution, is_opcode, returned_sense, sense_of};
ghost use Rattle.array_model.specs.Processes.{Process};
ghost use Rattle.array_model.specs.Seats.{Seat, settled_seat, seat_after_end, seat_after_aborted, seat_after_reset, context_of};
ghost use Rattle.array_model.specs.Units.{guest_at};
ghost use Rattle.disk_unit.specs.Plans.{plan_of};
ghost use Rattle.disk_unit.specs.Units.{told_of};
ghost use Rattle.target_units.specs.Seated.{IsSensing};
ghost use Rattle.target_units.specs.Absent.{AbsentState, IsAbsentAt, nothing_kept, absent_with, absent_after_guest, absent_after_abort, absent_reply, plan_in as plan_within, inquiry_room as room_to_inquire, sense_room as room_of_sense};

use crate::parts::copy_part;
use bus_base::{AbortKind, Dev, ProcId};
use cdb_codec::{
    CHECK_CONDITION, CdbFault, Command, GOOD, ILLEGAL_REQUEST, INQUIRY, INQUIRY_LEN, INVALID_FIELD,
    SENSE_LEN, Sense, UNIT_NOT_SUPPORTED, from_cdb, inquiry_bytes, sense_bytes,
};
use disk_unit::{Plan, Reply};
use std::marker::Model;

/// What a target keeps of a logical unit that is not there: for each initiator its stored sense, and whether it stands
/// in the hold.
#[derive(Drop)]
pub struct AbsentUnit {
    senses: [Option<Sense>; 8],
    held: [bool; 8],
}

impl Model for AbsentUnit {
    ghost use Rattle.target_units.specs.Absent.{AbsentState};

    ghost Value = { AbsentState };

    ghost view = { λ u. record { senses = u.senses; held = u.held } };
}

// The sense of a command that is refused.
fn refused(asc: u8) -> Sense
    ensures { result ≡ sense_of 0x05 asc 0x00 }
{
    Sense::plain(ILLEGAL_REQUEST, asc, 0x00)
}

// How a command ends that gives so many bytes at most, as far as there is room, or else is refused.
fn plan_in(room: Option<u8>, most: usize, asc: u8) -> Plan
    requires { most ≤ 36 }
    ensures { result ≡ plan_within room most asc }
{
    match room {
        Some(room) => Plan {
            status: GOOD,
            sense: None,
            in_len: u32::from(room).min(most as u32),
            out_len: 0,
        },
        None => Plan {
            status: CHECK_CONDITION,
            sense: Some(refused(asc)),
            in_len: 0,
            out_len: 0,
        },
    }
}

fn inquiry_room(command: Result<Command, CdbFault>) -> Option<u8>
    ensures { result ≡ room_to_inquire command }
{
    match command {
        Ok(Command::Inquiry { room }) => Some(room),
        _ => None,
    }
}

fn sense_room(command: Result<Command, CdbFault>) -> Option<u8>
    ensures { result ≡ room_of_sense command }
{
    match command {
        Ok(Command::RequestSense { room }) => Some(room),
        _ => None,
    }
}

fn is_inquiry(cdb: &[u8]) -> bool
    ensures { result ≡ is_opcode cdb.now INQUIRY_CODE }
{
    match cdb.first() {
        Some(code) => *code == INQUIRY,
        None => false,
    }
}

impl AbsentUnit {
    /// Nothing is stored, and no initiator stands in the hold.
    pub fn new() -> AbsentUnit
        ensures { result ≡ nothing_kept }
    {
        AbsentUnit {
            senses: [None; 8],
            held: [false; 8],
        }
    }

    /// Whether an initiator stands in the hold.
    pub fn holds(&self, from: Dev) -> bool
        requires device { from < 8 }
        ensures exact { result ≡ slice_index_or self.now.held from false }
        ensures seat { (seat : Seat) → IsAbsentAt seat self.now → result ≡ seat.hold from }
    {
        self.held[from as usize]
    }

    // The sense that it returns: the stored one, or that there is no such unit.
    fn sense_for(&self, from: Dev) -> Sense
        requires device { from < 8 }
        ensures { result ≡ returned_sense false (slice_index_or self.now.senses from None) }
    {
        match self.senses[from as usize] {
            Some(sense) => sense,
            None => refused(UNIT_NOT_SUPPORTED),
        }
    }

    fn plan_now(&self, from: Dev, cdb: &[u8]) -> Plan
        requires device { from < 8 }
        ensures { result ≡ plan_of (absent_reply self.now from cdb.now) 0 }
    {
        let command = from_cdb(cdb);
        if is_inquiry(cdb) {
            plan_in(inquiry_room(command), INQUIRY_LEN, INVALID_FIELD)
        } else {
            plan_in(sense_room(command), SENSE_LEN, UNIT_NOT_SUPPORTED)
        }
    }

    /// How a command of an initiator would end if it ran now, whether or not it has arrived.
    pub fn plan(&self, from: Dev, cdb: &[u8]) -> Plan
        requires device { from < 8 }
        ensures exact { result ≡ plan_of (absent_reply self.now from cdb.now) 0 }
        ensures seat { (seat : Seat) (sent : List ℕ) → IsAbsentAt seat self.now
            → result ≡ plan_of (execution (context_of seat from) cdb.now sent).reply 0 }
    {
        self.plan_now(from, cdb)
    }

    fn fetch_now(&self, from: Dev, cdb: &[u8], at: u32, into: &mut [u8])
        requires device { from < 8 }
        requires within { at + length into.old ≤ length (absent_reply self.now from cdb.now).bytes }
        ensures { into.new ≡ take (length into.old) (drop at (absent_reply self.now from cdb.now).bytes) }
    {
        let command = from_cdb(cdb);
        if is_inquiry(cdb) {
            if inquiry_room(command).is_some() {
                copy_part(&inquiry_bytes(false), at, into);
            }
        } else if sense_room(command).is_some() {
            copy_part(&sense_bytes(&self.sense_for(from)), at, into);
        }
    }

    /// The bytes of the reply that a command of an initiator would have now, from `at` on, as many as `into` has.
    pub fn fetch(&self, from: Dev, cdb: &[u8], at: u32, into: &mut [u8])
        requires device { from < 8 }
        requires within { at + length into.old ≤ length (absent_reply self.now from cdb.now).bytes }
        ensures exact { into.new ≡ take (length into.old) (drop at (absent_reply self.now from cdb.now).bytes) }
        ensures seat { (seat : Seat) (sent : List ℕ) → IsAbsentAt seat self.now
            → into.new ≡ take (length into.old) (drop at
            (execution (context_of seat from) cdb.now sent).reply.bytes) }
    {
        self.fetch_now(from, cdb, at, into);
    }

    fn keep(&mut self, from: Dev, sense: Option<Sense>, held: bool)
        requires device { from < 8 }
        ensures { self.new ≡ absent_with self.old from sense held }
    {
        self.senses[from as usize] = sense;
        self.held[from as usize] = held;
    }

    fn keep_guest(&mut self, from: Dev, reply: &Reply, senses: bool)
        requires device { from < 8 }
        ensures { self.new ≡ absent_after_guest self.old from reply.now senses }
    {
        match reply.sense {
            Some(sense) => self.keep(from, Some(sense), true),
            None if reply.status == GOOD && senses => self.keep(from, None, false),
            None => {}
        }
    }

    /// A process of this initiator ends with this reply; `senses` says whether it is a REQUEST SENSE. A sense is
    /// stored; a REQUEST SENSE that ends GOOD takes one away.
    pub fn end_guest(&mut self, from: Dev, reply: &Reply, senses: bool)
        requires device { from < 8 }
        ensures exact { self.new ≡ absent_after_guest self.old from reply.now senses }
        ensures seat { (seat after : Seat) (status : ℕ) (id : ProcId) (p : Process) (given : ArrayReply)
            → IsAbsentAt seat self.old
            → guest_at seat.guests id ≡ Some (record { process = p; reply = Some given })
            → p.initiator ≡ from → reply.now ≡ told_of given → IsSensing given p senses
            → seat_after_end id status seat ≡ Some after → IsAbsentAt (settled_seat after) self.new }
    {
        self.keep_guest(from, reply, senses);
    }

    fn cut(&mut self, kind: AbortKind, by: Dev)
        requires device { by < 8 }
        ensures { self.new ≡ absent_after_abort kind by self.old }
    {
        match kind {
            AbortKind::All => self.keep(by, None, false),
            AbortKind::Tag(_) => {}
            AbortKind::WholeQueue => {}
            AbortKind::Device => self.clear(),
        }
    }

    /// An abort message of this initiator ended.
    pub fn abort(&mut self, kind: AbortKind, by: Dev)
        requires device { by < 8 }
        ensures exact { self.new ≡ absent_after_abort kind by self.old }
        ensures seat { (hosts : List HostDef) (seat : Seat) → IsAbsentAt seat self.old
            → IsAbsentAt (settled_seat (seat_after_aborted hosts by kind seat)) self.new }
    {
        self.cut(kind, by);
    }

    fn clear(&mut self)
        ensures { self.new ≡ nothing_kept }
    {
        self.senses = [None; 8];
        self.held = [false; 8];
    }

    /// A reset: by RST, or of the target by BUS DEVICE RESET.
    pub fn reset(&mut self)
        ensures exact { self.new ≡ nothing_kept }
        ensures seat { (hosts : List HostDef) (seat : Seat) → IsAbsentAt seat self.old
            → IsAbsentAt (settled_seat (seat_after_reset hosts seat)) self.new }
    {
        self.clear();
    }
}
