//! A logical unit of a target, at its seat of the plain disk array.
ghost use Rattle.std.specs.Prelude.{◌≡◌, ◌<◌, ◌≤◌, ◌+◌, ◌-◌, ◌*◌, ◌^◌, min, ◌&&◌, ◌==◌, [], slice_index_or, ℕ, Bool, true, false, List, length, Option, Some, None, is_some, if◌then◌else◌, IfSome, IfOk, nat_le, take, drop};
ghost use Rattle.cdb_codec.specs.Cdb.{command_of};
ghost use Rattle.scenario.specs.declared.value.HostDef.{HostDef};
ghost use Rattle.array_model.specs.Execution.{Reply as ArrayReply, execution, heeds_attention, is_request_sense, queue_full, aborted_reply};
ghost use Rattle.array_model.specs.Processes.{Process, same_id, same_bool};
ghost use Rattle.array_model.specs.Units.{RunningProcess, UnitState, guest_at, pick_of, starting_array, starting_unit};
ghost use Rattle.due_model.specs.dialogue_model.specs.Wants.{ready_in};
ghost use Rattle.target_units.specs.Readies.{ready_unit};
ghost use Rattle.array_model.specs.Seats.{Seat, settled_seat, seat_with_guest, seat_after_accept, seat_after_refuse, seat_after_run, seat_after_failure, seat_after_end, seat_after_loss, seat_after_aborted, seat_after_reset, current_of, running_at, context_of, contents_of, is_any_held, is_initiator, seat_of};
ghost use Rattle.tag_queue.specs.Queue.{has_key, key_of_process, is_held};
ghost use Rattle.disk_unit.specs.Books.{books_after_end, books_without, books_after_reset, initiator_at};
ghost use Rattle.disk_unit.specs.Units.{told_of, entry_with, plan_for};
ghost use Rattle.disk_unit.specs.Plans.{plan_of};
ghost use Rattle.disk_unit.specs.Held.{a_tape, disk_of, held_extent, held_reply, cost_by, kind_of, taken_now};
ghost use Rattle.disk_unit.specs.declared.unit.Accepted.TheVariants as accepted;
ghost use Rattle.scenario.specs.Lookups.{is_tape, tape_unit};
ghost use Rattle.scenario.specs.Value.{ScenarioValue};
ghost use Rattle.array_model.specs.Contents.{is_reeled, loaded_contents, starting_contents};
ghost use Rattle.tape_unit.specs.Drives.{drive_contents, drive_spare};
ghost use Rattle.target_units.specs.Fillings.{IsFresh, AreFilled, blocks_by_all as blocks_of_all};
ghost use Rattle.target_units.specs.Loads.{AreLoaded};
ghost use Rattle.target_units.specs.Rooms.{HasRoomFor, IsOfKind};
ghost use Rattle.target_units.specs.Seated.{SeatedState, IsAtSeat, seat_time, taken_at, running_id, running_entry, running_block, current_reply, current_id, is_same_process, reply_kept, since_after, settled, with_books, IsKnownAs, IsNew, IsArrived, can_run, IsRun, IsRunLive, HasSent, IsSensing, state_after_failure, state_after_end, state_after_loss, books_after_guest, IsCut, seated_context, taken_in, current_entry, block_under, entry_from, ready_by_entry, room_by, room_at};

use crate::fillings::{blocks_by_all, blocks_in_all, fill, fill_count};
use crate::loads::{blocks_on, load};
use crate::parts::{copy_part, is_sense};
use crate::ready::Ready;
use crate::served::Served;
use array_model::same_id;
use bus_base::{AbortKind, Class, Dev, NoMemory, Ns, Pick, ProcId};
use cdb_codec::{ABORTED_COMMAND, CHECK_CONDITION, GOOD, Sense, sense_bytes};
use disk_unit::{Accepted, Blocks, DiskMedium, Medium, Plan, Reply, SparseBlocks, Unit};
use due_model::the_dialogue_model::Room;
use scenario::{CmdDef, FillDef, LoadDef, TapeDef, UnitDef};
use std::alloc::Global;
use std::marker::Model;
use tag_queue::{Entry, Key};
use tape_unit::{Drive, TapeMedium};

/// A logical unit of a target: a disk or a tape with its queue, the reply of its current process once that has one, and
/// since when this is the current one.
#[derive(Drop)]
pub struct SeatedUnit {
    unit: Unit<Drive>,
    pick: Pick,
    reply: Option<Reply>,
    since: Ns,
}

impl Model for SeatedUnit {
    ghost use Rattle.tape_unit.specs.Drives.{drive_contents, drive_spare};
    ghost use Rattle.target_units.specs.Seated.{SeatedState};

    ghost Value = { SeatedState };

    ghost view = { λ u. record {
      books = u.unit.books;
      contents = drive_contents u.unit.medium;
      spare = drive_spare u.unit.medium;
      pick = u.pick;
      reply = u.reply;
      since = u.since;
    } };
}

// ---- the choice

fn is_same(one: Option<ProcId>, other: Option<ProcId>) -> bool
    ensures { result ≡ is_same_process one other }
{
    match (one, other) {
        (Some(one), Some(other)) => same_id(one, other),
        _ => false,
    }
}

// The reply stays that of the current process.
fn kept_reply(current: Option<Key>, reply: Option<Reply>) -> Option<Reply>
    ensures { result ≡ reply_kept current reply }
{
    match current {
        None => None,
        Some(_) => reply,
    }
}

fn later_since(before: Option<ProcId>, after: Option<ProcId>, since: Ns, now: Ns) -> Ns
    ensures { result ≡ since_after before after since now }
{
    if is_same(before, after) { since } else { now }
}

// What a failure leaves of the reply of the current process.
fn reply_of_failure(fails: bool, reply: Option<Reply>, code: u8) -> Option<Reply>
    ensures { result ≡ (if fails then Some (told_of (aborted_reply code)) else reply) }
{
    if fails {
        Some(Reply {
            status: CHECK_CONDITION,
            len: 0,
            sense: Some(Sense::plain(ABORTED_COMMAND, code, 0x00)),
        })
    } else {
        reply
    }
}

fn ready_unless(held: bool, unit: u8, time: Ns, initiator: Dev) -> Option<Ready>
    ensures { result ≡ (if held then None else Some (record { time = time; initiator = initiator; unit = unit })) }
{
    if held {
        None
    } else {
        Some(Ready {
            time,
            initiator,
            unit,
        })
    }
}

impl SeatedUnit {
    /// The disk of this line of a scenario, with these fills, and with memory for the blocks that these commands write.
    /// It takes all the memory that it ever has.
    pub fn new(
        alloc: Global,
        def: &UnitDef,
        pick: Pick,
        fills: &[FillDef],
        commands: &[CmdDef],
    ) -> Result<SeatedUnit, NoMemory>
        requires some { 1 ≤ def.now.blocks }
        requires most { def.now.blocks ≤ 4294967296 }
        requires least_size { 16 ≤ def.now.size }
        requires most_size { def.now.size ≤ 2048 }
        requires filled { AreFilled def.now fills.now }
        ensures fresh { IfOk result (λ made. IsFresh def.now pick (starting_contents def.now fills.now)
            (blocks_of_all (disk_of def.now.blocks) def.now commands.now) made) }
        ensures seat { (s : ScenarioValue) → s.fills ≡ fills.now → is_tape s def.now.target def.now.unit ≡ false
            → pick ≡ pick_of s.targets def.now.target
            → (seat_of (starting_array s) def.now.target def.now.unit).unit ≡ Some (starting_unit s def.now)
            → IfOk result (λ made. IsAtSeat s.hosts
            (seat_of (starting_array s) def.now.target def.now.unit) 0 made) }
    {
        SeatedUnit::fresh(alloc, def, pick, fills, commands)
    }

    fn fresh(
        alloc: Global,
        def: &UnitDef,
        pick: Pick,
        fills: &[FillDef],
        commands: &[CmdDef],
    ) -> Result<SeatedUnit, NoMemory>
        requires some { 1 ≤ def.now.blocks }
        requires most { def.now.blocks ≤ 4294967296 }
        requires least_size { 16 ≤ def.now.size }
        requires most_size { def.now.size ≤ 2048 }
        requires filled { AreFilled def.now fills.now }
        ensures { IfOk result (λ made. IsFresh def.now pick (starting_contents def.now fills.now)
            (blocks_of_all (disk_of def.now.blocks) def.now commands.now) made) }
    {
        let blank = DiskMedium::new(SparseBlocks::new(alloc, def.blocks, def.size as usize)?);
        let written = blocks_by_all(&blank, def, commands);
        let mut blocks = blank.into_blocks();
        blocks.reserve(blocks_in_all(fill_count(def, fills), written)?)?;
        fill(&mut blocks, def, fills);
        let drive = Drive::Disk(DiskMedium::new(blocks));
        let unit = Unit::new(alloc, drive, def.depth as usize)?;
        Ok(SeatedUnit {
            unit,
            pick,
            reply: None,
            since: 0,
        })
    }

    /// The tape of this line of a scenario, at its beginning, with these loads on it, and with memory for the blocks
    /// that these commands write. It takes all the memory that it ever has.
    pub fn tape(
        alloc: Global,
        def: &TapeDef,
        pick: Pick,
        loads: &[LoadDef],
        commands: &[CmdDef],
    ) -> Result<SeatedUnit, NoMemory>
        requires some { 1 ≤ def.now.objects }
        requires most { def.now.objects ≤ 65536 }
        requires least_size { 16 ≤ def.now.size }
        requires most_size { def.now.size ≤ 2048 }
        requires loaded { AreLoaded def.now loads.now }
        ensures fresh { IfOk result (λ made. IsFresh (tape_unit def.now) pick
            (loaded_contents (tape_unit def.now) loads.now)
            (blocks_of_all a_tape (tape_unit def.now) commands.now) made) }
        ensures seat { (s : ScenarioValue) → s.loads ≡ loads.now → is_tape s def.now.target def.now.unit ≡ true
            → pick ≡ pick_of s.targets def.now.target
            → (seat_of (starting_array s) def.now.target def.now.unit).unit
            ≡ Some (starting_unit s (tape_unit def.now)) → IfOk result (λ made. IsAtSeat s.hosts
            (seat_of (starting_array s) def.now.target def.now.unit) 0 made) }
    {
        SeatedUnit::fresh_tape(alloc, def, pick, loads, commands)
    }

    fn fresh_tape(
        alloc: Global,
        def: &TapeDef,
        pick: Pick,
        loads: &[LoadDef],
        commands: &[CmdDef],
    ) -> Result<SeatedUnit, NoMemory>
        requires some { 1 ≤ def.now.objects }
        requires most { def.now.objects ≤ 65536 }
        requires least_size { 16 ≤ def.now.size }
        requires most_size { def.now.size ≤ 2048 }
        requires loaded { AreLoaded def.now loads.now }
        ensures { IfOk result (λ made. IsFresh (tape_unit def.now) pick (loaded_contents (tape_unit def.now) loads.now)
            (blocks_of_all a_tape (tape_unit def.now) commands.now) made) }
    {
        let blocks = blocks_on(def, loads, commands)?;
        let size = def.size as usize;
        let mut tape = TapeMedium::new(alloc, def.objects, size, def.objects, blocks)?;
        load(&mut tape, def, loads);
        let unit = Unit::new(alloc, Drive::Tape(tape), def.depth as usize)?;
        Ok(SeatedUnit {
            unit,
            pick,
            reply: None,
            since: 0,
        })
    }

    fn current_process(&self) -> Option<ProcId>
        ensures { result ≡ current_id self.now.books }
    {
        let key = self.unit.current()?;
        Some(self.unit.entry(key).id)
    }

    /// The current process.
    pub fn current(&self) -> Option<ProcId>
        ensures exact { result ≡ current_id self.now.books }
        ensures seat { (hosts : List HostDef) (seat : Seat) (time : ℕ) → IsAtSeat hosts seat time self.now
            → result ≡ running_id (current_of seat.unit) }
    {
        self.current_process()
    }

    // The key of the live command of a process.
    fn find(&self, id: ProcId) -> Option<Key>
        ensures exact { result ≡ key_of_process self.now.books.queue.arrived id }
        ensures live { IfSome result (λ key. has_key self.now.books.queue.arrived key ≡ true) }
    {
        self.unit.find(id)
    }

    // The unit makes its choice; this process was current before the event.
    fn settle(&mut self, before: Option<ProcId>, now: Ns)
        ensures { self.new ≡ settled before now self.old }
    {
        self.reply = kept_reply(self.unit.current(), self.reply);
        let _ = self.unit.choose(self.pick);
        self.since = later_since(before, self.current_process(), self.since, now);
    }

    // It arrives, before the choice.
    fn arrive(
        &mut self,
        id: ProcId,
        from: Dev,
        tag: Option<u8>,
        class: Class,
        cdb: &[u8],
    ) -> Accepted
        requires device { from < 8 }
        requires most { length cdb.now ≤ 10 }
        ensures { IsArrived self.old (entry_with id from tag class (held_extent self.old.contents cdb.now)) cdb.now
            result self.new }
    {
        self.unit.accept(id, from, tag, class, cdb)
    }

    /// The command of a process arrives at `now`, in ns, from an initiator: it waits as the last one, or is a REQUEST
    /// SENSE that runs at once outside the queue, or the queue is full and refuses it.
    pub fn accept(&mut self, served: &Served<'_>, now: Ns) -> Accepted
        requires device { served.now.from < 8 }
        requires most { length served.now.cdb.now ≤ 10 }
        ensures exact { (arrived : SeatedState) × IsArrived self.old
            (entry_with served.now.id served.now.from served.now.tag served.now.class
            (held_extent self.old.contents served.now.cdb.now)) served.now.cdb.now result arrived
            × (self.new ≡ settled (current_id self.old.books) now arrived) }
        ensures accepts { (hosts : List HostDef) (seat after : Seat) (time : ℕ) (p : Process)
            → IsAtSeat hosts seat time self.old → IsKnownAs p served.now
            → IsOfKind p.serial seat.unit → IsNew hosts seat p → seat_after_accept p seat ≡ Some after
            → IsAtSeat hosts (settled_seat after) (seat_time seat (settled_seat after) time now) self.new }
        ensures refused { (hosts : List HostDef) (seat after : Seat) (time : ℕ) (p : Process)
            → IsAtSeat hosts seat time self.old → IsKnownAs p served.now
            → seat_after_refuse p seat ≡ Some after → result ≡ accepted.Full }
        ensures refuses { (hosts : List HostDef) (seat : Seat) (time : ℕ) (p : Process)
            → IsAtSeat hosts seat time self.old → IsKnownAs p served.now → IsNew hosts seat p
            → result ≡ accepted.Full → (seat_after_accept p seat ≡ None)
            × (seat_after_refuse p seat ≡ Some (seat_with_guest seat p (Some queue_full)))
            × IsAtSeat hosts (settled_seat (seat_with_guest seat p (Some queue_full)))
            (seat_time seat (settled_seat (seat_with_guest seat p (Some queue_full))) time now) self.new }
        ensures spare { self.new.spare ≡ self.old.spare }
    {
        let before = self.current_process();
        let accepted = self.arrive(served.id, served.from, served.tag, served.class, served.cdb);
        self.settle(before, now);
        accepted
    }

    // Whether the live command of this key may run where so many bytes were sent for it: it takes no more of them, and
    // the blocks that it writes have memory.
    fn can_run(&self, key: Key, sent: usize) -> bool
        requires live { has_key self.now.books.queue.arrived key ≡ true }
        ensures { result ≡ can_run self.now key sent }
    {
        self.unit.plan(key).out_len as usize <= sent
            && self.unit.cost(key) <= self.unit.medium().spare()
    }

    fn run_key(&mut self, key: Key, sent: &[u8]) -> Reply
        requires live { has_key self.old.books.queue.arrived key ≡ true }
        requires can { can_run self.old key (length sent.now) ≡ true }
        ensures exact { IsRun self.old key (take (taken_at self.old key) sent.now) self.new }
        ensures reply { Some result ≡ self.new.reply }
    {
        let taken = self.unit.plan(key).out_len as usize;
        let reply = self.unit.run(key, &sent[..taken]);
        self.reply = Some(reply);
        reply
    }

    // The live command of this process runs, if there is one and it may.
    fn run_live(&mut self, id: ProcId, sent: &[u8]) -> Option<Reply>
        ensures { IsRunLive self.old sent.now (key_of_process self.old.books.queue.arrived id) result self.new }
    {
        let key = self.find(id)?;
        if !self.can_run(key, sent.len()) {
            return None;
        }
        Some(self.run_key(key, sent))
    }

    /// The current process runs at `now`, in ns, with the bytes that it sent: its attention is reported, or the disk or
    /// tape changes as its command says, with as many of them as that takes. Returns its reply; `None`, with the disk
    /// or tape as it was, where it is not in the queue, or sent fewer bytes than its command takes, or the blocks that
    /// it writes have no memory. A process outside the queue changes nothing as it runs.
    pub fn run(&mut self, id: ProcId, sent: &[u8], now: Ns) -> Option<Reply>
        ensures exact { (ran : SeatedState) × IsRunLive self.old sent.now
            (key_of_process self.old.books.queue.arrived id) result ran
            × (self.new ≡ settled (current_id self.old.books) now ran) }
        ensures seat { (hosts : List HostDef) (seat after : Seat) (time : ℕ) (p : Process)
            → IsAtSeat hosts seat time self.old → p.id ≡ id → guest_at seat.guests id ≡ None
            → running_at seat id ≡ Some (record { process = p; reply = None }) → HasSent seat p sent.now
            → HasRoomFor seat p self.old.spare → seat_after_run id seat ≡ Some after
            → IsAtSeat hosts (settled_seat after) (seat_time seat (settled_seat after) time now) self.new
            × (result ≡ Some (told_of (execution (context_of seat p.initiator) p.cdb p.sent).reply))
            × (self.old.spare ≤ self.new.spare + cost_by (kind_of (contents_of seat.unit)) p.cdb) }
        ensures guest { (hosts : List HostDef) (seat after : Seat) (time : ℕ) (r : RunningProcess)
            → IsAtSeat hosts seat time self.old → guest_at seat.guests id ≡ Some r
            → is_request_sense (command_of r.process.cdb) ≡ true → seat_after_run id seat ≡ Some after
            → IsAtSeat hosts (settled_seat after) (seat_time seat (settled_seat after) time now) self.new
            × (self.new.spare ≡ self.old.spare) }
    {
        let before = self.current_process();
        let reply = self.run_live(id, sent);
        self.settle(before, now);
        reply
    }

    fn fail_current(&mut self, id: ProcId, code: u8)
        ensures { self.new ≡ state_after_failure self.old id code }
    {
        let fails = is_same(self.current_process(), Some(id));
        self.reply = reply_of_failure(fails, self.reply, code);
    }

    /// A process fails at `now`, in ns, with CHECK CONDITION, ABORTED COMMAND and this code, the current one or one
    /// outside the queue.
    pub fn fail(&mut self, id: ProcId, code: u8, now: Ns)
        ensures exact { self.new ≡ settled (current_id self.old.books) now (state_after_failure self.old id code) }
        ensures seat { (hosts : List HostDef) (seat after : Seat) (time : ℕ) (ended : Bool) (p : Process)
            → IsAtSeat hosts seat time self.old → p.id ≡ id
            → seat_after_failure ended p (aborted_reply code) seat ≡ Some after
            → IsAtSeat hosts (settled_seat after) (seat_time seat (settled_seat after) time now) self.new }
    {
        let before = self.current_process();
        self.fail_current(id, code);
        self.settle(before, now);
    }

    // The live command of this process ends with the reply that it has, if both are there.
    fn end_live(&mut self, id: ProcId)
        ensures { self.new ≡ state_after_end self.old (key_of_process self.old.books.queue.arrived id) }
    {
        if let (Some(key), Some(reply)) = (self.find(id), self.reply) {
            self.unit.end(key, &reply);
        }
    }

    /// The current process ends at `now`, in ns: its sense, where it has one, is stored, and it leaves.
    pub fn end(&mut self, id: ProcId, now: Ns)
        ensures exact { self.new ≡ settled (current_id self.old.books) now
            (state_after_end self.old (key_of_process self.old.books.queue.arrived id)) }
        ensures seat { (hosts : List HostDef) (seat after : Seat) (time status : ℕ)
            → IsAtSeat hosts seat time self.old → guest_at seat.guests id ≡ None
            → seat_after_end id status seat ≡ Some after
            → IsAtSeat hosts (settled_seat after) (seat_time seat (settled_seat after) time now) self.new }
    {
        let before = self.current_process();
        self.end_live(id);
        self.settle(before, now);
    }

    // What is kept for an initiator after its process outside the queue ended.
    fn keep_guest(&mut self, from: Dev, reply: &Reply, senses: bool)
        requires device { from < 8 }
        ensures { self.new ≡ with_books self.old (books_after_guest self.old.books from reply.now senses) }
    {
        match reply.sense {
            Some(sense) => self.unit.check_guest(from, &sense),
            None if reply.status == GOOD && senses => self.unit.sense_ended(from),
            None => {}
        }
    }

    /// A process of this initiator that stands outside the queue ends at `now`, in ns, with this reply; `senses` says
    /// whether it is a REQUEST SENSE. A sense is stored; a REQUEST SENSE that ends GOOD takes one away.
    pub fn end_guest(&mut self, from: Dev, reply: &Reply, senses: bool, now: Ns)
        requires device { from < 8 }
        ensures exact { self.new ≡ settled (current_id self.old.books) now
            (with_books self.old (books_after_guest self.old.books from reply.now senses)) }
        ensures seat { (hosts : List HostDef) (seat after : Seat) (time status : ℕ) (id : ProcId) (p : Process)
            (given : ArrayReply) → IsAtSeat hosts seat time self.old
            → guest_at seat.guests id ≡ Some (record { process = p; reply = Some given })
            → p.initiator ≡ from → reply.now ≡ told_of given → IsSensing given p senses
            → seat_after_end id status seat ≡ Some after
            → IsAtSeat hosts (settled_seat after) (seat_time seat (settled_seat after) time now) self.new }
    {
        let before = self.current_process();
        self.keep_guest(from, reply, senses);
        self.settle(before, now);
    }

    fn lose_live(&mut self, id: ProcId)
        ensures { self.new ≡ state_after_loss self.old (key_of_process self.old.books.queue.arrived id) }
    {
        if let Some(key) = self.find(id) {
            self.unit.lose(key);
        }
    }

    /// A process is lost at `now`, in ns: where it is in the queue it leaves.
    pub fn lose(&mut self, id: ProcId, now: Ns)
        ensures exact { self.new ≡ settled (current_id self.old.books) now
            (state_after_loss self.old (key_of_process self.old.books.queue.arrived id)) }
        ensures seat { (hosts : List HostDef) (seat after : Seat) (time : ℕ) (ended : Bool)
            → IsAtSeat hosts seat time self.old → seat_after_loss ended id seat ≡ Some after
            → IsAtSeat hosts (settled_seat after) (seat_time seat (settled_seat after) time now) self.new }
    {
        let before = self.current_process();
        self.lose_live(id);
        self.settle(before, now);
    }

    // What an abort takes away, before the choice.
    fn cut(&mut self, kind: AbortKind, by: Dev)
        requires device { by < 8 }
        ensures { IsCut kind by self.old self.new }
    {
        self.unit.abort(kind, by);
    }

    /// An abort message of this initiator ended at `now`, in ns.
    pub fn abort(&mut self, kind: AbortKind, by: Dev, now: Ns)
        requires device { by < 8 }
        ensures exact { (left : SeatedState) × IsCut kind by self.old left
            × (self.new ≡ settled (current_id self.old.books) now left) }
        ensures seat { (hosts : List HostDef) (seat : Seat) (time : ℕ) → IsAtSeat hosts seat time self.old
            → IsAtSeat hosts (settled_seat (seat_after_aborted hosts by kind seat))
            (seat_time seat (settled_seat (seat_after_aborted hosts by kind seat)) time now) self.new }
    {
        let before = self.current_process();
        self.cut(kind, by);
        self.settle(before, now);
    }

    fn clear(&mut self)
        ensures { self.new ≡ with_books self.old (books_after_reset self.old.books) }
    {
        self.unit.reset();
    }

    /// A reset at `now`, in ns: by RST, or of the target by BUS DEVICE RESET.
    pub fn reset(&mut self, now: Ns)
        ensures exact { self.new ≡ settled (current_id self.old.books) now
            (with_books self.old (books_after_reset self.old.books)) }
        ensures seat { (hosts : List HostDef) (seat : Seat) (time : ℕ) → IsAtSeat hosts seat time self.old
            → IsAtSeat hosts (settled_seat (seat_after_reset hosts seat))
            (seat_time seat (settled_seat (seat_after_reset hosts seat)) time now) self.new }
    {
        let before = self.current_process();
        self.clear();
        self.settle(before, now);
    }

    /// Whether an initiator stands in the hold.
    pub fn holds(&self, from: Dev) -> bool
        requires device { from < 8 }
        ensures exact { result ≡ slice_index_or self.now.books.queue.hold from false }
        ensures seat { (hosts : List HostDef) (seat : Seat) (time : ℕ) → IsAtSeat hosts seat time self.now
            → result ≡ seat.hold from }
    {
        self.unit.holds(from)
    }

    /// How many bytes a block has.
    pub fn block_size(&self) -> usize
        ensures exact { result ≡ self.now.contents.size }
        ensures seat { (hosts : List HostDef) (seat : Seat) (time : ℕ) → IsAtSeat hosts seat time self.now
            → result ≡ (contents_of seat.unit).size }
    {
        self.unit.medium().size()
    }

    /// Whether it is a tape, so that its commands conflict with one another.
    pub fn is_serial(&self) -> bool
        ensures exact { result ≡ is_reeled self.now.contents }
        ensures seat { (hosts : List HostDef) (seat : Seat) (time : ℕ) → IsAtSeat hosts seat time self.now
            → result ≡ is_reeled (contents_of seat.unit) }
    {
        self.unit.medium().is_tape()
    }

    /// Its disk or tape, handed out.
    pub fn into_drive(self) -> Drive
        ensures contents { drive_contents result ≡ self.contents }
        ensures spare { drive_spare result ≡ self.spare }
    {
        self.unit.into_medium()
    }

    fn room_now(&self) -> Room
        ensures { result ≡ room_by self.now.books }
    {
        Room {
            full: self.unit.is_full(),
            idle: self.unit.is_empty() && !self.unit.held(),
        }
    }

    /// Whether its queue is full, and whether it is idle: no process is current or waits, and no initiator stands in
    /// the hold.
    pub fn room(&self) -> Room
        ensures exact { result ≡ room_by self.now.books }
        ensures seat { (hosts : List HostDef) (seat : Seat) (time : ℕ) (u : UnitState)
            → IsAtSeat hosts seat time self.now → seat.unit ≡ Some u → result ≡ room_at (is_any_held seat.hold) u }
    {
        self.room_now()
    }

    fn initiator(&self) -> Option<Dev>
        ensures { result ≡ entry_from (current_entry self.now.books) }
    {
        let key = self.unit.current()?;
        Some(self.unit.entry(key).from)
    }

    fn ready_now(&self, unit: u8, seek: u32) -> Option<Ready>
        ensures { result ≡ ready_by_entry unit (min (self.now.since + seek) (2 ^ 64 - 1))
            (is_held self.now.books.queue.hold) (current_entry self.now.books) }
    {
        let initiator = self.initiator()?;
        ready_unless(
            self.unit.held(),
            unit,
            self.since.saturating_add(u64::from(seek)),
            initiator,
        )
    }

    /// The unit of this number, where its current process is ready for a reselection: its seek time after it became
    /// that, unless an initiator stands in the hold.
    pub fn ready(&self, unit: u8, seek: u32) -> Option<Ready>
        ensures exact { result ≡ ready_by_entry unit (min (self.now.since + seek) (2 ^ 64 - 1))
            (is_held self.now.books.queue.hold) (current_entry self.now.books) }
        ensures seat { (hosts : List HostDef) (seat : Seat) (time : ℕ) → IsAtSeat hosts seat time self.now
            → time + seek < 2 ^ 64 → ((r : RunningProcess) → current_of seat.unit ≡ Some r → r.process.unit ≡ unit)
            → result ≡ ready_unit (ready_in (is_any_held seat.hold) (current_of seat.unit) (time + seek)) }
    {
        self.ready_now(unit, seek)
    }

    fn block_now(&self) -> &[u8]
        ensures { result.now ≡ block_under self.now.books self.now.books.queue.current }
    {
        match self.unit.current() {
            Some(key) => self.unit.block(key),
            None => &[],
        }
    }

    /// The command descriptor block of the current process; no bytes where there is none.
    pub fn block(&self) -> &[u8]
        ensures exact { result.now ≡ block_under self.now.books self.now.books.queue.current }
        ensures seat { (hosts : List HostDef) (seat : Seat) (time : ℕ) → IsAtSeat hosts seat time self.now
            → result.now ≡ running_block (current_of seat.unit) }
    {
        self.block_now()
    }

    fn entry(&self) -> Option<Entry>
        ensures { result ≡ current_entry self.now.books }
    {
        let key = self.unit.current()?;
        Some(*self.unit.entry(key))
    }

    /// What the queue keeps of the current process.
    pub fn command(&self) -> Option<Entry>
        ensures exact { result ≡ current_entry self.now.books }
        ensures seat { (hosts : List HostDef) (seat : Seat) (time : ℕ) → IsAtSeat hosts seat time self.now
            → result ≡ running_entry (current_of seat.unit) }
    {
        self.entry()
    }

    /// The reply of the current process, once it has one.
    pub fn reply(&self) -> Option<Reply>
        ensures exact { result ≡ self.now.reply }
        ensures seat { (hosts : List HostDef) (seat : Seat) (time : ℕ) → IsAtSeat hosts seat time self.now
            → result ≡ current_reply (current_of seat.unit) }
    {
        self.reply
    }

    fn plan_now(&self, from: Dev, cdb: &[u8]) -> Plan
        requires device { from < 8 }
        ensures { result ≡ plan_for (slice_index_or self.now.books.attentions from None) cdb.now
            (held_reply self.now.contents cdb.now) (taken_now self.now.contents cdb.now) }
    {
        self.unit.plan_for(from, cdb)
    }

    /// How a command of an initiator would end if it ran now, whether or not it has arrived.
    pub fn plan(&self, from: Dev, cdb: &[u8]) -> Plan
        requires device { from < 8 }
        ensures exact { result ≡ plan_of (execution (seated_context self.now from) cdb.now []).reply
            (taken_in (seated_context self.now from) cdb.now) }
        ensures seat { (hosts : List HostDef) (seat : Seat) (time : ℕ) (sent : List ℕ)
            → IsAtSeat hosts seat time self.now → is_initiator hosts from ≡ true
            → result ≡ plan_of (execution (context_of seat from) cdb.now sent).reply
            (taken_in (context_of seat from) cdb.now) }
    {
        self.plan_now(from, cdb)
    }

    // A part of the data of its stored sense.
    fn fetch_sense(&self, from: Dev, cdb: &[u8], at: u32, into: &mut [u8])
        requires device { from < 8 }
        requires sense { is_request_sense (command_of cdb.now) ≡ true }
        requires within { at + length into.old ≤ length
            (execution (seated_context self.now from) cdb.now []).reply.bytes }
        ensures { into.new ≡ take (length into.old) (drop at
            (execution (seated_context self.now from) cdb.now []).reply.bytes) }
    {
        let data = sense_bytes(&self.unit.sense_for(from));
        copy_part(&data, at, into);
    }

    fn fetch_plain(&self, from: Dev, cdb: &[u8], at: u32, into: &mut [u8])
        requires device { from < 8 }
        requires plain { is_request_sense (command_of cdb.now) ≡ false }
        requires within { at + length into.old ≤ length
            (execution (seated_context self.now from) cdb.now []).reply.bytes }
        ensures { into.new ≡ take (length into.old) (drop at
            (execution (seated_context self.now from) cdb.now []).reply.bytes) }
    {
        self.unit.fetch_for(from, cdb, at, into);
    }

    fn fetch_now(&self, from: Dev, cdb: &[u8], at: u32, into: &mut [u8])
        requires device { from < 8 }
        requires within { at + length into.old ≤ length
            (execution (seated_context self.now from) cdb.now []).reply.bytes }
        ensures { into.new ≡ take (length into.old) (drop at
            (execution (seated_context self.now from) cdb.now []).reply.bytes) }
    {
        if is_sense(cdb) {
            self.fetch_sense(from, cdb, at, into);
        } else {
            self.fetch_plain(from, cdb, at, into);
        }
    }

    /// The bytes of the reply that a command of an initiator would have now, from `at` on, as many as `into` has.
    pub fn fetch(&self, from: Dev, cdb: &[u8], at: u32, into: &mut [u8])
        requires device { from < 8 }
        requires within { at + length into.old ≤ length
            (execution (seated_context self.now from) cdb.now []).reply.bytes }
        ensures exact { into.new ≡ take (length into.old) (drop at
            (execution (seated_context self.now from) cdb.now []).reply.bytes) }
        ensures seat { (hosts : List HostDef) (seat : Seat) (time : ℕ) (sent : List ℕ)
            → IsAtSeat hosts seat time self.now → is_initiator hosts from ≡ true
            → into.new ≡ take (length into.old) (drop at
            (execution (context_of seat from) cdb.now sent).reply.bytes) }
    {
        self.fetch_now(from, cdb, at, into);
    }
}
