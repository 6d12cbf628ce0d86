//! What the commands of a tape answer, and what they do to it (clause 10.2).
ghost use Rattle.std.specs.Prelude.{◌≡◌, Ok, Some, None, true, ◌+◌, ◌-◌, ◌*◌, ◌≤◌, ◌==◌, ◌||◌, [], length, take, drop, min, nat_abs, if◌then◌else◌};
ghost use Rattle.cdb_codec.specs.declared.status.TheConstants.{GOOD as GOOD_STATUS};
ghost use Rattle.array_model.specs.Execution.{no_sense};
ghost use Rattle.disk_unit.specs.Plans.{plan_of};
ghost use Rattle.array_model.specs.TapeExecution.{edge_detected, end_of_medium_detected, has_room as is_room, is_forward, read_execution, space_execution, write_reply, written_reel, tape_execution, with_reel};
ghost use Rattle.array_model.specs.Reels.{over_blocks, way_from, blocks_of, filemarks, position_after};
ghost use Rattle.tape_unit.specs.Tape.{at, stop_plan, blocks_written, blocks_taken, is_walk, tape_reply};
ghost use Rattle.tape_unit.specs.Stored.{with_tape};

use super::tape::TapeMedium;
use array_model::Stop;
use cdb_codec::{
    BEGINNING_OF_MEDIUM_DETECTED, BLANK_CHECK, CHECK_CONDITION, END_OF_DATA_DETECTED,
    END_OF_MEDIUM, END_OF_MEDIUM_DETECTED, FILEMARK, FILEMARK_DETECTED, GOOD, INQUIRY_LEN,
    NO_ADDITIONAL_SENSE, NO_SENSE, SENSE_LEN, SPACE_BLOCKS, SPACE_FILEMARKS, Sense, TapeCommand,
    VOLUME_OVERFLOW, sense_bytes, tape_inquiry_bytes,
};
use disk_unit::{Plan, copy_from};

// ---- what is met (8.2.14.3)

// With so many left to move over or to write.
fn met(key: u8, qualifier: u8, marks: u8, left: u32) -> Sense
    ensures { result ≡ record {
      key = key;
      asc = 0x00;
      ascq = qualifier;
      marks = marks;
      residue = Some left;
    } }
{
    Sense {
        key,
        asc: NO_ADDITIONAL_SENSE,
        ascq: qualifier,
        marks,
        residue: Some(left),
    }
}

// What a walk meets at the edge.
fn edge(forward: bool, left: u32) -> Sense
    ensures { result ≡ edge_detected forward left }
{
    if forward {
        met(BLANK_CHECK, END_OF_DATA_DETECTED, 0x00, left)
    } else {
        met(NO_SENSE, BEGINNING_OF_MEDIUM_DETECTED, END_OF_MEDIUM, left)
    }
}

// Where there is no room for so many objects.
fn end_of_medium(count: u32) -> Sense
    ensures { result ≡ end_of_medium_detected count }
{
    met(
        VOLUME_OVERFLOW,
        END_OF_MEDIUM_DETECTED,
        END_OF_MEDIUM,
        count,
    )
}

// ---- plans

fn good_plan(in_len: u32, out_len: u32) -> Plan
    ensures { result ≡ record { status = 0x00; sense = None; in_len = in_len; out_len = out_len } }
{
    Plan {
        status: GOOD,
        sense: None,
        in_len,
        out_len,
    }
}

fn check_plan(sense: Sense, in_len: u32, out_len: u32) -> Plan
    ensures { result ≡ record { status = 0x02; sense = Some sense; in_len = in_len; out_len = out_len } }
{
    Plan {
        status: CHECK_CONDITION,
        sense: Some(sense),
        in_len,
        out_len,
    }
}

// How a walk ends that was to move over some more, and gave so many bytes.
fn stop_plan(stop: Stop, forward: bool, left: u32, in_len: u32) -> Plan
    ensures { result ≡ stop_plan stop forward left in_len }
{
    match stop {
        Stop::Count => good_plan(in_len, 0),
        Stop::Filemark => check_plan(met(NO_SENSE, FILEMARK_DETECTED, FILEMARK, left), in_len, 0),
        Stop::Edge => check_plan(edge(forward, left), in_len, 0),
    }
}

// Whether it has room for so many objects from the position on.
fn has_room(tape: &TapeMedium, count: u32) -> bool
    ensures exact { result ≡ is_room tape.now.tape count }
    ensures few { result ≡ true → count ≤ 65536 }
{
    count <= tape.room()
}

// READ (10.2.4).
fn read_plan(tape: &TapeMedium, count: u32) -> Plan
    ensures { result ≡ plan_of (read_execution tape.now.tape count
        (over_blocks (way_from tape.now.tape.reel true) count)).reply 0 }
{
    let walk = tape.over_blocks(true, count);
    stop_plan(
        walk.stop,
        true,
        count - walk.moved,
        walk.moved * tape.size(),
    )
}

// SPACE (10.2.12), to which side it goes and over how many.
fn space_plan(tape: &TapeMedium, code: u8, forward: bool, count: u32) -> Plan
    ensures { result ≡ plan_of (space_execution tape.now.tape code forward count).reply 0 }
{
    if code == SPACE_BLOCKS {
        let walk = tape.over_blocks(forward, count);
        stop_plan(walk.stop, forward, count - walk.moved, 0)
    } else if code == SPACE_FILEMARKS {
        let walk = tape.over_filemarks(forward, count);
        stop_plan(walk.stop, forward, count - walk.moved, 0)
    } else {
        good_plan(0, 0)
    }
}

// How many bytes WRITE takes: none where there is no room for all of its blocks.
fn bytes_taken(tape: &TapeMedium, count: u32) -> u32
    ensures { result ≡ (if is_room tape.now.tape count then count else 0) * tape.now.tape.size }
{
    if has_room(tape, count) {
        count * tape.size()
    } else {
        0
    }
}

// WRITE (10.2.14) and WRITE FILEMARKS (10.2.15), which takes so many bytes.
fn write_plan(tape: &TapeMedium, count: u32, out_len: u32) -> Plan
    ensures { result ≡ plan_of (write_reply tape.now.tape count) out_len }
{
    if count == 0 || has_room(tape, count) {
        good_plan(0, out_len)
    } else {
        check_plan(end_of_medium(count), 0, out_len)
    }
}

fn smaller(room: u8, most: usize) -> u32
    requires { most ≤ 36 }
    ensures { result ≡ min room most }
{
    let room = usize::from(room);
    if room < most {
        room as u32
    } else {
        most as u32
    }
}

/// How a command without fault would end.
pub fn command_plan(tape: &TapeMedium, command: &TapeCommand) -> Plan
    ensures { result ≡ plan_of (tape_execution tape.now.tape no_sense command.now []).reply
        (blocks_taken tape.now.tape (Ok command.now) * tape.now.tape.size) }
{
    match command {
        TapeCommand::TestUnitReady | TapeCommand::Rewind => good_plan(0, 0),
        TapeCommand::RequestSense { room } => good_plan(smaller(*room, SENSE_LEN), 0),
        TapeCommand::Read { count } => read_plan(tape, *count),
        TapeCommand::Write { count } => write_plan(tape, *count, bytes_taken(tape, *count)),
        TapeCommand::Inquiry { room } => good_plan(smaller(*room, INQUIRY_LEN), 0),
        TapeCommand::Filemarks { count } => write_plan(tape, *count, 0),
        TapeCommand::Space { code, count } => {
            space_plan(tape, *code, is_forward(*count), count.unsigned_abs())
        }
    }
}

// SPACE goes backward where its count is negative.
fn is_forward(count: i32) -> bool
    ensures { result ≡ is_forward count }
{
    count >= 0
}

/// Whether a command without fault makes the tape new: where it moves over what it meets, and where it is carried out.
pub fn is_changed(tape: &TapeMedium, command: &TapeCommand) -> bool
    ensures { result ≡ (is_walk (Ok command.now)
        || (tape_execution tape.now.tape no_sense command.now []).reply.status == GOOD_STATUS) }
{
    match command {
        TapeCommand::Write { count } | TapeCommand::Filemarks { count } => {
            *count == 0 || has_room(tape, *count)
        }
        TapeCommand::TestUnitReady
        | TapeCommand::Rewind
        | TapeCommand::RequestSense { room: _ }
        | TapeCommand::Read { count: _ }
        | TapeCommand::Inquiry { room: _ }
        | TapeCommand::Space { code: _, count: _ } => true,
    }
}

/// How many blocks a command without fault writes at most.
pub fn blocks_to_write(command: &TapeCommand) -> u32
    ensures { result ≡ blocks_written (Ok command.now) }
{
    match command {
        TapeCommand::Write { count } => *count,
        TapeCommand::TestUnitReady
        | TapeCommand::Rewind
        | TapeCommand::RequestSense { room: _ }
        | TapeCommand::Read { count: _ }
        | TapeCommand::Inquiry { room: _ }
        | TapeCommand::Filemarks { count: _ }
        | TapeCommand::Space { code: _, count: _ } => 0,
    }
}

// ---- the bytes that are read

const NO_SENSE_AT_ALL: Sense = Sense {
    key: NO_SENSE,
    asc: NO_ADDITIONAL_SENSE,
    ascq: 0x00,
    marks: 0x00,
    residue: None,
};

/// Some of the bytes that a command without fault gives, those from `at` on.
pub fn copy_reply(tape: &TapeMedium, command: &TapeCommand, at: u32, into: &mut [u8])
    requires { at + length into.old ≤ length (tape_execution tape.now.tape no_sense command.now []).reply.bytes }
    ensures { into.new ≡ take (length into.old)
        (drop at (tape_execution tape.now.tape no_sense command.now []).reply.bytes) }
{
    match command {
        TapeCommand::RequestSense { room: _ } => {
            copy_from(&sense_bytes(&NO_SENSE_AT_ALL), at as usize, into);
        }
        TapeCommand::Inquiry { room: _ } => copy_from(&tape_inquiry_bytes(), at as usize, into),
        TapeCommand::Read { count: _ } => tape.copy_ahead(at, into),
        TapeCommand::TestUnitReady
        | TapeCommand::Rewind
        | TapeCommand::Write { count: _ }
        | TapeCommand::Filemarks { count: _ }
        | TapeCommand::Space { code: _, count: _ } => {}
    }
}

// ---- what they do

// Moves past so many objects.
fn pass(tape: &mut TapeMedium, forward: bool, passed: u32)
    requires { passed ≤ length (way_from tape.old.tape.reel forward) }
    ensures { tape.new ≡ with_tape tape.old (at tape.old.tape
        (position_after tape.old.tape.reel.position forward passed)) }
{
    let position = tape.position();
    tape.move_to(if forward {
        position + passed
    } else {
        position - passed
    });
}

fn read(tape: &mut TapeMedium, count: u32)
    ensures { tape.new ≡ with_tape tape.old (with_reel tape.old.tape (read_execution tape.old.tape count
        (over_blocks (way_from tape.old.tape.reel true) count)).reel) }
{
    let walk = tape.over_blocks(true, count);
    pass(tape, true, walk.passed);
}

fn space(tape: &mut TapeMedium, code: u8, forward: bool, count: u32)
    ensures { tape.new ≡ with_tape tape.old (with_reel tape.old.tape
        (space_execution tape.old.tape code forward count).reel) }
{
    if code == SPACE_BLOCKS {
        let walk = tape.over_blocks(forward, count);
        pass(tape, forward, walk.passed);
    } else if code == SPACE_FILEMARKS {
        let walk = tape.over_filemarks(forward, count);
        pass(tape, forward, walk.passed);
    } else {
        let end = tape.len();
        tape.move_to(end);
    }
}

fn write(tape: &mut TapeMedium, count: u32, sent: &[u8])
    requires whole { length sent.now ≡ (if is_room tape.old.tape count then count else 0) * tape.old.tape.size }
    requires room { count ≤ tape.old.spare }
    ensures { tape.new ≡ record {
      tape = with_reel tape.old.tape (written_reel tape.old.tape count (blocks_of tape.old.tape.size count sent.now));
      spare = tape.old.spare - (if is_room tape.old.tape count then count else 0);
    } }
{
    if count != 0 && has_room(tape, count) {
        tape.cut();
        tape.add_blocks(count, sent);
        let end = tape.len();
        tape.move_to(end);
    }
}

fn write_filemarks(tape: &mut TapeMedium, count: u32)
    ensures { tape.new ≡ with_tape tape.old (with_reel tape.old.tape
        (written_reel tape.old.tape count (filemarks count))) }
{
    if count != 0 && has_room(tape, count) {
        tape.cut();
        tape.add_filemarks(count);
        let end = tape.len();
        tape.move_to(end);
    }
}

/// Carries out a command without fault, which sent these bytes.
pub fn carry_out(tape: &mut TapeMedium, command: &TapeCommand, sent: &[u8])
    requires whole { length sent.now ≡ blocks_taken tape.old.tape (Ok command.now) * tape.old.tape.size }
    requires room { blocks_written (Ok command.now) ≤ tape.old.spare }
    ensures { tape.new ≡ record {
      tape = with_reel tape.old.tape (tape_execution tape.old.tape no_sense command.now sent.now).reel;
      spare = tape.old.spare - blocks_taken tape.old.tape (Ok command.now);
    } }
{
    match command {
        TapeCommand::Rewind => tape.move_to(0),
        TapeCommand::Read { count } => read(tape, *count),
        TapeCommand::Write { count } => write(tape, *count, sent),
        TapeCommand::Filemarks { count } => write_filemarks(tape, *count),
        TapeCommand::Space { code, count } => {
            space(tape, *code, is_forward(*count), count.unsigned_abs())
        }
        TapeCommand::TestUnitReady
        | TapeCommand::RequestSense { room: _ }
        | TapeCommand::Inquiry { room: _ } => {}
    }
}
