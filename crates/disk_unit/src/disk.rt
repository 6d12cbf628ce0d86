//! A disk as a medium: what the eight commands do to its blocks (ANSI X3.131-1994, 8.2 and 9.2).
ghost use Rattle.std.specs.Prelude.{◌≡◌, refl, ℕ, min, Ok, ◌+◌, ◌-◌, ◌*◌, ◌<◌, ◌≤◌, ◌&&◌, ◌==◌, if◌then◌else◌, Bool, true, false, List, [], length, take, drop, nat_lt, nat_le};
ghost use Rattle.cdb_codec.specs.Cdb.{command_of};
ghost use Rattle.cdb_codec.specs.declared.status.TheConstants.{GOOD as GOOD_STATUS};
ghost use Rattle.cdb_codec.specs.Blocks.{blocks_moved as blocks_of};
ghost use Rattle.array_model.specs.scenario.specs.Needs.{is_write as writes_by};
ghost use Rattle.array_model.specs.Contents.{bytes_at, with_bytes};
ghost use Rattle.cdb_codec.specs.Replies.{plain_sense, capacity_data};
ghost use Rattle.array_model.specs.Execution.{Reply, is_good_range, range_of, command_execution, cdb_execution, range_execution, check_condition, good};
ghost use Rattle.array_model.specs.Order.{range_in, first_in, count_in};
ghost use Rattle.disk_unit.specs.Plans.{plan_of};
ghost use Rattle.disk_unit.specs.Disk.{disk_context, disk_execution, disk_reply, is_changed, blocks_written, disk_extent, written_of, bytes_in, command_reply, written_if};

use super::blocks::{Blocks, copy_from};
use super::media::{Extent, Medium, Plan};
use super::transfer::{read_bytes, write_bytes};
use cdb_codec::{
    BLOCK_OUT_OF_RANGE, CAPACITY_LEN, CHECK_CONDITION, CdbFault, Command, GOOD, ILLEGAL_REQUEST,
    INQUIRY_LEN, INVALID_FIELD, INVALID_OPERATION_CODE, NO_ADDITIONAL_SENSE, NO_SENSE, SENSE_LEN,
    Sense, blocks_moved, capacity_bytes, from_cdb, inquiry_bytes, sense_bytes,
};

/// A disk of these blocks.
#[derive(Drop)]
pub struct DiskMedium<B> {
    blocks: B,
}

fn first_block(command: &Command) -> u32
    ensures { result ≡ first_in (range_of command.now) }
{
    match command {
        Command::Read6 { lba, count: _ }
        | Command::Write6 { lba, count: _ }
        | Command::Read10 { lba, count: _ }
        | Command::Write10 { lba, count: _ } => *lba,
        Command::TestUnitReady
        | Command::RequestSense { room: _ }
        | Command::Inquiry { room: _ }
        | Command::ReadCapacity => 0,
    }
}

fn block_count(command: &Command) -> u32
    ensures { result ≡ count_in (range_of command.now) }
{
    blocks_moved(command)
}

fn is_write(command: &Command) -> bool
    ensures { result ≡ writes_by (Ok command.now) }
{
    matches!(
        command,
        Command::Write6 { lba: _, count: _ } | Command::Write10 { lba: _, count: _ }
    )
}

// Whether the blocks that it names are the unit's, of which there are so many.
fn is_within(command: &Command, blocks: u64) -> bool
    ensures { result ≡ is_good_range blocks (range_of command.now) }
{
    match command {
        Command::Read6 { lba, count: _ }
        | Command::Write6 { lba, count: _ }
        | Command::Read10 { lba, count: _ }
        | Command::Write10 { lba, count: _ } => {
            let first = u64::from(*lba);
            first < blocks && first + u64::from(blocks_moved(command)) <= blocks
        }
        Command::TestUnitReady
        | Command::RequestSense { room: _ }
        | Command::Inquiry { room: _ }
        | Command::ReadCapacity => true,
    }
}

fn smaller(room: u8, most: usize) -> u32
    requires { most ≤ 36 }
    ensures { result ≡ min room most }
{
    let room = usize::from(room);
    if room < most {
        room as u32
    } else {
        most as u32
    }
}

fn blocks_of_6(count: u8) -> u32
    ensures exact { result ≡ (if count == 0 then 256 else count) }
    ensures most { result ≤ 256 }
{
    if count == 0 { 256 } else { u32::from(count) }
}

fn bytes_of(count: u32, size: usize) -> u32
    requires most { count ≤ 65535 }
    requires most_size { size ≤ 2048 }
    ensures { result ≡ count * size }
{
    count * size as u32
}

// How many bytes go to the initiator where the command is carried out.
fn bytes_to_initiator(command: &Command, size: usize) -> u32
    requires { size ≤ 2048 }
    ensures { result ≡ bytes_in command.now size }
{
    match command {
        Command::RequestSense { room } => smaller(*room, SENSE_LEN),
        Command::Inquiry { room } => smaller(*room, INQUIRY_LEN),
        Command::ReadCapacity => CAPACITY_LEN as u32,
        Command::Read6 { lba: _, count } => bytes_of(blocks_of_6(*count), size),
        Command::Read10 { lba: _, count } => bytes_of(u32::from(*count), size),
        Command::TestUnitReady
        | Command::Write6 { lba: _, count: _ }
        | Command::Write10 { lba: _, count: _ } => 0,
    }
}

// How many blocks it writes.
fn blocks_to_write(command: &Command) -> u32
    ensures { result ≡ written_of command.now }
{
    if is_write(command) {
        blocks_moved(command)
    } else {
        0
    }
}

// A command that is not carried out.
fn refusal(asc: u8) -> Plan
    ensures { result ≡ plan_of (check_condition (plain_sense 0x05 asc 0x00)) 0 }
{
    Plan {
        status: CHECK_CONDITION,
        sense: Some(Sense::plain(ILLEGAL_REQUEST, asc, 0x00)),
        in_len: 0,
        out_len: 0,
    }
}

// Some of these bytes, from `at` on.
fn copy_part(bytes: &[u8], at: u32, into: &mut [u8])
    requires within { at + length into.old ≤ length bytes.now }
    ensures { into.new ≡ take (length into.old) (drop at bytes.now) }
{
    copy_from(bytes, at as usize, into);
}

// The last block and the size of one.
fn capacity<B: Blocks>(blocks: &B) -> [u8; CAPACITY_LEN]
    ensures { result ≡ capacity_data ((B.contents blocks.now).count - 1) (B.contents blocks.now).size }
{
    let last = blocks.count() - 1;
    let size = blocks.size();
    capacity_bytes(last as u32, size as u32)
}

const NO_SENSE_AT_ALL: Sense = Sense {
    key: NO_SENSE,
    asc: NO_ADDITIONAL_SENSE,
    ascq: 0x00,
    marks: 0x00,
    residue: None,
};

// The bytes that a command without fault gives.
#[tactic(auto, using(crate::proofs::Replies::take_part))]
fn read_reply<B: Blocks>(blocks: &B, command: &Command, at: u32, into: &mut [u8])
    requires good { is_good_range (B.contents blocks.now).count (range_of command.now) ≡ true }
    requires within { at + length into.old ≤ length (command_reply (B.contents blocks.now) command.now).bytes }
    ensures { into.new ≡ take (length into.old) (drop at (command_reply (B.contents blocks.now) command.now).bytes) }
{
    match command {
        Command::RequestSense { room: _ } => copy_part(&sense_bytes(&NO_SENSE_AT_ALL), at, into),
        Command::Inquiry { room: _ } => copy_part(&inquiry_bytes(true), at, into),
        Command::ReadCapacity => copy_part(&capacity(blocks), at, into),
        Command::Read6 { lba, count } => read_within(blocks, *lba, blocks_of_6(*count), at, into),
        Command::Read10 { lba, count } => read_within(blocks, *lba, u32::from(*count), at, into),
        Command::TestUnitReady
        | Command::Write6 { lba: _, count: _ }
        | Command::Write10 { lba: _, count: _ } => {}
    }
}

// The bytes of a range that is good.
fn read_within<B: Blocks>(blocks: &B, lba: u32, count: u32, at: u32, into: &mut [u8])
    requires good { (nat_lt lba (B.contents blocks.now).count
        && nat_le (lba + count) (B.contents blocks.now).count) ≡ true }
    requires part { at + length into.old ≤ length (bytes_at (B.contents blocks.now) lba count) }
    ensures { into.new ≡ take (length into.old) (drop at (bytes_at (B.contents blocks.now) lba count)) }
{
    let _ = blocks.count();
    read_bytes(blocks, lba, count, at, into);
}

// What a command without fault writes.
fn write_reply<B: Blocks>(blocks: &mut B, command: &Command, sent: &[u8])
    requires good { is_good_range (B.contents blocks.old).count (range_of command.now) ≡ true }
    requires whole { length sent.now ≡ written_of command.now * (B.contents blocks.old).size }
    requires room { written_of command.now ≤ B.spare_blocks blocks.old }
    ensures exact { B.contents blocks.new
        ≡ (command_execution (disk_context (B.contents blocks.old)) command.now sent.now).contents }
    ensures lowered { B.spare_blocks blocks.old ≤ B.spare_blocks blocks.new + written_of command.now }
{
    match command {
        Command::Write6 { lba, count } => write_within(blocks, *lba, blocks_of_6(*count), sent),
        Command::Write10 { lba, count } => write_within(blocks, *lba, u32::from(*count), sent),
        Command::TestUnitReady
        | Command::RequestSense { room: _ }
        | Command::Inquiry { room: _ }
        | Command::ReadCapacity
        | Command::Read6 { lba: _, count: _ }
        | Command::Read10 { lba: _, count: _ } => {}
    }
}

// The blocks of a range that is good.
fn write_within<B: Blocks>(blocks: &mut B, lba: u32, count: u32, sent: &[u8])
    requires good { (nat_lt lba (B.contents blocks.old).count
        && nat_le (lba + count) (B.contents blocks.old).count) ≡ true }
    requires whole { length sent.now ≡ count * (B.contents blocks.old).size }
    requires room { count ≤ B.spare_blocks blocks.old }
    ensures written { B.contents blocks.new ≡ with_bytes (B.contents blocks.old) lba count sent.now }
    ensures lowered { B.spare_blocks blocks.old ≤ B.spare_blocks blocks.new + count }
{
    let _ = blocks.count();
    write_bytes(blocks, lba, count, sent);
}

// How a command without fault ends, where its blocks are the unit's.
#[tactic(auto, using(crate::proofs::Replies::reply_length))]
fn good_plan<B: Blocks>(blocks: &B, command: &Command) -> Plan
    ensures { result ≡ plan_of
        (command_reply (B.contents blocks.now) command.now) (written_of command.now * (B.contents blocks.now).size) }
{
    let size = blocks.size();
    Plan {
        status: GOOD,
        sense: None,
        in_len: bytes_to_initiator(command, size),
        out_len: bytes_to_target(command, size),
    }
}

fn bytes_to_target(command: &Command, size: usize) -> u32
    requires { size ≤ 2048 }
    ensures { result ≡ written_of command.now * size }
{
    match command {
        Command::Write6 { lba: _, count } => bytes_of(blocks_of_6(*count), size),
        Command::Write10 { lba: _, count } => bytes_of(u32::from(*count), size),
        Command::TestUnitReady
        | Command::RequestSense { room: _ }
        | Command::Inquiry { room: _ }
        | Command::ReadCapacity
        | Command::Read6 { lba: _, count: _ }
        | Command::Read10 { lba: _, count: _ } => 0,
    }
}

// How a command without fault ends.
fn plan_in_range<B: Blocks>(blocks: &B, command: &Command) -> Plan
    ensures { result ≡ plan_of
        (range_execution (disk_context (B.contents blocks.now)) command.now []).reply
        (written_if (B.contents blocks.now).count command.now * (B.contents blocks.now).size) }
{
    if is_within(command, blocks.count()) {
        good_plan(blocks, command)
    } else {
        refusal(BLOCK_OUT_OF_RANGE)
    }
}

// How many blocks it writes, none where it names others than the unit's.
fn blocks_if_within<B: Blocks>(blocks: &B, command: &Command) -> u32
    ensures { result ≡ written_if (B.contents blocks.now).count command.now }
{
    if is_within(command, blocks.count()) {
        blocks_to_write(command)
    } else {
        0
    }
}

#[tactic(auto, using(crate::proofs::Replies::carried_out))]
fn is_done<B: Blocks>(blocks: &B, command: &Command) -> bool
    ensures { result ≡ ((range_execution (disk_context
        (B.contents blocks.now)) command.now []).reply.status == GOOD_STATUS) }
{
    is_within(command, blocks.count())
}

fn read_in_range<B: Blocks>(blocks: &B, command: &Command, at: u32, into: &mut [u8])
    requires within { at + length into.old
        ≤ length (range_execution (disk_context (B.contents blocks.now)) command.now []).reply.bytes }
    ensures { into.new ≡ take (length into.old) (drop at
        (range_execution (disk_context (B.contents blocks.now)) command.now []).reply.bytes) }
{
    if is_within(command, blocks.count()) {
        read_reply(blocks, command, at, into);
    }
}

fn write_in_range<B: Blocks>(blocks: &mut B, command: &Command, sent: &[u8])
    requires whole { length sent.now
        ≡ written_if (B.contents blocks.old).count command.now * (B.contents blocks.old).size }
    requires room { written_if (B.contents blocks.old).count command.now ≤ B.spare_blocks blocks.old }
    ensures exact { B.contents blocks.new
        ≡ (range_execution (disk_context (B.contents blocks.old)) command.now sent.now).contents }
    ensures lowered { B.spare_blocks blocks.old
        ≤ B.spare_blocks blocks.new + written_if (B.contents blocks.old).count command.now }
{
    if is_within(command, blocks.count()) {
        write_reply(blocks, command, sent);
    }
}

fn extent_of(command: &Command) -> Extent
    ensures { result ≡ record {
      first = first_in (range_of command.now);
      count = count_in
          (range_of command.now);
      writes = writes_by (Ok command.now);
    } }
{
    Extent {
        first: first_block(command),
        count: block_count(command),
        writes: is_write(command),
    }
}

impl<B: Blocks> DiskMedium<B> {
    /// The disk of these blocks.
    pub fn new(blocks: B) -> DiskMedium<B>
        ensures { result.blocks ≡ blocks }
    {
        DiskMedium { blocks }
    }

    /// Its blocks.
    pub fn blocks(&self) -> &B
        ensures { result.now ≡ self.now.blocks }
    {
        &self.blocks
    }

    /// Its blocks, handed out.
    pub fn into_blocks(self) -> B
        ensures { result ≡ self.blocks }
    {
        self.blocks
    }
}

impl<B: Blocks> Medium for DiskMedium<B> {
    ghost spare_blocks = { λ m. B.spare_blocks m.blocks };

    ghost reply_to = { λ m cdb. disk_reply (B.contents m.blocks) cdb };

    ghost taken_by = { λ m cdb. blocks_written (B.contents m.blocks).count (command_of cdb)
        * (B.contents m.blocks).size };

    ghost written_by = { λ m cdb. blocks_written (B.contents m.blocks).count (command_of cdb) };

    ghost named_by = { λ m cdb. disk_extent cdb };

    ghost is_changed_by = { λ m cdb. is_changed (B.contents m.blocks) cdb };

    ghost Becomes = { λ m cdb sent new. B.contents new.blocks
        ≡ (disk_execution (B.contents m.blocks) cdb sent).contents };

    ghost names_stay = { λ before after cdb sent block h. refl };

    fn spare(&self) -> u64 {
        self.blocks.spare()
    }

    fn cost(&self, cdb: &[u8]) -> u64 {
        match from_cdb(cdb) {
            Ok(command) => u64::from(blocks_if_within(&self.blocks, &command)),
            Err(_) => 0,
        }
    }

    fn plan(&self, cdb: &[u8]) -> Plan {
        match from_cdb(cdb) {
            Ok(command) => plan_in_range(&self.blocks, &command),
            Err(CdbFault::Opcode) => refusal(INVALID_OPERATION_CODE),
            Err(CdbFault::Length) => refusal(INVALID_FIELD),
            Err(CdbFault::Field) => refusal(INVALID_FIELD),
        }
    }

    fn extent(&self, cdb: &[u8]) -> Extent {
        match from_cdb(cdb) {
            Ok(command) => extent_of(&command),
            Err(_) => Extent {
                first: 0,
                count: 0,
                writes: false,
            },
        }
    }

    fn fetch(&self, cdb: &[u8], at: u32, into: &mut [u8]) {
        if let Ok(command) = from_cdb(cdb) {
            read_in_range(&self.blocks, &command, at, into);
        }
    }

    fn commit(&mut self, cdb: &[u8], sent: &[u8]) {
        if let Ok(command) = from_cdb(cdb) {
            write_in_range(&mut self.blocks, &command, sent);
        }
    }

    fn changes(&self, cdb: &[u8]) -> bool {
        match from_cdb(cdb) {
            Ok(command) => is_done(&self.blocks, &command),
            Err(_) => false,
        }
    }
}
