//! A tape as a medium of a logical unit.
ghost use Rattle.std.specs.Prelude.{◌≡◌, refl};
ghost use Rattle.disk_unit.specs.Plans.{plan_of};
ghost use Rattle.array_model.specs.Execution.{check_condition, invalid_opcode, invalid_field};
ghost use Rattle.cdb_codec.specs.Replies.{plain_sense};
ghost use Rattle.tape_unit.specs.Tape.{tape_reply, taken_now, cost_of, tape_extent, is_changed};
ghost use Rattle.tape_unit.specs.Stored.{store_after};

use super::commands::{blocks_to_write, carry_out, command_plan, copy_reply, is_changed};
use super::tape::TapeMedium;
use cdb_codec::{
    CHECK_CONDITION, CdbFault, ILLEGAL_REQUEST, INVALID_FIELD, INVALID_OPERATION_CODE, Sense,
    tape_cdb,
};
use disk_unit::{Extent, Medium, Plan};

// A command that is not carried out.
fn refusal(asc: u8) -> Plan
    ensures { result ≡ plan_of (check_condition (plain_sense 0x05 asc 0x00)) 0 }
{
    Plan {
        status: CHECK_CONDITION,
        sense: Some(Sense::plain(ILLEGAL_REQUEST, asc, 0x00)),
        in_len: 0,
        out_len: 0,
    }
}

/// How many blocks a command writes at a tape at most, whatever that holds.
pub fn tape_cost(cdb: &[u8]) -> u64
    ensures { result ≡ cost_of cdb.now }
{
    match tape_cdb(cdb) {
        Ok(command) => u64::from(blocks_to_write(&command)),
        Err(_) => 0,
    }
}

impl Medium for TapeMedium {
    ghost spare_blocks = { λ m. m.spare };

    ghost reply_to = { λ m cdb. tape_reply m.tape cdb };

    ghost taken_by = { λ m cdb. taken_now m.tape cdb };

    ghost written_by = { λ m cdb. cost_of cdb };

    ghost named_by = { λ m cdb. tape_extent };

    ghost is_changed_by = { λ m cdb. is_changed m.tape cdb };

    ghost Becomes = { λ m cdb sent new. new ≡ store_after m cdb sent };

    ghost names_stay = { λ before after cdb sent block h. refl };

    fn spare(&self) -> u64 {
        u64::from(self.spare_blocks())
    }

    fn cost(&self, cdb: &[u8]) -> u64 {
        tape_cost(cdb)
    }

    fn plan(&self, cdb: &[u8]) -> Plan {
        match tape_cdb(cdb) {
            Ok(command) => command_plan(self, &command),
            Err(CdbFault::Opcode) => refusal(INVALID_OPERATION_CODE),
            Err(CdbFault::Length) => refusal(INVALID_FIELD),
            Err(CdbFault::Field) => refusal(INVALID_FIELD),
        }
    }

    fn extent(&self, _cdb: &[u8]) -> Extent {
        Extent {
            first: 0,
            count: 1,
            writes: true,
        }
    }

    fn fetch(&self, cdb: &[u8], at: u32, into: &mut [u8]) {
        if let Ok(command) = tape_cdb(cdb) {
            copy_reply(self, &command, at, into);
        }
    }

    fn commit(&mut self, cdb: &[u8], sent: &[u8]) {
        if let Ok(command) = tape_cdb(cdb) {
            carry_out(self, &command, sent);
        }
    }

    fn changes(&self, cdb: &[u8]) -> bool {
        match tape_cdb(cdb) {
            Ok(command) => is_changed(self, &command),
            Err(_) => false,
        }
    }
}
