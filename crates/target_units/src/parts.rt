//! What units of both kinds need: a part of some bytes, and which commands are REQUEST SENSE.
ghost use Rattle.std.specs.Prelude.{◌≡◌, ◌≤◌, ◌+◌, length, take, drop};
ghost use Rattle.cdb_codec.specs.Cdb.{command_of};
ghost use Rattle.array_model.specs.Execution.{is_request_sense};

use cdb_codec::{CdbFault, Command, from_cdb};
use disk_unit::heeds_attention;

/// Some of these bytes, from `at` on.
pub fn copy_part(bytes: &[u8], at: u32, into: &mut [u8])
    requires within { at + length into.old ≤ length bytes.now }
    ensures { into.new ≡ take (length into.old) (drop at bytes.now) }
{
    let at = at as usize;
    into.copy_from_slice(&bytes[at..at + into.len()]);
}

fn is_request_sense(command: Result<Command, CdbFault>) -> bool
    ensures { result ≡ is_request_sense command }
{
    matches!(command, Ok(Command::RequestSense { room: _ }))
}

/// Whether these bytes are a REQUEST SENSE without fault. The operation code tells it of most that are none.
pub fn is_sense(cdb: &[u8]) -> bool
    ensures { result ≡ is_request_sense (command_of cdb.now) }
{
    if heeds_attention(cdb) {
        return false;
    }
    is_request_sense(from_cdb(cdb))
}
