//! From a block to the command of a tape.
ghost use Rattle.std.specs.Prelude.{ℕ, ◌≡◌, ◌<◌, List, Ok, IfOk};
ghost use Rattle.std.specs.List.{AllByRecursion};
ghost use Rattle.cdb_codec.specs.declared.tape_command.TapeCommand.{TapeCommand};
ghost use Rattle.cdb_codec.specs.Cdb.{command_of};
ghost use Rattle.cdb_codec.specs.Kinds.{is_request_sense, is_write, is_tape_request_sense, is_tape_write, shared_command, tape_shared_command};
ghost use Rattle.cdb_codec.specs.TapeCdb.{FitsTape, tape_cdb_bytes, tape_without_ignored, tape_command_of};

use crate::codec::has_group_len;
use crate::command::CdbFault;
use crate::tape_command::TapeCommand;
use crate::tape_fields::tape_fields;
use crate::tape_operation::tape_operation_of;

/// The command that a block says to a tape with blocks of one size (clause 10.2), or the first fault that applies: an
/// operation code that is none of a tape's, a length that is not its group's, a field that is not as it must be, which
/// is a bit that is not 0, Fixed that is not 1, or a code of SPACE that is none of ours. No bytes at all have no
/// operation code to look at: they are a fault of length.
pub fn tape_cdb(bytes: &[u8]) -> Result<TapeCommand, CdbFault>
    ensures exact { result ≡ tape_command_of bytes.now }
    ensures fits { IfOk result FitsTape }
{
    let Some(first) = bytes.first() else {
        return Err(CdbFault::Length);
    };
    let Some(operation) = tape_operation_of(*first) else {
        return Err(CdbFault::Opcode);
    };
    if !has_group_len(bytes) {
        return Err(CdbFault::Length);
    }
    tape_fields(operation, bytes)
}

/// Reading the block of a command gives that command, if its numbers fit their fields.
pub fn tape_reads_back()
    ensures { (c : TapeCommand) → FitsTape c → tape_command_of (tape_cdb_bytes c) ≡ Ok c }
{}

/// A block that a tape reads is the block of the command that it says, but for the bits of byte 1 that are ignored.
pub fn tape_reads_only()
    ensures { (bytes : List ℕ) (c : TapeCommand) → AllByRecursion (λ b. b < 256) bytes → tape_command_of bytes ≡ Ok c
        → tape_cdb_bytes c ≡ tape_without_ignored bytes }
{}

/// The bits of byte 1 that are ignored change nothing: the three high ones, and Immed in REWIND and WRITE FILEMARKS,
/// after which the command is carried out as without it.
pub fn tape_ignores()
    ensures { (bytes : List ℕ) → tape_command_of (tape_without_ignored bytes) ≡ tape_command_of bytes }
{}

/// A disk and a tape read alike which blocks are TEST UNIT READY, REQUEST SENSE and INQUIRY, with the same room. So
/// they agree on which are REQUEST SENSE without fault; and of the commands of a tape, on which write blocks. A target
/// may look at a block for these before it knows what its unit is.
pub fn readings_agree()
    ensures shared { (bytes : List ℕ)
        → tape_shared_command (tape_command_of bytes) ≡ shared_command (command_of bytes) }
    ensures senses { (bytes : List ℕ)
        → is_tape_request_sense (tape_command_of bytes) ≡ is_request_sense (command_of bytes) }
    ensures writes { (bytes : List ℕ) (c : TapeCommand) → tape_command_of bytes ≡ Ok c
        → is_write (command_of bytes) ≡ is_tape_write (Ok c) }
{}
