//! How many blocks a command moves.
ghost use Rattle.std.specs.Prelude.{◌≡◌};
ghost use Rattle.cdb_codec.specs.Blocks.{blocks_of_6, blocks_moved, tape_blocks_named};

use crate::command::Command;
use crate::tape_command::TapeCommand;

/// How many blocks a command moves: 1 to 256 for READ(6) and WRITE(6), whose count 0 is 256
/// (clauses 9.2.5 and 9.2.20), 0 to 65535 for READ(10) and WRITE(10), and 0 for a command that
/// names no block.
pub fn blocks_moved(command: &Command) -> u32
    ensures { result ≡ blocks_moved command.now }
{
    match command {
        Command::Read6 { lba: _, count } => blocks_of_6(*count),
        Command::Write6 { lba: _, count } => blocks_of_6(*count),
        Command::Read10 { lba: _, count } => u32::from(*count),
        Command::Write10 { lba: _, count } => u32::from(*count),
        Command::TestUnitReady
        | Command::RequestSense { room: _ }
        | Command::Inquiry { room: _ }
        | Command::ReadCapacity => 0,
    }
}

// What a count of READ(6) or WRITE(6) stands for: 0 is 256.
fn blocks_of_6(count: u8) -> u32
    ensures { result ≡ blocks_of_6 count }
{
    if count == 0 { 256 } else { u32::from(count) }
}

/// How many blocks a command of a tape names, below 2^24: those of READ and WRITE (clauses 10.2.4 and 10.2.14), and 0
/// for a command that moves no block. A read may move fewer, where it meets a filemark or the end of data.
pub fn tape_blocks_named(command: &TapeCommand) -> u32
    ensures { result ≡ tape_blocks_named command.now }
{
    match command {
        TapeCommand::Read { count } | TapeCommand::Write { count } => *count,
        TapeCommand::TestUnitReady
        | TapeCommand::Rewind
        | TapeCommand::RequestSense { room: _ }
        | TapeCommand::Inquiry { room: _ }
        | TapeCommand::Filemarks { count: _ }
        | TapeCommand::Space { code: _, count: _ } => 0,
    }
}
