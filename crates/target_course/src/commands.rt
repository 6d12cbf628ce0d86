//! What a command block says of its data and of its place (ANSI X3.131-1994, 7.2 and 9.2).
ghost use Rattle.std.specs.Prelude.{◌≡◌};
ghost use Rattle.cdb_codec.specs.Cdb.{has_group_len};
ghost use Rattle.scenario.specs.Needs.{is_write};
ghost use Rattle.array_model.specs.Execution.{is_request_sense};
ghost use Rattle.array_model.specs.Order.{range_in};
ghost use Rattle.due_model.specs.Tasks.{blocks_in};

use cdb_codec::{CdbFault, Command, blocks_moved, group_len};

/// Whether its data go to the target.
pub fn is_write(command: &Result<Command, CdbFault>) -> bool
    ensures { result ≡ is_write command.now }
{
    matches!(
        command,
        Ok(Command::Write6 { lba: _, count: _ } | Command::Write10 { lba: _, count: _ })
    )
}

/// Whether it is a REQUEST SENSE without fault (7.5).
pub fn is_request_sense(command: &Result<Command, CdbFault>) -> bool
    ensures { result ≡ is_request_sense command.now }
{
    matches!(command, Ok(Command::RequestSense { room: _ }))
}

/// How many blocks it names, where it reads or writes blocks.
pub fn blocks_named(command: &Result<Command, CdbFault>) -> Option<u32>
    ensures { result ≡ blocks_in (range_in command.now) }
{
    match command {
        Ok(
            command @ (Command::Read6 { lba: _, count: _ }
            | Command::Write6 { lba: _, count: _ }
            | Command::Read10 { lba: _, count: _ }
            | Command::Write10 { lba: _, count: _ }),
        ) => Some(blocks_moved(command)),
        _ => None,
    }
}

/// Whether there are as many bytes as the group of the first one has (7.2).
pub fn is_whole(block: &[u8]) -> bool
    ensures { result ≡ has_group_len block.now }
{
    let Some(first) = block.first() else {
        return false;
    };
    match group_len(*first) {
        Some(length) => length == block.len(),
        None => false,
    }
}
