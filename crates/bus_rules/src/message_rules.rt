//! Rules 24 to 26: attention, messages, and the bytes of the command (ANSI X3.131-1994, 6.2.1, 6.6 and 7.2).
ghost use Rattle.std.specs.Prelude.{◌≡◌};
ghost use Rattle.bus_rules.specs.Messages.{atn_false_since, negates_atn_well, is_owed, heeds_atn, keeps_attention, is_unknown, is_opening, same_bool, opens_well, leaves_message_well, settles_offers, keeps_messages, is_below, may_take, is_same_length, is_none_or_all, keeps_command};

use crate::seen::Seen;
use crate::transfer::crosses;
use bus_base::Ns;
use bus_phases::{CommandBytes, Duty, Reading};
use bus_trace::{
    Row, TWO_DESKEW, changes_phase, falls, is_command, is_data, is_message_in, is_message_out,
    rises,
};
use cdb_codec::group_len;

fn atn_false_since(seen: &Seen, time: Ns) -> Ns
    ensures { result ≡ atn_false_since seen.now time }
{
    if falls(seen.change.before.atn(), seen.change.after.atn()) {
        time
    } else {
        seen.times.atn
    }
}

fn negates_atn_well(seen: &Seen, time: Ns) -> bool
    ensures { result ≡ negates_atn_well seen.now time }
{
    let (before, after) = (seen.change.before, seen.change.after);
    if !is_message_out(before) {
        return true;
    }
    let is_last = rises(before.ack(), after.ack()) && !after.atn();
    (!falls(before.atn(), after.atn()) || !before.ack())
        && (!is_last || time.saturating_sub(atn_false_since(seen, time)) >= TWO_DESKEW)
}

/// Whether the next REQ has to be in MESSAGE OUT.
pub fn is_owed(duty: Duty) -> bool
    ensures { result ≡ is_owed duty }
{
    match duty {
        Duty::Owed => true,
        Duty::Nothing | Duty::Asked => false,
    }
}

fn heeds_atn(seen: &Seen) -> bool
    ensures { result ≡ heeds_atn seen.now }
{
    let asks = rises(seen.change.before.req(), seen.change.after.req());
    !(asks && is_owed(seen.duty)) || is_message_out(seen.change.before)
}

/// Rule 24: ATN is negated before the last byte of MESSAGE OUT, and the target heeds it.
pub fn keeps_attention(seen: &Seen, row: &Row) -> bool
    ensures { result ≡ keeps_attention seen.now row.now }
{
    seen.connection.is_none() || (negates_atn_well(seen, row.time) && heeds_atn(seen))
}

fn is_unknown(reading: Reading) -> bool
    ensures { result ≡ is_unknown reading }
{
    match reading {
        Reading::Unknown => true,
        Reading::NoMessage | Reading::Half | Reading::Opens | Reading::Other => false,
    }
}

fn is_opening(reading: Reading) -> bool
    ensures { result ≡ is_opening reading }
{
    match reading {
        Reading::Opens => true,
        Reading::NoMessage | Reading::Half | Reading::Unknown | Reading::Other => false,
    }
}

fn opens_well(seen: &Seen) -> bool
    ensures { result ≡ opens_well seen.now seen.now.connection }
{
    match seen.connection {
        None => true,
        Some(connection) => {
            !(crosses(seen) && !seen.begun)
                || (is_opening(seen.reading) && connection.reselected == seen.change.before.io())
        }
    }
}

fn leaves_message_well(seen: &Seen) -> bool
    ensures { result ≡ leaves_message_well seen.now }
{
    let (before, after) = (seen.change.before, seen.change.after);
    let broken_off = is_message_in(before) && before.atn();
    !(changes_phase(&seen.change) && seen.is_half)
        || (broken_off || falls(before.bsy(), after.bsy()))
}

fn settles_offers(seen: &Seen) -> bool
    ensures { result ≡ settles_offers seen.now }
{
    !(crosses(seen) && is_data(seen.change.before)) || !seen.is_open
}

/// Rule 25: a connection opens with its messages, the bytes of a MESSAGE phase form whole messages, and an open
/// synchronous data transfer request is settled before DATA.
pub fn keeps_messages(seen: &Seen) -> bool
    ensures { result ≡ keeps_messages seen.now }
{
    opens_well(seen)
        && !is_unknown(seen.reading)
        && leaves_message_well(seen)
        && settles_offers(seen)
}

// Whether one byte of COMMAND more may cross.
fn may_take(command: CommandBytes, byte: u8) -> bool
    ensures { result ≡ may_take command byte }
{
    if command.count == 0 {
        return group_len(byte).is_some();
    }
    match group_len(command.first) {
        None => false,
        Some(length) => command.count < length as u64,
    }
}

/// Whether no byte of COMMAND has crossed, or all have.
pub fn is_none_or_all(command: CommandBytes) -> bool
    ensures { result ≡ is_none_or_all command }
{
    if command.count == 0 {
        return true;
    }
    match group_len(command.first) {
        None => false,
        Some(length) => command.count == length as u64,
    }
}

/// Rule 26: bytes of COMMAND cross up to the length of the command, and bytes of DATA once it stands whole.
pub fn keeps_command(seen: &Seen) -> bool
    ensures { result ≡ keeps_command seen.now }
{
    if !crosses(seen) {
        return true;
    }
    let (before, byte) = (seen.change.before, seen.change.after.data());
    (!is_command(before) || may_take(seen.command, byte))
        && (!is_data(before) || is_none_or_all(seen.command))
}
