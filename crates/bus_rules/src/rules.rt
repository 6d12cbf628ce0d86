//! The rules by their numbers.
ghost use Rattle.std.specs.Prelude.{◌≡◌, ◌<◌, [], ◌∷◌};
ghost use Rattle.bus_rules.specs.Rules.{lowest_broken, lowest_at_end, first_broken, test};

use crate::connected::{
    initiator_released, keeps_data_direction, keeps_direction_delay, keeps_freeing, keeps_lines,
    target_released,
};
use crate::free_bus::{
    is_cleared, keeps_arbitration, keeps_arbitration_delay, keeps_free_bus, wins_well,
};
use crate::message_rules::{keeps_attention, keeps_command, keeps_messages};
use crate::order::{is_in_order, is_news};
use crate::reset::{is_quiet_in_reset, is_reset, keeps_reset};
use crate::seen::Seen;
use crate::selection_rules::{
    is_left, keeps_answer, keeps_calling, keeps_end, keeps_losers_off, keeps_reselection,
    keeps_time_out, keeps_winner,
};
use crate::transfer::{
    has_parity, keeps_data, keeps_handshake, keeps_offset, keeps_pulses, keeps_set_up, leaves_well,
};
use crate::verdict::RuleNo;
use bus_base::Ns;
use bus_trace::Row;

/// The lowest rule that a row breaks.
pub fn lowest_broken(seen: &Seen, row: &Row) -> Option<RuleNo>
    requires { row.now.dev < 8 }
    ensures { result ≡ lowest_broken seen.now row.now }
{
    if !is_in_order(seen, row.time) {
        Some(1)
    } else if !is_news(seen, row) {
        Some(2)
    } else if is_reset(seen) {
        if keeps_reset(seen, row) {
            None
        } else {
            Some(28)
        }
    } else {
        lowest_outside_reset(seen, row)
    }
}

// The lowest rule but 1 and 2, where RST is false and does not rise.
fn lowest_outside_reset(seen: &Seen, row: &Row) -> Option<RuleNo>
    requires { row.now.dev < 8 }
    ensures { result ≡ first_broken
        (λ n. test n seen.now row.now)
        (3 ∷ 4 ∷ 5 ∷ 6 ∷ 7 ∷ 8 ∷ 9 ∷ 10 ∷ 11 ∷ 12 ∷ 13 ∷ 14 ∷ 15 ∷ 16 ∷ 17 ∷ 18 ∷ 19 ∷ 20 ∷ 21 ∷ 22 ∷ 23 ∷ 24 ∷ 25 ∷ 26
        ∷ 27 ∷ 28 ∷ []) }
{
    if !keeps_free_bus(seen, row) {
        Some(3)
    } else if !keeps_arbitration(seen, row) {
        Some(4)
    } else if !keeps_arbitration_delay(seen, row) {
        Some(5)
    } else if !wins_well(seen, row) {
        Some(6)
    } else if !keeps_losers_off(seen, row) {
        Some(7)
    } else if !keeps_winner(seen, row) {
        Some(8)
    } else if !keeps_calling(seen, row) {
        Some(9)
    } else if !keeps_answer(seen, row) {
        Some(10)
    } else if !keeps_end(seen, row) {
        Some(11)
    } else if !keeps_time_out(seen, row) {
        Some(12)
    } else if !keeps_reselection(seen, row) {
        Some(13)
    } else {
        lowest_connected(seen, row)
    }
}

// The lowest rule from 14 on, where RST is false and does not rise.
fn lowest_connected(seen: &Seen, row: &Row) -> Option<RuleNo>
    ensures { result ≡ first_broken
        (λ n. test n seen.now row.now) (14 ∷ 15 ∷ 16 ∷ 17 ∷ 18 ∷ 19 ∷ 20 ∷ 21 ∷ 22 ∷ 23 ∷ 24 ∷ 25 ∷ 26 ∷ 27 ∷ 28 ∷ []) }
{
    if !keeps_lines(seen, row) {
        Some(14)
    } else if !keeps_data_direction(seen, row) {
        Some(15)
    } else if !keeps_direction_delay(seen, row) {
        Some(16)
    } else if !has_parity(seen) {
        Some(17)
    } else if !keeps_handshake(seen) {
        Some(18)
    } else if !keeps_set_up(seen, row) {
        Some(19)
    } else if !keeps_data(seen) {
        Some(20)
    } else {
        lowest_pulsed(seen, row)
    }
}

// The lowest rule from 21 on, where RST is false and does not rise.
fn lowest_pulsed(seen: &Seen, row: &Row) -> Option<RuleNo>
    ensures { result ≡ first_broken (λ n. test n seen.now row.now) (21 ∷ 22 ∷ 23 ∷ 24 ∷ 25 ∷ 26 ∷ 27 ∷ 28 ∷ []) }
{
    if !keeps_offset(seen) {
        Some(21)
    } else if !keeps_pulses(seen, row) {
        Some(22)
    } else if !leaves_well(seen) {
        Some(23)
    } else if !keeps_attention(seen, row) {
        Some(24)
    } else if !keeps_messages(seen) {
        Some(25)
    } else if !keeps_command(seen) {
        Some(26)
    } else if !keeps_freeing(seen, row) {
        Some(27)
    } else if !keeps_reset(seen, row) {
        Some(28)
    } else {
        None
    }
}

/// The lowest rule that an end at this time breaks.
pub fn lowest_at_end(seen: &Seen, time: Ns) -> Option<RuleNo>
    ensures { result ≡ lowest_at_end seen.now time }
{
    if !is_in_order(seen, time) {
        Some(1)
    } else if is_reset(seen) {
        if is_quiet_in_reset(seen, time) {
            None
        } else {
            Some(28)
        }
    } else if !is_cleared(seen, time) {
        Some(3)
    } else if !is_left(seen, time) {
        Some(7)
    } else if !initiator_released(seen, time) {
        Some(15)
    } else if !target_released(seen, time) {
        Some(16)
    } else if !is_quiet_in_reset(seen, time) {
        Some(28)
    } else {
        None
    }
}
