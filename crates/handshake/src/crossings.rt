// What a step tells of a byte that crosses (6.1.5.1).
ghost use Rattle.std.specs.Prelude.{ℕ, ◌≡◌, ◌≤◌, List};
ghost use Rattle.std.specs.Option.{ForSome};
ghost use Rattle.bus_trace.specs.declared.rows.Row.{Row};
ghost use Rattle.bus_lines.specs.BusView.{IsBusViewOf};
ghost use Rattle.handshake.specs.Crossings.{is_crossing, crossings, taken_bits, crossed_bits, crossed_byte, is_news, untold_crossing};

use crate::hand::Crossed;
use bus_lines::{BusView, Handshakes, RowEffect};
use bus_trace::Lines;

fn is_crossing(into: bool, effect: &RowEffect) -> bool
    ensures { result ≡ is_crossing into effect.now }
{
    effect.receiver.is_some() && effect.change.before.io() == into
}

/// How many bytes have crossed in the present phase: to the initiator with REQ, to the target with ACK.
pub fn crossings(into: bool, account: &Handshakes) -> u64
    ensures { result ≡ crossings into account.now }
{
    if into {
        account.requests()
    } else {
        account.answers()
    }
}

fn taken_bits(flip: Option<u8>, bits: u16) -> u16
    requires { ForSome flip (λ bit. bit ≤ 8) }
    ensures { result ≡ taken_bits flip bits }
{
    match flip {
        None => bits,
        Some(bit) => bits ^ (1 << bit),
    }
}

fn crossed_bits(bits: u16, atn: bool) -> Crossed
    ensures { result ≡ crossed_bits bits atn }
{
    Crossed {
        byte: (bits % 256) as u8,
        good: bits.count_ones() % 2 == 1,
        atn,
    }
}

fn crossed_byte(lines: Lines, flip: Option<u8>) -> Crossed
    requires { ForSome flip (λ bit. bit ≤ 8) }
    ensures { result ≡ crossed_byte lines flip }
{
    crossed_bits(taken_bits(flip, lines.data_bits()), lines.atn())
}

fn is_news(into: bool, count: u64, effect: &RowEffect, account: &Handshakes) -> bool
    ensures { result ≡ is_news into count effect.now account.now }
{
    is_crossing(into, effect) && count != crossings(into, account)
}

/// The byte that crossed in the last row, where the last step, which knew of `count` bytes, has not told it.
pub fn untold_crossing(into: bool, count: u64, flip: Option<u8>, view: &BusView) -> Option<Crossed>
    requires { ForSome flip (λ bit. bit ≤ 8) }
    ensures { (rows : List Row) → IsBusViewOf rows view.now → result ≡ untold_crossing into count flip rows }
{
    if is_news(into, count, view.effect(), view.handshakes()) {
        Some(crossed_byte(view.bus(), flip))
    } else {
        None
    }
}
