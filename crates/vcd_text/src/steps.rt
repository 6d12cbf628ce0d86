//! What each token does.
ghost use Rattle.std.specs.Prelude.{◌≡◌, ◌<◌, ◌^◌, ◌∷◌, ◌++◌, [], IfOk, IfSome, OnOk};
ghost use Rattle.vcd_text.specs.Steps.{going, scaled, keyword, coded, is_new_device, named, timed, is_other, after_change, changed, driven, valued, step_by, step, Steps};
ghost use Rattle.vcd_text.specs.Codes.{device_of};
ghost use Rattle.vcd_text.specs.Tokens.{device_named};
ghost use Rattle.vcd_text.specs.declared.awaits.Awaits.TheVariants.{VarRange};

use crate::awaits::Awaits;
use crate::dump::Dump;
use crate::tokens::{
    after_change_keyword, after_keyword, after_part, after_value, decimal, device_named, given,
    is_letter, is_state, is_word,
};
use bus_base::Dev;
use bus_trace::Lines;
use std::alloc::{AllocError, Global};

// Goes on, where the token is one that the form allows.
fn go(dump: &mut Dump, next: Option<Awaits>) -> bool
    ensures { Steps result dump.old dump.new (going dump.old next) }
{
    match next {
        Some(next) => {
            dump.awaits = next;
            true
        }
        None => false,
    }
}

fn scale(dump: &mut Dump) -> bool
    ensures { Steps result dump.old dump.new (scaled dump.old) }
{
    if dump.has_timescale {
        return false;
    }
    dump.has_timescale = true;
    dump.awaits = Awaits::Timescale;
    true
}

fn keyword(dump: &mut Dump, token: &[u8]) -> bool
    ensures { Steps result dump.old dump.new (keyword dump.old token.now) }
{
    if is_word(b"$timescale", token) {
        scale(dump)
    } else {
        let next = after_keyword(dump.has_timescale, token);
        go(dump, next)
    }
}

// The code of a variable.
fn declare(alloc: Global, dump: &mut Dump, is_wide: bool, token: &[u8]) -> Result<(), AllocError>
    ensures { OnOk result (dump.new ≡ coded is_wide dump.old token.now) }
{
    dump.code.clear();
    dump.code.add(token)?;
    dump.codes.add(alloc, token)?;
    dump.awaits = Awaits::VarName(is_wide);
    Ok(())
}

fn is_new_device(dump: &Dump, is_wide: bool, device: Dev) -> bool
    ensures { result ≡ is_new_device is_wide dump.now device (device_of dump.now.devices dump.now.code) }
{
    is_wide && !dump.devices.has(device) && dump.devices.device_of(dump.code.as_slice()).is_none()
}

fn add_device(alloc: Global, dump: &mut Dump, device: Dev) -> Result<(), AllocError>
    requires { device < 8 }
    ensures { OnOk result (dump.new ≡ record dump.old {
      awaits = VarRange;
      devices = dump.old.devices ++ (device, dump.old.code) ∷ [];
    }) }
{
    dump.devices.add(alloc, device, dump.code.as_slice())?;
    dump.awaits = Awaits::VarRange;
    Ok(())
}

// The name of a variable.
fn name(alloc: Global, dump: &mut Dump, is_wide: bool, token: &[u8]) -> Result<bool, AllocError>
    ensures { IfOk result (λ ok. Steps ok dump.old dump.new (named is_wide dump.old (device_named token.now))) }
{
    let Some(device) = device_named(token) else {
        dump.awaits = Awaits::VarRange;
        return Ok(true);
    };
    if !is_new_device(dump, is_wide, device) {
        return Ok(false);
    }
    add_device(alloc, dump, device)?;
    Ok(true)
}

fn set_time(dump: &mut Dump, time: Option<u64>) -> bool
    ensures { Steps result dump.old dump.new (timed dump.old time) }
{
    match time {
        Some(time) if time < 1 << 63 && dump.time <= time => {
            dump.time = time;
            true
        }
        _ => false,
    }
}

// Whether this is the code of a variable that is no device.
fn is_other(dump: &Dump, code: &[u8]) -> bool
    ensures { result ≡ is_other dump.now (device_of dump.now.devices code.now) code.now }
{
    dump.devices.device_of(code).is_none() && dump.codes.has(code)
}

// What is awaited after a change that is no time and no keyword.
fn after_change(dump: &Dump, first: u8, rest: &[u8]) -> Option<Awaits>
    ensures { result ≡ after_change dump.now first rest.now }
{
    if is_letter(b'b', b'B', first) {
        after_value(rest)
    } else if is_letter(b'r', b'R', first) {
        Some(Awaits::Code(None))
    } else if is_state(first) {
        given(is_other(dump, rest), Awaits::Change)
    } else {
        None
    }
}

fn change(dump: &mut Dump, token: &[u8]) -> bool
    ensures { Steps result dump.old dump.new (changed dump.old token.now) }
{
    match token {
        [b'#', rest @ ..] => set_time(dump, decimal(rest)),
        [b'$', ..] => go(dump, after_change_keyword(token)),
        [first, rest @ ..] => {
            let next = after_change(dump, *first, rest);
            go(dump, next)
        }
        [] => false,
    }
}

fn drive(dump: &mut Dump, device: Dev, lines: Lines) -> Result<(), AllocError>
    requires { device < 8 }
    ensures { OnOk result (dump.new ≡ driven dump.old device lines) }
{
    dump.rows.set(dump.time, device, lines)?;
    dump.awaits = Awaits::Change;
    Ok(())
}

// The code after a value.
fn take_value(dump: &mut Dump, value: Option<Lines>, code: &[u8]) -> Result<bool, AllocError>
    ensures { IfOk result (λ ok. Steps ok dump.old dump.new
        (valued dump.old (device_of dump.old.devices code.now) value code.now)) }
{
    match (dump.devices.device_of(code), value) {
        (Some(device), Some(lines)) => {
            drive(dump, device, lines)?;
            Ok(true)
        }
        (Some(_), None) => Ok(false),
        (None, _) => {
            let next = given(dump.codes.has(code), Awaits::Change);
            Ok(go(dump, next))
        }
    }
}

/// One token more, and whether it is one that the form allows.
pub(crate) fn step(alloc: Global, dump: &mut Dump, token: &[u8]) -> Result<bool, AllocError>
    ensures { IfOk result (λ ok. Steps ok dump.old dump.new (step dump.old token.now)) }
{
    match dump.awaits {
        Awaits::Declaration => Ok(keyword(dump, token)),
        Awaits::VarCode(is_wide) => {
            declare(alloc, dump, is_wide, token)?;
            Ok(true)
        }
        Awaits::VarName(is_wide) => name(alloc, dump, is_wide, token),
        Awaits::Change => Ok(change(dump, token)),
        Awaits::Code(value) => take_value(dump, value, token),
        awaits => Ok(go(dump, after_part(awaits, token))),
    }
}
