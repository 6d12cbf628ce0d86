//! The scenario of a number.
ghost use Rattle.std.specs.Prelude.{◌≡◌, ◌+◌, ◌≤◌, ◌<◌, ◌∷◌, [], IfOk};
ghost use Rattle.scenario.specs.declared.bounds.TheConstants.{COMMAND_LIMIT};
ghost use Rattle.scenario.specs.Writing.{Obeys};
ghost use Rattle.scenario.specs.Making.{made_hosts, made_targets, made_unit, made_units, spread, is_writing, transfer, sent, command_at, made_command, made_commands, made};

use crate::value::{CmdDef, HostDef, Payload, Policy, Scenario, Tag, TargetDef, UnitDef};
use bus_base::{NoMemory, Octets, Pick};
use cdb_codec::{Command, to_cdb};
use std::alloc::{AllocError, Global};

fn hosts() -> [HostDef; 2]
    ensures { result ≡ made_hosts }
{
    [
        HostDef {
            dev: 7,
            latency: 0,
            most: 8,
            retries: 2,
            period: 50,
            offset: 8,
            lag: 0,
            offers: true,
        },
        HostDef {
            dev: 6,
            latency: 20,
            most: 8,
            retries: 2,
            period: 0,
            offset: 0,
            lag: 0,
            offers: true,
        },
    ]
}

fn targets() -> [TargetDef; 3]
    ensures { result ≡ made_targets }
{
    [
        TargetDef {
            dev: 0,
            latency: 0,
            retries: 2,
            disc: Policy::Command,
            pick: Pick::First,
            seek: 2000,
            period: 50,
            offset: 8,
            begins: false,
        },
        TargetDef {
            dev: 1,
            latency: 30,
            retries: 2,
            disc: Policy::Burst(1),
            pick: Pick::Last,
            seek: 3000,
            period: 50,
            offset: 8,
            begins: false,
        },
        TargetDef {
            dev: 2,
            latency: 10,
            retries: 2,
            disc: Policy::Never,
            pick: Pick::First,
            seek: 1000,
            period: 0,
            offset: 0,
            begins: false,
        },
    ]
}

fn unit(target: u8) -> UnitDef
    ensures { result ≡ made_unit target }
{
    UnitDef {
        target,
        unit: 0,
        blocks: 2048,
        size: 128,
        depth: 16,
    }
}

// The number of command c, below 1024.
fn spread(seed: u64, c: u32) -> u32
    requires { c ≤ COMMAND_LIMIT }
    ensures exact { result ≡ spread seed c }
    ensures small { result < 1024 }
{
    (40503 * (u64::from(c) + seed % 65536) % 65536 / 64) as u32
}

fn is_writing(q: u32) -> bool
    ensures { result ≡ is_writing q }
{
    q / 6 % 2 == 1
}

fn transfer(is_writing: bool, c: u32, q: u32) -> Command
    ensures { result ≡ transfer is_writing c q }
{
    let count = 1 + (c % 2) as u8;
    if is_writing {
        Command::Write6 { lba: q, count }
    } else {
        Command::Read6 { lba: q, count }
    }
}

fn sent(is_writing: bool, c: u32) -> Payload
    ensures { result ≡ sent is_writing c }
{
    if is_writing {
        Payload::From((c % 256) as u8)
    } else {
        Payload::Nothing
    }
}

// Command c, of which q is the number.
fn command_at(alloc: Global, c: u32, q: u32) -> Result<CmdDef, AllocError>
    requires { q < 1024 }
    ensures { IfOk result (λ def. def ≡ command_at c q) }
{
    let is_writing = is_writing(q);
    let cdb = to_cdb(&transfer(is_writing, c, q));
    let cdb = Vec::from_slice(alloc, cdb.as_slice())?;
    Ok(CmdDef {
        host: 7 - (q % 2) as u8,
        target: (q / 2 % 3) as u8,
        unit: 0,
        at: 0,
        tag: Tag::Simple((c % 256) as u8),
        cdb: Octets::new(cdb),
        payload: sent(is_writing, c),
    })
}

fn commands(alloc: Global, seed: u64, n: u32) -> Result<Vec<CmdDef>, AllocError>
    requires { n ≤ COMMAND_LIMIT }
    ensures { IfOk result (λ v. v.items ≡ made_commands seed n) }
{
    let mut defs = Vec::new(alloc);
    for c in 0..n {
        let q = spread(seed, c + 1);
        defs.push(command_at(alloc, c + 1, q)?)?;
    }
    Ok(defs)
}

/// The scenario of a number with n commands, at most 4096: the same for the same numbers. Two initiators send READ(6)
/// and WRITE(6) of one block or two to three targets with a unit each, which have policies of their own. It obeys the
/// rules of a text.
pub fn make(alloc: Global, seed: u64, n: u32) -> Result<Scenario, NoMemory>
    requires { n ≤ COMMAND_LIMIT }
    ensures exact { IfOk result (λ s. s ≡ made seed n) }
    ensures obeys { IfOk result (λ s. Obeys s) }
{
    let hosts = Vec::from_slice(alloc, &hosts())?;
    let targets = Vec::from_slice(alloc, &targets())?;
    let units = Vec::from_slice(alloc, &[unit(0), unit(1), unit(2)])?;
    let commands = commands(alloc, seed, n)?;
    Ok(Scenario {
        version: 1,
        hosts,
        targets,
        units,
        fills: Vec::new(alloc),
        tapes: Vec::new(alloc),
        loads: Vec::new(alloc),
        commands,
        aborts: Vec::new(alloc),
        resets: Vec::new(alloc),
        faults: Vec::new(alloc),
    })
}
