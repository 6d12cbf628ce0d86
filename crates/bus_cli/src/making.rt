//! The word `make`.
ghost use Rattle.std.specs.Prelude.{◌≡◌, ◌≤◌};
ghost use Rattle.bus_base.specs.Faults.{HasRisen};
ghost use Rattle.scenario.specs.declared.bounds.TheConstants.{COMMAND_LIMIT};
ghost use Rattle.bus_cli.specs.Lines.{IfTold};
ghost use Rattle.bus_cli.specs.Making.{MakeSays, MakeTells};

use crate::saying::say;
use crate::status::Status;
use bus_base::{Sink, write_all};
use scenario::print;
use std::alloc::Global;

/// Writes the scenario of a number, with n commands.
pub fn make<K: Sink>(alloc: Global, seed: u64, n: u32, out: &mut K) -> Status
    requires { n ≤ COMMAND_LIMIT }
    ensures write { result ≡ Status.Write → HasRisen (K.faults out.old) (K.faults out.new) }
    ensures form { MakeTells result }
    ensures said { IfTold K.written K.faults out.old out.new (MakeSays seed n result) }
    ensures never_falls { K.faults out.old ≤ K.faults out.new }
{
    let Ok(scenario) = scenario::make(alloc, seed, n) else {
        say(out, b"no memory\n");
        return Status::Memory;
    };
    let Ok(text) = print(alloc, &scenario) else {
        say(out, b"no memory\n");
        return Status::Memory;
    };
    match write_all(out, &text) {
        Ok(()) => Status::Done,
        Err(_) => Status::Write,
    }
}
