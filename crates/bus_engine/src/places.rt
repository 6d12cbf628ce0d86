//! The places of the bus, with the devices of a scenario in theirs.
ghost use Rattle.std.specs.Prelude.{ℕ, ◌≡◌, ◌<◌, ◌==◌, [], is_some, IfOk, None, length, slice_index_or};
ghost use Rattle.std.specs.List.{find};
ghost use Rattle.scenario.specs.declared.value.HostDef.{HostDef};
ghost use Rattle.scenario.specs.declared.value.TargetDef.{TargetDef};
ghost use Rattle.scenario.specs.Writing.{Obeys};
ghost use Rattle.bus_run.specs.Places.{IsIn, AreIn};
ghost use Rattle.bus_engine.specs.Members.{IsMember};

use crate::member::Member;
use bus_base::{Dev, NoMemory};
use bus_run::Device;
use disk_target::Target;
use initiator::Host;
use scenario::{HostDef, Scenario, TargetDef, host_line, target_line};
use std::alloc::Global;

// Whether one of these lines is of this initiator.
fn has_host(hosts: &[HostDef], dev: Dev) -> bool
    ensures { result ≡ is_some (find (λ (h : HostDef). h.dev == dev) hosts.now) }
{
    host_line(hosts, dev).is_some()
}

// Whether one of these lines is of this target.
fn has_target(targets: &[TargetDef], dev: Dev) -> bool
    ensures { result ≡ is_some (find (λ (t : TargetDef). t.dev == dev) targets.now) }
{
    target_line(targets, dev).is_some()
}

// The place of this ID, with its device if the scenario has one.
fn place_of(alloc: Global, scenario: &Scenario, dev: Dev) -> Result<Option<Member>, NoMemory>
    requires { Obeys scenario.now }
    ensures { IfOk result (λ place. IsIn IsMember scenario.now [] dev place) }
{
    if has_host(scenario.hosts.as_slice(), dev) {
        Ok(Some(Member::Initiator(Host::new(alloc, scenario, dev)?)))
    } else if has_target(scenario.targets.as_slice(), dev) {
        Ok(Some(Member::Target(Target::new(alloc, scenario, dev)?)))
    } else {
        Ok(None)
    }
}

/// The eight places of the bus before any row, each device of a scenario that obeys the rules of its text in the place
/// of its ID.
pub fn member_places(alloc: Global, scenario: &Scenario) -> Result<Vec<Option<Member>>, NoMemory>
    requires { Obeys scenario.now }
    ensures eight { IfOk result (λ places. length places.items ≡ 8) }
    ensures devices { IfOk result (λ places. AreIn IsMember scenario.now [] places.items) }
{
    let mut places = Vec::new(alloc);
    for dev in 0..8 {
        places.push(place_of(alloc, scenario, dev)?)?;
    }
    Ok(places)
}
