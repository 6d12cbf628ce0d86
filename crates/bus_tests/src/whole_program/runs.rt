//! Tests of the word `run`: whole reports of scenarios of every kind, byte for byte.
use super::small_runs::SMALL_RUNS;
use super::{NEVER, ROOM, ended};
use bus_base::{MemSink, MemSource, NoMemory};
use bus_cli::Status;

#[test]
fn runs_small_scenarios(rt: HostRuntime) -> Result<(), NoMemory> {
    for (name, scenario, report) in SMALL_RUNS {
        let mut out = MemSink::new(rt.alloc(), ROOM, ROOM, &[NEVER])?;
        let mut input = MemSource::new(rt.alloc(), scenario.as_bytes(), ROOM, &[NEVER])?;
        let ended = ended(rt.alloc(), &["run"], &mut input, &mut out)?;
        assert!(rt; ended == Status::Done, "{name}");
        assert!(rt; out.bytes() == report.as_bytes(), "{name}");
    }
    Ok(())
}
