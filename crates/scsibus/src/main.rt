//! The program `scsibus`: it hands its words, its standard input and its standard output to
//! `bus_main`, and ends with the status that comes back.
#![tactic(auto)]

ghost use Rattle.std.specs.Prelude.{◌≡◌, ◌<◌};

use bus_base::{StdSink, StdSource, Steps, write_all};
use bus_cli::{Status, bus_main};
use std::marker::Brand;
use std::process::ExitCode;
use std::rt::Env;
use std::sync::ledger::{Blank, Ledger};
use std::{env, io};

// The words after the program's name.
fn words<R: Env + AllocGlobal>(rt: &R) -> io::Result<Vec<String>> {
    let mut words = Vec::new(rt.alloc());
    for word in env::args(rt)?.skip(1) {
        words.push(word)?;
    }
    Ok(words)
}

// The program over the runtime's input and output, with a counter of its own.
fn run<L: Ledger>(rt: HostRuntime, blank: Blank) -> Status
    requires name { blank.name ≡ L.name }
    requires parts { blank.parts ≡ L.parts }
    requires some { 0 < blank.parts }
{
    let mut input = StdSource::new(rt.reader());
    let mut out = StdSink::new(io::writer(&rt));
    let Ok(words) = words(&rt) else {
        let _ = write_all(&mut out, b"no memory\n");
        return Status::Memory;
    };
    let mut steps = Steps::<L>::new(blank);
    bus_main(rt.alloc(), &words, &mut input, &mut out, &mut steps)
}

fn main(rt: HostRuntime) -> ExitCode {
    ExitCode::from(run::<Brand>(rt, Blank::new(1)).code())
}
