//! Tests of the texts of errors, as an application prints any `Error`, and of a verdict.
use bus_base::{Failed, NoMemory};
use bus_rules::Verdict;
use cdb_codec::CdbFault;
use scenario::Bad;
use std::alloc::Global;
use std::error::Error;
use tag_queue::Full;
use vcd_text::VcdBad;

// Whether the text of an error is this one.
fn says<E: Error>(alloc: Global, error: &E, text: &str) -> Result<bool, NoMemory> {
    let said = format!(in alloc; "{error}")?;
    Ok(said.as_str() == text)
}

#[test]
fn errors_say_what_is_wrong(rt: HostRuntime) -> Result<(), NoMemory> {
    let bad = Bad::At { line: 6, reason: 5 };
    let text = "line 6, reason 5: a device, unit, tape or block that stood before";
    let said = [
        says(rt.alloc(), &bad, text)?,
        says(rt.alloc(), &CdbFault::Field, "a bit that must be 0 is not")?,
        says(rt.alloc(), &Full, "the queue is at its depth")?,
        says(rt.alloc(), &VcdBad::NoMemory, "no memory")?,
        says(rt.alloc(), &Failed, "a read or a write failed")?,
    ];
    assert!(rt; said == [true; 5]);
    let late = Verdict::Broken { row: 5, rule: 3 };
    let text = format!(in rt.alloc(); "{late}")?;
    assert!(rt; text.as_str() == "row 5 breaks rule 3");
    Ok(())
}
