//! Tests of `row_store`: rows that are near to one another and far from one another, times that fall, and faults.
use bitflags::Flags;
use bus_trace::{Kind, Lines, Row};
use row_store::RowStore;
use std::test::Fail;

// Of each row its time and its device, whether it is a fault, and the fault's code or the lines.
const ROWS: [(u64, u8, bool, u32); 8] = [
    (0, 7, false, 0x280),
    (68_719_476_735, 0, false, 0),
    (137_438_953_471, 255, true, 255),
    (137_438_953_471, 1, false, 0x3_ffff),
    (18_446_744_073_709_551_615, 2, false, 1),
    (18_446_744_073_709_551_615, 3, true, 0),
    (18_446_744_073_709_551_614, 4, false, 2),
    (5, 5, true, 8),
];

fn row_of(time: u64, dev: u8, is_fault: bool, bits: u32) -> Row {
    let kind = if is_fault {
        Kind::Fault((bits % 256) as u8)
    } else {
        Kind::Drives(Lines::from_bits_retain(bits))
    };
    Row { time, dev, kind }
}

fn is_fault(kind: Kind) -> bool {
    matches!(kind, Kind::Fault(_))
}

fn bits_of(kind: Kind) -> u32 {
    match kind {
        Kind::Drives(lines) => lines.bits(),
        Kind::Fault(code) => code as u32,
    }
}

#[test]
fn keeps_rows(rt: HostRuntime) -> Result<(), Fail> {
    let mut store = RowStore::new(rt.alloc());
    assert!(rt; store.len() == 0);
    assert!(rt; store.last_time() == 0);
    for (time, dev, fault, bits) in ROWS {
        store.push(&row_of(time, dev, fault, bits))?;
        assert!(rt; store.last_time() == time);
    }
    assert!(rt; store.len() == 8);
    let mut rows = store.iter();
    for (time, dev, fault, bits) in ROWS {
        let Some(row) = rows.next() else {
            panic!(rt; "no row");
        };
        assert!(rt; row.time == time);
        assert!(rt; row.dev == dev);
        assert!(rt; is_fault(row.kind) == fault, "{time}");
        assert!(rt; bits_of(row.kind) == bits, "{time}");
    }
    assert!(rt; rows.next().is_none());
    Ok(())
}
