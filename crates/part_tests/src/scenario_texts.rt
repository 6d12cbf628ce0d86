//! Tests of `scenario`: every reason by its bad lines, the limits, and texts printed as they were read.

use bus_base::NoMemory;
use scenario::{Bad, make, need, print, read};
use std::alloc::{AllocError, Global};

// The first one to four lines of a text, and four lines with a larger unit.
const FIRST: &str = "scsi 1\n";

const INITIATOR: &str = "scsi 1\ninitiator 7 latency 0 open 1 retries 2 sync 0 0 lag 0\n";

const TARGET: &str =
    "scsi 1\ninitiator 7 latency 0 open 1 retries 2 sync 0 0 lag 0\ntarget 0 latency 0 retries 2 disc never pick first seek 0 sync 0 0\n";

const UNIT: &str =
    "scsi 1\ninitiator 7 latency 0 open 1 retries 2 sync 0 0 lag 0\ntarget 0 latency 0 retries 2 disc never pick first seek 0 sync 0 0\nunit 0 0 blocks 2 size 16 depth 1\n";

const LARGE: &str =
    "scsi 1\ninitiator 7 latency 0 open 1 retries 2 sync 0 0 lag 0\ntarget 0 latency 0 retries 2 disc never pick first seek 0 sync 0 0\nunit 0 0 blocks 32 size 2048 depth 1\n";

// The cases, with `@` between them. A case begins with a line of three numbers: how many of the lines
// above stand before it, its first bad line, and the lowest reason there. Then its text follows.
const CASES: &str = "1 2 1
end\t
@1 2 1
# \x7f
end
@0 1 1
\x1f@1 3 1
end
#\u{e9}
@1 2 1
bad\r
@1 3 1
#
\r
end
@0 1 2
@0 3 2


@0 1 2
scsi 1@1 2 2
@1 2 2
end@1 3 2
end
# over@1 3 2
end
 @0 1 2
scsi 4
@0 1 2
scsi 01
@0 1 2
 scsi 1
@0 1 2
tape
@1 2 2
scsi 2
end
@1 2 2
initiator 7 latency 0 open 1 retries 2 sync 0 0 lag 0 offers yes
end
@0 2 2
scsi 2
initiator 7 latency 0 open 1 retries 2 sync 0 0 lag 0
end
@2 3 2
target 0 latency 0 retries 2 disc never pick first seek 0 sync 0 0 begins no
end
@0 3 2
scsi 2
initiator 7 latency 0 open 1 retries 2 sync 0 0 lag 0 offers yes
target 0 latency 0 retries 2 disc never pick first seek 0 sync 0 0
end
@0 2 2
scsi 2
initiator 7 latency 0 open 1 retries 2 sync 0 0 lag 0 offers Yes
end
@0 2 2
scsi 2
initiator 7 latency 0 open 1 retries 2 sync 0 0 lag 0 offers maybe
end
@1 2 2
initiator 7 latency 00 open 1 retries 2 sync 0 0 lag 0
end
@1 2 2
initiator 7 latency 0 open  1 retries 2 sync 0 0 lag 0
end
@1 2 2
initiator 7 latency 0 open -1 retries 2 sync 0 0 lag 0
end
@1 2 2
initiator 7 latency 0 open 1 retries 2 sync 0 0 lag 0 
end
@3 4 2
target 0 latency 0 retries 2 disc sometimes pick first seek 0 sync 0 0
end
@3 4 2
target 0 latency 0 retries 2 disc burst pick first seek 0 sync 0 0
end
@3 4 2
target 0 latency 0 retries 2 disc never pick next seek 0 sync 0 0
end
@4 5 2
fill 0 0 0 000
end
@4 5 2
fill 0 0 0 0A
end
@4 5 2
fill 0 0 0
end
@4 5 2
cmd 7 0 0 at 0 untagged cdb 080000000100 out from 1
end
@4 5 2
cmd 7 0 0 at 0 untagged cdb 080000000100 out from 123
end
@4 5 2
cmd 7 0 0 at 0 untagged cdb 080000000100 out hex
end
@4 5 2
cmd 7 0 0 at 0 untagged cdb 08000000010 none
end
@4 5 2
cmd 7 0 0 at 0 simple cdb 080000000100 none
end
@4 5 2
cmd 7 0
@2 3 2
abort 7 0 0 at 0 tag
end
@2 3 2
abort 7 0 0 at 0 any
end
@4 5 2
cmd 7 0 0 at 0 untagged cdb 080000000100 none@0 1 3
end
@0 2 3
# 
initiator 7 latency 0 open 1 retries 2 sync 0 0 lag 0
@0 1 3
initiator 7 latency 0 open 1 retries 2 sync 0 0 lag 0 offers yes
@1 2 3
scsi 1
@0 2 3
scsi 2
scsi 2
@1 3 3
end
end
@1 5 3
end

# 
cmd 7 0 0 at 0 untagged cdb 080000000100 none
@3 4 3
initiator 7 latency 0 open 1 retries 2 sync 0 0 lag 0
@4 5 3
target 0 latency 0 retries 2 disc never pick first seek 0 sync 0 0
@4 6 3
fill 0 0 0 000102030405060708090a0b0c0d0e0f
unit 0 0 blocks 2 size 16 depth 1
@4 6 3
cmd 7 0 0 at 0 untagged cdb 080000000100 none
fill 0 0 0 000102030405060708090a0b0c0d0e0f
@2 4 3
reset 7 at 0
abort 7 0 0 at 0 all
@2 4 3
fault at 0 bit 0
reset 7 at 0
@1 2 4
initiator 8 latency 0 open 1 retries 2 sync 0 0 lag 0
end
@1 2 4
initiator 7 latency 101 open 1 retries 2 sync 0 0 lag 0
end
@1 2 4
initiator 7 latency 0 open 0 retries 2 sync 0 0 lag 0
end
@1 2 4
initiator 7 latency 0 open 33 retries 2 sync 0 0 lag 0
end
@1 2 4
initiator 7 latency 0 open 1 retries 17 sync 0 0 lag 0
end
@1 2 4
initiator 7 latency 0 open 1 retries 2 sync 1 0 lag 0
end
@1 2 4
initiator 7 latency 0 open 1 retries 2 sync 24 8 lag 0
end
@1 2 4
initiator 7 latency 0 open 1 retries 2 sync 256 0 lag 0
end
@1 2 4
initiator 7 latency 0 open 1 retries 2 sync 0 256 lag 0
end
@1 2 4
initiator 7 latency 0 open 1 retries 2 sync 0 0 lag 10001
end
@1 2 4
initiator 7 latency 0 open 1 retries 2 sync 0 0 lag 18446744073709551616
end
@1 2 4
target 0 latency 0 retries 2 disc burst 0 pick first seek 0 sync 0 0
end
@1 2 4
target 0 latency 0 retries 2 disc burst 65537 pick first seek 0 sync 0 0
end
@1 2 4
target 0 latency 0 retries 2 disc nosave 0 pick first seek 0 sync 0 0
end
@1 2 4
target 0 latency 0 retries 2 disc never pick first seek 1000000001 sync 0 0
end
@1 2 4
target 0 latency 0 retries 2 disc never pick first seek 0 sync 25 255
end
@3 4 4
unit 0 8 blocks 2 size 16 depth 1
end
@3 4 4
unit 0 0 blocks 0 size 16 depth 1
end
@3 4 4
unit 0 0 blocks 4294967297 size 16 depth 1
end
@3 4 4
unit 0 0 blocks 2 size 24 depth 1
end
@3 4 4
unit 0 0 blocks 2 size 8 depth 1
end
@3 4 4
unit 0 0 blocks 2 size 4096 depth 1
end
@3 4 4
unit 0 0 blocks 2 size 16 depth 0
end
@3 4 4
unit 0 0 blocks 2 size 16 depth 257
end
@4 5 4
fill 0 0 18446744073709551616 00
end
@4 5 4
fill 8 0 0 00
end
@4 5 4
cmd 7 8 0 at 0 untagged cdb 080000000100 none
end
@4 5 4
cmd 7 0 0 at 1000000000001 untagged cdb 080000000100 none
end
@4 5 4
cmd 7 0 0 at 0 head 256 cdb 080000000100 none
end
@4 5 4
cmd 7 0 0 at 0 untagged cdb 40000000000000000000 none
end
@4 5 4
cmd 7 0 0 at 0 untagged cdb 0800000001 none
end
@4 5 4
cmd 7 0 0 at 0 untagged cdb 2800000000000000000000 none
end
@2 3 4
abort 7 0 8 at 0 all
end
@2 3 4
abort 7 0 0 at 0 tag 256
end
@2 3 4
reset 8 at 0
end
@2 3 4
reset 7 at 1000000000001
end
@1 2 4
fault at 0 bit 9
end
@1 2 4
fault at 1000000000001 bit 0
end
@2 3 5
initiator 7 latency 0 open 1 retries 2 sync 0 0 lag 0
end
@2 3 5
target 7 latency 0 retries 2 disc never pick first seek 0 sync 0 0
end
@3 4 5
target 0 latency 0 retries 2 disc never pick first seek 0 sync 0 0
end
@4 5 5
unit 0 0 blocks 2 size 16 depth 1
end
@4 6 5
fill 0 0 0 000102030405060708090a0b0c0d0e0f
fill 0 0 0 000102030405060708090a0b0c0d0e0f
end
@4 6 5
fill 0 0 0 000102030405060708090a0b0c0d0e0f
fill 0 0 0 00
end
@3 4 6
unit 7 0 blocks 2 size 16 depth 1
end
@3 4 6
unit 1 0 blocks 2 size 16 depth 1
end
@3 4 6
fill 0 0 0 00
end
@4 5 6
fill 0 1 0 00
end
@4 5 6
fill 7 0 0 00
end
@4 5 6
cmd 6 0 0 at 0 untagged cdb 080000000100 none
end
@4 5 6
cmd 7 7 0 at 0 untagged cdb 080000000100 none
end
@4 5 6
cmd 0 0 0 at 0 untagged cdb 080000000100 none
end
@3 4 6
abort 6 0 0 at 0 all
end
@3 4 6
abort 7 7 0 at 0 all
end
@3 4 6
reset 1 at 0
end
@4 5 7
fill 0 0 0 00
end
@4 5 7
fill 0 0 2 000102030405060708090a0b0c0d0e0f
end
@4 5 7
fill 0 0 18446744073709551615 000102030405060708090a0b0c0d0e0f
end
@4 5 7
fill 0 0 4294967296 000102030405060708090a0b0c0d0e0f
end
@4 5 7
fill 0 0 1 000102030405060708090a0b0c0d0e0f00
end
@4 5 7
cmd 7 0 0 at 0 untagged cdb 080000000100 out from 00
end
@4 5 7
cmd 7 0 0 at 0 untagged cdb 0a0000000100 none
end
@4 5 7
cmd 7 0 0 at 0 untagged cdb 0a0000000100 out hex 00
end
@4 5 7
cmd 7 0 0 at 0 untagged cdb 0a0000000200 out hex 000102030405060708090a0b0c0d0e0f
end
@4 5 7
cmd 7 0 0 at 0 untagged cdb 0a0000020100 out from 00
end
@4 5 7
cmd 7 0 0 at 0 untagged cdb 0a0000000101 out from 00
end
@4 5 7
cmd 7 1 0 at 0 untagged cdb 0a0000000100 out from 00
end
@4 5 7
cmd 7 0 1 at 0 untagged cdb 0a0000000100 out from 00
end
@4 5 7
cmd 7 0 0 at 0 untagged cdb 2a000000000000000000 out from 00
end
@4 5 7
cmd 7 0 0 at 0 untagged cdb 000000000000 out from 00
end
@4 5 7
cmd 7 0 0 at 0 untagged cdb 120000002400 out from 00
end
@3 5 8
unit 0 0 blocks 4097 size 16 depth 1
cmd 7 0 0 at 0 untagged cdb 28000000000000100100 none
end
@3 5 8
unit 0 0 blocks 256 size 2048 depth 1
cmd 7 0 0 at 0 untagged cdb 0a0000000000 out from 00
end
@3 5 8
unit 0 0 blocks 65536 size 2048 depth 1
cmd 7 0 0 at 0 untagged cdb 28000000000000ffff00 none
end
@4 5 1
fill 0 0 8 0\t
end
@1 2 1
\x01@3 4 3
initiator 7 latency 0 open 1 retries 2 sync 0 0 lag 0
@3 4 5
target 0 latency 0 retries 2 disc never pick first seek 0 sync 0 0
unit 0 0 blocks 2 size 16 depth 1
bad
@1 2 4
initiator 7 latency 0 open 0 retries 2 sync 0 0 lag 0
bad
@4 5 4
cmd 6 0 0 at 0 untagged cdb 0800000001 none
end
@4 5 6
cmd 6 0 0 at 0 untagged cdb 080000000100 out from 00
end
@4 6 3
cmd 7 0 0 at 0 untagged cdb 080000000100 none
initiator 8 latency 0 open 1 retries 2 sync 0 0 lag 0
end
@1 2 4
unit 0 0 blocks 0 size 16 depth 1
end
@3 5 7
unit 0 0 blocks 4097 size 16 depth 1
cmd 7 0 0 at 0 untagged cdb 28000000000000100100 out from 00
end
";

// How many of these lines stand first, a line that is repeated, how often before `end`, and what is
// told: line and reason, or 0 and 0 where it is read.
const MANY: [(u8, &str, usize, u32, u8); 13] = [
    (b'1', "fault at 0 bit 0\n", 64, 0, 0),
    (b'1', "fault at 0 bit 0\n", 65, 66, 8),
    (b'2', "abort 7 0 0 at 0 all\n", 64, 0, 0),
    (b'2', "abort 7 0 0 at 0 all\n", 65, 67, 8),
    (b'2', "reset 7 at 0\n", 65, 67, 8),
    (
        b'4',
        "cmd 7 0 0 at 0 untagged cdb 000000000000 none\n",
        4096,
        0,
        0,
    ),
    (
        b'4',
        "cmd 7 0 0 at 0 untagged cdb 000000000000 none\n",
        4097,
        4101,
        8,
    ),
    (
        b'5',
        "cmd 7 0 0 at 0 untagged cdb 080000002000 none\n",
        16,
        0,
        0,
    ),
    (
        b'5',
        "cmd 7 0 0 at 0 untagged cdb 080000002000 none\n",
        17,
        21,
        8,
    ),
    (b'1', "\n", 4_194_293, 0, 0),
    (b'1', "\n", 4_194_294, 0, 9),
    (b'1', "#\n", 2_097_147, 0, 9),
    (b'0', "\n", 4_194_305, 0, 9),
];

// Texts that are printed as they were read, with `@` between them.
const GOOD: &str = "scsi 1
end
@scsi 2
end
@scsi 2
initiator 7 latency 0 open 1 retries 2 sync 0 0 lag 0 offers no
initiator 6 latency 0 open 1 retries 2 sync 50 8 lag 0 offers yes
target 0 latency 0 retries 2 disc nosave 1 pick first seek 0 sync 0 0 begins yes
target 1 latency 0 retries 2 disc command pick first seek 0 sync 0 0 begins no
unit 0 0 blocks 2 size 16 depth 1
fill 0 0 0 000102030405060708090a0b0c0d0e0f
cmd 7 0 0 at 0 untagged cdb 080000000100 none
cmd 7 0 0 at 0 simple 255 cdb 0a0000000100 out from fe
cmd 7 0 0 at 1000000000000 ordered 0 cdb 0a0000010100 out hex 000102030405060708090a0b0c0d0e0f
cmd 7 0 5 at 0 head 3 cdb 12000000ff00 none
cmd 7 0 0 at 0 untagged cdb 080000020100 none
abort 7 0 0 at 0 all
abort 6 5 0 at 1 tag 0
abort 6 0 7 at 1 queue
abort 6 0 7 at 1 device
reset 0 at 5
reset 7 at 1000000000000
fault at 0 bit 8
fault at 1000000000000 bit 0
end
";

// Seven commands, which need 32, 0, 36, 18, 8, 0 and 5 bytes.
const NEEDS: &str =
    "scsi 1\ninitiator 7 latency 0 open 1 retries 2 sync 0 0 lag 0\ntarget 0 latency 0 retries 2 disc never pick first seek 0 sync 0 0\nunit 0 0 blocks 2 size 16 depth 1\ncmd 7 0 0 at 0 untagged cdb 080000000200 none\ncmd 7 0 0 at 0 untagged cdb 080000000300 none\ncmd 7 0 3 at 0 untagged cdb 12000000ff00 none\ncmd 7 0 0 at 0 untagged cdb 030000001200 none\ncmd 7 0 0 at 0 untagged cdb 25000000000000000000 none\ncmd 7 0 1 at 0 untagged cdb 25000000000000000000 none\ncmd 7 0 0 at 0 untagged cdb 120000000500 none\nend\n";

fn front(lines: u8) -> &'static str {
    match lines {
        b'0' => "",
        b'1' => FIRST,
        b'2' => INITIATOR,
        b'3' => TARGET,
        b'4' => UNIT,
        _ => LARGE,
    }
}

// The line and the reason told of a text: both 0 where it is read.
fn told(alloc: Global, text: &[u8]) -> (u32, u8) {
    match read(alloc, text) {
        Ok(_) => (0, 0),
        Err(Bad::At { line, reason }) => (line, reason),
        Err(Bad::NoMemory) => (0, 10),
    }
}

// What is read of a text, printed again.
fn printed(alloc: Global, text: &[u8]) -> Option<Vec<u8>> {
    match read(alloc, text) {
        Ok(scenario) => print(alloc, &scenario).ok(),
        Err(_) => None,
    }
}

#[test]
fn tells_the_first_bad_line(rt: HostRuntime) -> Result<(), NoMemory> {
    for case in CASES.split('@') {
        let [lines, b' ', line, b' ', reason, b'\n', rest @ ..] = case.as_bytes() else {
            panic!(rt; "{case}");
        };
        let mut text = Vec::from_slice(rt.alloc(), front(*lines).as_bytes())?;
        text.extend_from_slice(rest)?;
        let want = (
            u32::from(line.wrapping_sub(b'0')),
            reason.wrapping_sub(b'0'),
        );
        assert!(rt; told(rt.alloc(), &text) == want, "{case}");
    }
    Ok(())
}

#[test]
fn keeps_the_limits(rt: HostRuntime) -> Result<(), AllocError> {
    for (lines, repeated, times, line, reason) in MANY {
        let repeated = repeated.repeat(rt.alloc(), times)?;
        let text = [front(lines), repeated.as_str(), "end\n"].concat(rt.alloc())?;
        let told = told(rt.alloc(), text.as_bytes());
        assert!(rt; told == (line, reason), "{times}");
    }
    Ok(())
}

#[test]
fn prints_what_is_read(rt: HostRuntime) {
    for text in GOOD.split('@') {
        let printed = printed(rt.alloc(), text.as_bytes());
        assert!(rt; printed.as_deref() == Some(text.as_bytes()));
    }
    let printed = printed(rt.alloc(), b"# two\n\nscsi 1\n#\nend\n\n#\n");
    assert!(rt; printed.as_deref() == Some(b"scsi 1\nend\n".as_slice()));
}

#[test]
fn makes_scenarios(rt: HostRuntime) -> Result<(), NoMemory> {
    let made = make(rt.alloc(), 7, 4096)?;
    assert!(rt; made.commands.len() == 4096);
    let text = print(rt.alloc(), &made)?;
    assert!(rt; printed(rt.alloc(), &text).as_deref() == Some(text.as_slice()));
    Ok(())
}

#[test]
fn tells_needs(rt: HostRuntime) {
    let Ok(scenario) = read(rt.alloc(), NEEDS.as_bytes()) else {
        panic!(rt; "it is a text");
    };
    assert!(rt; scenario.commands.len() == 7);
    for (command, want) in scenario.commands.iter().zip([32, 0, 36, 18, 8, 0, 5]) {
        assert!(rt; need(&scenario, command) == want);
    }
}
