//! The lines that tell of a place in the input, with no memory.
ghost use Rattle.std.specs.Prelude.{◌≡◌};
ghost use Rattle.bus_cli.specs.Lines.{refusal_line, broken_line, trace_line, dump_line};

use arrayvec::ArrayString;
use bus_rules::RuleNo;
use itoa::Buffer;

/// The line that tells of the first line of a scenario with a reason, and of its lowest reason.
pub fn refusal_line(line: u32, reason: u8) -> ArrayString<48>
    ensures { result.bytes ≡ refusal_line line reason }
{
    let mut text = ArrayString::new();
    text.push_str("scenario line ");
    text.push_str(Buffer::new().format(line));
    text.push_str(" reason ");
    text.push_str(Buffer::new().format(reason));
    text.push_str("\n");
    text
}

/// The line that tells of the first row of a trace that breaks a rule, counted from 1, and of the lowest
/// rule that it breaks.
pub fn broken_line(row: usize, rule: RuleNo) -> ArrayString<48>
    ensures { result.bytes ≡ broken_line row rule }
{
    let mut text = ArrayString::new();
    text.push_str("broken ");
    text.push_str(Buffer::new().format(row));
    text.push_str(" ");
    text.push_str(Buffer::new().format(rule));
    text.push_str("\n");
    text
}

/// The line that tells of the first line of a trace text that breaks its form.
pub fn trace_line(line: u32) -> ArrayString<48>
    ensures { result.bytes ≡ trace_line line }
{
    let mut text = ArrayString::new();
    text.push_str("trace line ");
    text.push_str(Buffer::new().format(line));
    text.push_str("\n");
    text
}

/// The line that tells of the first token of a value change dump that breaks its form.
pub fn dump_line(line: u32) -> ArrayString<48>
    ensures { result.bytes ≡ dump_line line }
{
    let mut text = ArrayString::new();
    text.push_str("vcd line ");
    text.push_str(Buffer::new().format(line));
    text.push_str("\n");
    text
}
