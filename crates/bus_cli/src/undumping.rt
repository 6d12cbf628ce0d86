//! The word `unvcd`.
ghost use Rattle.std.specs.Prelude.{◌≡◌, ◌+◌, ◌≤◌, Some, IfSome, IsErrOf};
ghost use Rattle.bus_base.specs.Faults.{HasRisen};
ghost use Rattle.bus_base.specs.Whole.{TakesAtMost};
ghost use Rattle.bus_base.specs.declared.reading.ReadEnd.TheVariants as ends;
ghost use Rattle.vcd_text.specs.Reading.{read_of};
ghost use Rattle.bus_cli.specs.Words.{limit_of};
ghost use Rattle.bus_cli.specs.Lines.{IfTold};
ghost use Rattle.bus_cli.specs.Unvcd.{SaysRead, UnvcdSays, TellsRead, UnvcdTells, TakesDump};
ghost use Rattle.bus_cli.specs.Ends.{Reads};
ghost use Rattle.bus_cli.specs.declared.words.Word.TheVariants as words;

use crate::answers::dump_line;
use crate::saying::say;
use crate::status::Status;
use bus_base::{BUFFER, ReadEnd, Sink, Source, read_piece};
use std::alloc::Global;
use trace_text::write_trace;
use vcd_text::{LIMIT, VcdBad, VcdReader};

// Takes all bytes of the input, at most the limit, through a buffer. It reads on after a token that breaks the form.
fn take_dump<S: Source>(alloc: Global, input: &mut S) -> Result<VcdReader, ReadEnd>
    ensures whole { TakesDump (S.left input.old) (S.left input.new) result }
    ensures taken { TakesAtMost (S.left input.old) (S.left input.new) (limit_of words.Unvcd + 1) }
    ensures fault { IsErrOf result ends.Fault → HasRisen (S.faults input.old) (S.faults input.new) }
    ensures never_falls { S.faults input.old ≤ S.faults input.new }
{
    let mut reader = VcdReader::new(alloc);
    let mut count = 0;
    let mut buffer = [0u8; BUFFER];
    loop {
        let more = read_piece(input, &mut buffer, LIMIT - count)?;
        if more == 0 {
            return Ok(reader);
        }
        reader.take_all(alloc, &buffer[..more])?;
        count += more;
    }
}

// Writes the text of the trace that was read, or the line of the first token that breaks the form.
fn answer<K: Sink>(alloc: Global, reader: VcdReader, out: &mut K) -> Status
    ensures words { result ≡ Status.Words → ⊥ }
    ensures read { result ≡ Status.Read → ⊥ }
    ensures write { result ≡ Status.Write → HasRisen (K.faults out.old) (K.faults out.new) }
    ensures form { TellsRead result (read_of reader) }
    ensures said { IfTold K.written K.faults out.old out.new (SaysRead result (Some (read_of reader))) }
    ensures never_falls { K.faults out.old ≤ K.faults out.new }
{
    match reader.finish(alloc) {
        Ok(dump) => match write_trace(&dump.rows, dump.end, out) {
            Ok(()) => Status::Done,
            Err(_) => Status::Write,
        },
        Err(VcdBad::At { line }) => {
            say(out, dump_line(line).as_str().as_bytes());
            Status::BadDump
        }
        Err(VcdBad::NoMemory) => {
            say(out, b"no memory\n");
            Status::Memory
        }
    }
}

/// Reads the input, and writes the text of the trace of the value change dump that it is.
pub fn unvcd<S: Source, K: Sink>(alloc: Global, input: &mut S, out: &mut K) -> Status
    ensures words { result ≡ Status.Words → ⊥ }
    ensures read { result ≡ Status.Read → HasRisen (S.faults input.old) (S.faults input.new) }
    ensures write { result ≡ Status.Write → HasRisen (K.faults out.old) (K.faults out.new) }
    ensures far { IfSome (S.left input.old) (λ bytes. Reads (limit_of words.Unvcd) result bytes (S.left input.new)) }
    ensures taken { TakesAtMost (S.left input.old) (S.left input.new) (limit_of words.Unvcd + 1) }
    ensures form { IfSome (S.left input.old) (λ bytes. UnvcdTells result bytes) }
    ensures said { IfTold K.written K.faults out.old out.new (UnvcdSays result (S.left input.old)) }
    ensures source_falls { S.faults input.old ≤ S.faults input.new }
    ensures sink_falls { K.faults out.old ≤ K.faults out.new }
{
    match take_dump(alloc, input) {
        Ok(reader) => answer(alloc, reader, out),
        Err(ReadEnd::TooLong) => {
            say(out, dump_line(0).as_str().as_bytes());
            Status::BadDump
        }
        Err(ReadEnd::Fault) => {
            say(out, b"read fault\n");
            Status::Read
        }
        Err(ReadEnd::NoMemory) => {
            say(out, b"no memory\n");
            Status::Memory
        }
    }
}
