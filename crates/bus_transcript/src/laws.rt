//! Laws of transcripts: each is the contract of a function that does nothing.
ghost use Rattle.std.specs.Prelude.{◌≡◌, List, [], ◌∷◌, reverse, Bool, true, false, Option, Some, None};
ghost use Rattle.bus_trace.specs.declared.Row.{Row};
ghost use Rattle.scenario.specs.Value.{ScenarioValue};
ghost use Rattle.story_model.specs.TraceHistory.{trace_history};
ghost use Rattle.msg_grammar.specs.declared.message.MsgOut.{MsgOut};
ghost use Rattle.msg_grammar.specs.declared.message.MsgOut.TheVariants as to_target;
ghost use Rattle.bus_transcript.specs.declared.item.Name.{Name};
ghost use Rattle.bus_transcript.specs.declared.part.Incoming.{Incoming};
ghost use Rattle.bus_transcript.specs.declared.process.Process.{Process};
ghost use Rattle.bus_transcript.specs.Events.{are_in, resets_shown, resets_told};
ghost use Rattle.bus_transcript.specs.Numbers.{next_number};
ghost use Rattle.bus_transcript.specs.Opened.{OpenedValue, settled, with_out, with_in, messages_of, with_said};
ghost use Rattle.bus_transcript.specs.Processes.{process_after};
ghost use Rattle.bus_transcript.specs.Rows.{nothing_seen, after_row, transcribed, finished, transcript_of};

/// What was seen of one row more is what was seen of the rows before it, and then what this row does; the transcript is
/// what is seen of all.
pub fn transcripts_go_on()
    ensures start { transcribed [] ≡ nothing_seen }
    ensures more { (row : Row) (rows : List Row) → transcribed (row ∷ rows) ≡ after_row (transcribed rows) row }
    ensures whole { (rows : List Row) → transcript_of rows ≡ finished (transcribed rows) }
{}

/// A connection that an initiator began starts a process with the next number of its nexus, from 1; with an abort
/// message it has the number 0. One that a target began goes on with the last process of its nexus.
pub fn processes_are_numbered()
    ensures first { (name : Name) → (process_after false false None name).name.number ≡ 1 }
    ensures next { (p : Process) (name : Name)
        → (process_after false false (Some p) name).name.number ≡ next_number p.name.number }
    ensures aborts { (last : Option Process) (name : Name) → (process_after false true last name).name.number ≡ 0 }
    ensures again { (aborts : Bool) (p : Process) (name : Name) → process_after true aborts (Some p) name ≡ p }
{}

/// A MESSAGE IN message, whole or broken off, leaves nothing where MESSAGE PARITY ERROR comes next, and the messages of
/// a MESSAGE OUT phase leave nothing where its bytes begin anew (ANSI X3.131-1994, 6.6.13).
pub fn void_messages_leave_nothing()
    ensures void { (k : OpenedValue) (m : Incoming)
        → with_out (with_in k m) to_target.ParityError ≡ with_out (settled k false) to_target.ParityError }
    ensures anew { (k : OpenedValue) (said : List MsgOut) (out : Option MsgOut)
        → with_said (record k { said = said }) true out ≡ record k { said = messages_of out } }
{}

/// Of any rows and any scenario the resets of the transcript are those of the history, in their order.
pub fn resets_are_told()
    ensures { (s : ScenarioValue) (rows : List Row)
        → resets_shown (transcript_of rows) ≡ resets_told (reverse (trace_history s rows)) }
{}

/// In a transcript each event of a process stands in a connection of that process: the last `Connect` before it has its
/// name; an abort, that of its initiator, target and unit.
pub fn events_stand_in_connections()
    ensures { (rows : List Row) → are_in None (transcript_of rows) ≡ true }
{}
