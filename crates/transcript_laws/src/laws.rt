// Laws of transcripts, each named by the contract of a function that does nothing.

ghost use Rattle.std.specs.Prelude.{◌≡◌, ◌<◌, ◌^◌, ◌-◌, true, List, length};
ghost use Rattle.due_model.specs.bus_trace.specs.declared.rows.Row.{Row};
ghost use Rattle.due_model.specs.scenario.specs.Value.{ScenarioValue};
ghost use Rattle.due_model.specs.scenario.specs.Writing.{Obeys};
ghost use Rattle.due_model.specs.Next.{IsPrompt};
ghost use Rattle.bus_transcript.specs.Events.{TellsHistory, names_begun};
ghost use Rattle.bus_transcript.specs.Rows.{transcript_of};
ghost use Rattle.transcript_laws.specs.RowTests.{fit};

/// Of rows each of which fits the transcript and the story of the rows before it, the transcript has the events of the
/// history, with names in place of numbers, where initiators began fewer connections than there are numbers for names.
pub fn transcripts_follow_histories()
    ensures { (s : ScenarioValue) (rows : List Row)
        → fit s rows ≡ true
        → length (names_begun (transcript_of rows)) < 2 ^ 32 - 6
        → TellsHistory s rows }
{}

/// Of a prompt trace all rows fit, and they begin few names; so its transcript has the events of its history.
pub fn transcripts_follow_prompt_traces()
    ensures { (s : ScenarioValue) (rows : List Row)
        → Obeys s → IsPrompt s rows
        → TellsHistory s rows }
{}
