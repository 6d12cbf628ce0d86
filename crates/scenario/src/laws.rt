//! Laws of the texts.
ghost use Rattle.std.specs.Prelude.{◌≡◌, ◌≤◌, [], true, Ok, if◌then◌else◌};
ghost use Rattle.std.specs.List.{AllByRecursion, sum_by};
ghost use Rattle.scenario.specs.declared.bounds.TheConstants.{NEED_LIMIT, NEEDS_LIMIT};
ghost use Rattle.cdb_codec.specs.TapeCdb.{tape_command_of};
ghost use Rattle.cdb_codec.specs.Kinds.{is_tape_write};
ghost use Rattle.scenario.specs.declared.value.CmdDef.{CmdDef};
ghost use Rattle.scenario.specs.Lookups.{is_tape};
ghost use Rattle.scenario.specs.Needs.{need_of, sent_of};
ghost use Rattle.scenario.specs.Value.{ScenarioValue};
ghost use Rattle.text_words.specs.Lines.{Line};
ghost use Rattle.scenario.specs.Reading.{Progress, line_after, scenario_of};
ghost use Rattle.scenario.specs.Reasons.{refused, reason_of};
ghost use Rattle.scenario.specs.Writing.{text_of, Obeys};

/// Reading what is printed of a scenario that obeys the rules gives that scenario.
pub fn reads_back()
    ensures { (s : ScenarioValue) → Obeys s → scenario_of (text_of s) ≡ Ok s }
{}

/// A line is refused exactly where one of the reasons holds for it, and for the lowest of them.
pub fn tells_lowest()
    ensures { (d : Progress) (line : Line) → refused (line_after d line) ≡ reason_of d line }
{}

/// The commands of a scenario that obeys the rules need at most 65,536 bytes each, and 1,048,576 in
/// all.
pub fn needs_are_bounded()
    ensures each { (s : ScenarioValue) → Obeys s → AllByRecursion (λ c. need_of s c ≤ NEED_LIMIT) s.commands }
    ensures all { (s : ScenarioValue) → Obeys s → sum_by (need_of s) s.commands ≤ NEEDS_LIMIT }
{}

/// A tape is sent what a WRITE needs, as it reads the block, and nothing else: one test of a block serves at each unit.
pub fn tapes_take_writes()
    ensures { (s : ScenarioValue) (c : CmdDef) → is_tape s c.target c.unit ≡ true
        → sent_of s c ≡ (if is_tape_write (tape_command_of c.cdb) then need_of s c else 0) }
{}

/// Text 3 without tapes is text 2: what obeys the rules of one obeys those of the other.
pub fn tapes_alone_are_new()
    ensures text_3 { (s : ScenarioValue) → s.tapes ≡ [] → Obeys (record s { version = 2 })
        → Obeys (record s { version = 3 }) }
    ensures text_2 { (s : ScenarioValue) → s.tapes ≡ [] → Obeys (record s { version = 3 })
        → Obeys (record s { version = 2 }) }
{}

/// A load is for a tape: a scenario that obeys the rules and has no tape has none.
pub fn loads_are_for_tapes()
    ensures { (s : ScenarioValue) → Obeys s → s.tapes ≡ [] → s.loads ≡ [] }
{}
