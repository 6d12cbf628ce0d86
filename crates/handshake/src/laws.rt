// What holds of steps, each law the contract of a function that does nothing.
ghost use Rattle.handshake.specs.Steps.{initiator_next, target_next, initiator_hand, target_hand};
ghost use Rattle.handshake.specs.Telling.{TellsFirst, KnowsCrossings, TellsNoneAgain, MakesWhatIsDue, WaitsForWhatIsDue, AttentionIsApart, LeavingIsApart};

/// A byte that crosses in a phase is told by the step after its row, where the step before it came in the same phase. A
/// step knows of all bytes that have crossed in the phase, so a second step after the same row tells nothing.
pub fn crossings_are_told_once()
    ensures first { TellsFirst }
    ensures initiator { KnowsCrossings initiator_hand }
    ensures target { KnowsCrossings target_hand }
    ensures initiator_again { TellsNoneAgain initiator_hand }
    ensures target_again { TellsNoneAgain target_hand }
{}

/// A step makes a row exactly where the next reaction of its end is due at or before its time; where it is due later it
/// waits for that time, and where nothing is due for none.
pub fn rows_are_made_when_due()
    ensures initiator { MakesWhatIsDue initiator_hand initiator_next }
    ensures target { MakesWhatIsDue target_hand target_next }
    ensures initiator_wake { WaitsForWhatIsDue initiator_hand initiator_next }
    ensures target_wake { WaitsForWhatIsDue target_hand target_next }
{}

/// A step is the reaction of its device within the phase: what the device adds to the row as ATN changes nothing
/// else, and what it does as it leaves the phase nothing before that.
pub fn phases_are_stepped_alone()
    ensures attention { AttentionIsApart }
    ensures leaving { LeavingIsApart }
{}
