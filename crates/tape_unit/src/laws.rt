//! What a unit of a target rests on of its medium, of a tape.
ghost use Rattle.std.specs.Prelude.{◌≡◌, ℕ, ◌*◌, true, false, List};
ghost use Rattle.cdb_codec.specs.TapeCdb.{tape_command_of};
ghost use Rattle.array_model.specs.TapeExecution.{Tape};
ghost use Rattle.tape_unit.specs.Tape.{tape_after, tape_done, tape_reply, is_changed, is_carried_out, blocks_written, taken_now};

/// Of every tape and every command block: the tape stays where the command does not make it new; what was sent comes
/// onto it only by a command that ends GOOD, and changes no reply; one that does not end GOOD takes nothing, and one
/// that does takes all blocks that it names to write.
pub fn tapes_change_as_they_say()
    ensures stays { (t : Tape) (cdb sent : List ℕ) → is_changed t cdb ≡ false → tape_after t cdb sent ≡ t }
    ensures unseen { (t : Tape) (cdb a b : List ℕ) → is_carried_out t cdb ≡ false
        → tape_after t cdb a ≡ tape_after t cdb b }
    ensures apart { (t : Tape) (cdb sent : List ℕ) → (tape_done t cdb sent).reply ≡ tape_reply t cdb }
    ensures none { (t : Tape) (cdb : List ℕ) → is_carried_out t cdb ≡ false → taken_now t cdb ≡ 0 }
    ensures taken { (t : Tape) (cdb : List ℕ) → is_carried_out t cdb ≡ true
        → taken_now t cdb ≡ blocks_written (tape_command_of cdb) * t.size }
{}
