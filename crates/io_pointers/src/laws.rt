//! A law of buffers, named by the contract of a function that does nothing.
ghost use Rattle.std.specs.Prelude.{ℕ, List};
ghost use Rattle.story_model.specs.CarriedBytes.{Area, restored_area};
ghost use Rattle.io_pointers.specs.HostBuffer.{IsHeld};

/// A buffer that holds what a process carried holds it still after SAVE DATA POINTER (6.6.20), RESTORE POINTERS
/// (6.6.19) and the beginning of a connection (6.4): these move pointers and no byte.
#[tactic(auto, using(crate::proofs::Held::restored_held, crate::proofs::Held::saved_held))]
pub fn pointers_keep_buffers()
    ensures save { (a : Area) (buffer : List ℕ) → IsHeld a buffer → IsHeld (record a { saved = a.active }) buffer }
    ensures restore { (a : Area) (buffer : List ℕ) → IsHeld a buffer → IsHeld (restored_area a) buffer }
{}
