// What an end of a connection goes by.
use bus_lines::Handshakes;
use reaction_model::{Myself, Pace, Sight};
use std::marker::Model;

/// What an end of a connection goes by in a phase: the lines, the account of REQ and ACK, itself, and how bytes cross.
/// All times lie before 2^63 ns, and all delays are short, so that no sum of them leaves 64 bits.
#[derive(Drop)]
pub struct Situation<'a> {
    /// What it sees of the lines.
    pub view: &'a Sight,
    /// The rises of REQ and ACK in the phase.
    pub handshakes: &'a Handshakes,
    /// What it knows of itself.
    pub me: &'a Myself,
    /// How bytes cross.
    pub pace: &'a Pace,
}

impl<'a> Model for Situation<'a> {
    ghost use Rattle.handshake.specs.Situation.{SituationValue};
    ghost use Rattle.handshake.specs.Bounds.{IsSeen, IsTimed, IsReady, IsSteady};

    ghost Value = { SituationValue };

    ghost view = { λ a. record {
      view = a.view.now;
      handshakes = a.handshakes.now;
      me = a.me.now;
      pace = a.pace.now;
    } };

    ghost invariant = { λ a. (IsSeen a.view.now × IsTimed a.handshakes.now)
        × (IsReady a.me.now × IsSteady a.pace.now) };
}
