//! What a run made.
use crate::outcome::Outcome;
use bus_base::{Event, Ns};
use disk_unit::SparseBlocks;
use row_store::RowStore;
use std::marker::Model;
use tape_unit::TapeMedium;

/// What a run made. Contracts see it as a record of lists.
#[derive(Drop)]
pub struct Run {
    /// The rows of the trace, the oldest first.
    pub rows: RowStore,
    /// The time of the last row, in ns, or 0.
    pub end: Ns,
    /// What the rows show, in their order.
    pub history: Vec<Event>,
    /// How each command ended, in the order of the commands.
    pub replies: Vec<Outcome>,
    /// What each disk holds at the end, in the order of the units.
    pub disks: Vec<SparseBlocks>,
    /// What stands on each tape at the end, and its position, in the order of the tapes.
    pub tapes: Vec<TapeMedium>,
}

impl Model for Run {
    ghost use Rattle.std.specs.Prelude.{map};
    ghost use Rattle.run_record.specs.Value.{RunValue, held_by, reeled_by};

    ghost Value = { RunValue };

    ghost view = { λ a. record {
      rows = a.rows;
      end = a.end;
      history = a.history.items;
      replies = a.replies.items;
      disks = map held_by a.disks.items;
      tapes = map reeled_by a.tapes.items;
    } };
}
