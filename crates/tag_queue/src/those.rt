//! Some of the commands of a queue.
use array_model::Dev;

/// Some of the commands of a queue.
#[derive(Clone, Copy, Debug, PartialEq, Eq)]
pub enum Those {
    /// All of them.
    All,
    /// Those of an initiator.
    Of(Dev),
    /// Those of an initiator with a tag.
    Tagged(Dev, u8),
}
