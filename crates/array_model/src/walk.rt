//! Walks over what stands on a tape (ANSI X3.131-1994, 10.2.4 and 10.2.12).

/// Where a walk stops.
#[derive(Clone, Copy, Debug, PartialEq, Eq)]
pub enum Stop {
    /// It moved over as many as it was to.
    Count,
    /// At a filemark, which it passed.
    Filemark,
    /// At the end of data, or at the beginning where it went backward.
    Edge,
}

/// A walk over blocks or filemarks.
#[derive(Clone, Copy, Debug, PartialEq, Eq)]
pub struct Walk {
    /// How many it moved over of those that count.
    pub moved: u32,
    /// How many objects it passed.
    pub passed: u32,
    /// Where it stopped.
    pub stop: Stop,
}
