//! How long a dump may be.

/// The longest dump, in bytes.
pub const LIMIT: usize = 1_073_741_824;
