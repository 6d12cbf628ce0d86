//! How long a text may be.

/// The longest trace text, in bytes.
pub const LIMIT: usize = 1_073_741_824;
