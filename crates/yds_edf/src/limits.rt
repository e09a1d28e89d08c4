//! The limits of what is served, each one named constant.

/// The greatest grain: the number of units in a unit of work.
pub const MAX_GRAIN: u64 = 1_000_000_000;

/// The greatest number of stretches that are filled at once.
pub const MAX_STRETCHES: usize = 100_000;

/// The greatest capacity of a stretch whose shares are laid, in units.
pub const MAX_CAPACITY: u64 = 4_000_000_000_000_000_000;
