//! The limits of a timetable, each one named constant.

/// The greatest number of units that a stretch serves.
pub const MAX_UNITS: u64 = 4_000_000_000_000_000_000;
