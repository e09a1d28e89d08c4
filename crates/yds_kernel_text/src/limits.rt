//! The room of a reader.

/// How many bytes a reader holds at most: lines of the greatest length, and a large read behind them.
pub const ROOM: usize = 262_144;
