//! The limits of a trace's lines.

/// The greatest number of 64 bits.
pub const MAX_U64: u64 = 18_446_744_073_709_551_615;

/// The greatest number of a processor, of a process, and of kilohertz.
pub const MAX_NUMBER: u64 = 4_294_967_295;

/// The most bytes of a line that is an event.
pub const MAX_LINE: usize = 65_536;
