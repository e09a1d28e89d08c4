//! The units of a document.
ghost use Rattle.std.specs.Prelude.{◌≤◌};

use crate::numbers::{is_far, nearest};

/// The units of a document, and the time that is its 0.
#[derive(Clone, Copy, Debug, PartialEq, Eq)]
pub struct Units {
    /// The time of the trace's clock that is time 0, in nanoseconds.
    pub zero: u64,
    /// So many nanoseconds are a unit of time.
    pub time: u64,
    /// So many kilohertz are a unit of speed.
    pub speed: u64,
    pub ghost has_time: { 1 ≤ time },
    pub ghost has_speed: { 1 ≤ speed },
}

impl Units {
    ghost use Rattle.std.specs.Prelude.{◌≡◌};
    ghost use Rattle.yds_trace.specs.WrittenTime as spec;
    ghost use Rattle.yds_trace_document.specs.Views.{units_read};

    /// A time of the trace's clock, in nanoseconds, as the document has it: rounded down to a unit, and 0 before time 0.
    pub fn written_time(self, time: u64) -> u64
        ensures { result ≡ spec.written_time (units_read self) time }
    {
        time.saturating_sub(self.zero) / self.time
    }

    /// A speed in kilohertz to the nearest unit.
    pub fn written_speed(self, khz: u64) -> u64
        ensures { result ≡ spec.written_speed (units_read self) khz }
    {
        nearest(khz, self.speed)
    }

    /// Whether the written speed is 0, or by more than a twentieth off.
    pub fn is_coarse(self, khz: u64) -> bool
        ensures { result ≡ spec.is_coarse (units_read self) khz }
    {
        is_far(khz, self.speed)
    }
}
