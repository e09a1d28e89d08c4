//! From when to when a trace is asked for.
ghost use Rattle.std.specs.Prelude.{◌≡◌, option_map};
ghost use Rattle.yds_trace.specs.Views.{asked_read};
ghost use Rattle.yds_trace_bounds.specs.Bounds as spec;

use yds_trace::{Asked, MAX_TIME};

/// A time that is asked for, in nanoseconds.
#[derive(Clone, Copy, Debug, PartialEq, Eq)]
pub enum Moment {
    /// A time of the trace's clock.
    Clock(u64),
    /// So long after the first event.
    AfterFirst(u64),
}

/// From when to when a trace is asked for. Without a bound it is from its begin on, or to its end.
#[derive(Clone, Copy, Debug, PartialEq, Eq)]
pub struct Bounds {
    /// The first time.
    pub from: Option<Moment>,
    /// The time behind the last one.
    pub to: Option<Moment>,
}

impl Bounds {
    /// Whether one of them counts from the first event.
    pub fn count_from_first(self) -> bool
        ensures { result ≡ spec.count_from_first self }
    {
        counts_from_first(self.from) || counts_from_first(self.to)
    }

    /// What is asked, within these bounds, of a trace whose first event has this time.
    pub fn within(self, mut asked: Asked, first: u64) -> Asked
        ensures { asked_read result ≡ spec.asked_from first self (asked_read asked) }
    {
        asked.from = time_at(self.from, first);
        asked.to = time_at(self.to, first);
        asked
    }
}

/// Whether it counts from the first event.
fn counts_from_first(moment: Option<Moment>) -> bool
    ensures { result ≡ spec.counts_from_first moment }
{
    match moment {
        Some(Moment::AfterFirst(_)) => true,
        Some(Moment::Clock(_)) | None => false,
    }
}

/// When it is, by the trace's clock. No time is behind the clock's last one.
fn time_at(moment: Option<Moment>, first: u64) -> Option<u64>
    ensures { result ≡ option_map (spec.time_at first) moment }
{
    match moment? {
        Moment::Clock(time) => Some(time),
        Moment::AfterFirst(time) => Some(first.saturating_add(time).min(MAX_TIME)),
    }
}
