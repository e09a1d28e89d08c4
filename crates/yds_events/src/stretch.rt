ghost use Rattle.std.specs.Prelude.{◌≡◌, ℕ, ◌<◌, ◌≤◌, IfOk, OnOk, length, slice_index};
ghost use Rattle.std.specs.List.{All};
ghost use Rattle.base.specs.declared.limits.TheConstants.{MAX_TIME};
ghost use Rattle.yds_model.specs.Job.{IsJob};
ghost use Rattle.yds_model.specs.Event.{neighbours, stretches as job_stretches};

use crate::event_points::rising_times;
use std::alloc::Global;
use std::marker::Model;
use yds_model::limits::MAX_TIME;
use yds_model::{JobRow, Memory};

/// A stretch of time in which no job is released or due: it has a length, and ends within the limit of times.
#[derive(Clone, Copy, Debug, PartialEq, Eq)]
pub struct Stretch {
    /// Where it begins, in time units.
    pub from: u32,
    /// Where it ends, in time units.
    pub to: u32,
}

impl Model for Stretch {
    ghost use Rattle.yds_model.specs.Piece.{Piece};
    ghost use Rattle.yds_events.specs.Stretch.{IsStretch};

    ghost Value = { Piece };

    ghost view = { λ s. record { from = s.from; to = s.to } };

    ghost invariant = { λ s. IsStretch (record { from = s.from; to = s.to }) };

    ghost inverse = { λ p. record { from = p.from; to = p.to } };
}

impl Stretch {
    ghost use Rattle.yds_events.specs.Stretch.{IsStretch, length_of};

    /// The stretch between these times, in time units.
    pub fn new(from: u32, to: u32) -> Stretch
        requires { IsStretch (record { from = from; to = to }) }
        ensures { result ≡ record { from = from; to = to } }
    {
        Stretch { from, to }
    }

    /// How long it is, in time units: at least 1.
    pub fn length(&self) -> u32
        ensures length { result ≡ length_of self.now }
        ensures kept { IsStretch self.now }
    {
        self.to - self.from
    }
}

/// The stretches of the jobs, in order of time: from each event point to the next.
pub fn stretches(alloc: Global, rows: &[JobRow]) -> Result<Vec<Stretch>, Memory>
    ensures stretches { IfOk result (λ stretches. stretches.items ≡ job_stretches rows.now) }
    ensures jobs { OnOk result (All IsJob rows.now) }
{
    let times = rising_times(alloc, rows)?;
    between(alloc, &times)
}

/// The stretches between neighbours of rising times.
pub(crate) fn between(alloc: Global, times: &[u32]) -> Result<Vec<Stretch>, Memory>
    requires rising { (i j : ℕ) → i < j → j < length times.now → slice_index times.now i < slice_index times.now j }
    requires in_range { All (λ time. time ≤ MAX_TIME) times.now }
    ensures { IfOk result (λ stretches. stretches.items ≡ neighbours times.now) }
{
    let mut stretches = Vec::with_capacity(alloc, times.len())?;
    for next in 1..times.len() {
        stretches.push(Stretch::new(times[next - 1], times[next]))?;
    }
    Ok(stretches)
}
