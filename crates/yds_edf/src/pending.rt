ghost use Rattle.std.specs.Prelude.{◌≡◌, ◌*◌, ◌<◌, ◌≤◌, IfOk, length, slice_index, slice_set, replicate};
ghost use Rattle.yds_edf.specs.Serving.{AreTies};
ghost use Rattle.yds_edf.specs.Ranked.{AreRanked};

use crate::blocks::PlacedUnits;
use crate::due_order::{Due, by_deadline, places_in};
use crate::limits::MAX_GRAIN;
use std::alloc::Global;
use yds_model::limits::{MAX_JOBS, MAX_WORK};
use yds_model::{JobRow, Memory};

/// The jobs in the order in which they are served, with the units that are pending of each.
#[derive(Drop)]
pub struct PendingJobs {
    /// The jobs in order of their deadlines, those of the same deadline in order of their ties.
    pub order: Vec<Due>,
    /// The place of each job in that order, by the jobs' numbers.
    pub places: Vec<u32>,
    /// The units that are pending of the job at each place.
    pub units: PlacedUnits,
}

impl PendingJobs {
    /// Of these jobs. Nothing is pending.
    pub(crate) fn new(alloc: Global, rows: &[JobRow], ties: &[u32]) -> Result<PendingJobs, Memory>
        requires few { length rows.now ≤ MAX_JOBS }
        requires all_tied { length ties.now ≡ length rows.now }
        requires told_apart { AreTies ties.now }
        ensures ranked { IfOk result (AreRanked rows.now ties.now) }
        ensures none { IfOk result (λ jobs. jobs.units ≡ replicate (length rows.now) 0) }
    {
        let order = by_deadline(alloc, rows, ties)?;
        let places = places_in(alloc, rows, ties, &order)?;
        let units = PlacedUnits::new(alloc, rows.len())?;
        Ok(PendingJobs {
            order,
            places,
            units,
        })
    }

    /// So many units are pending of the job, in place of those that were.
    pub(crate) fn set(&mut self, job: u32, units: u64)
        requires known { job < length self.old.places.items }
        requires placed { slice_index self.old.places.items job < length self.old.units }
        requires in_range { units ≤ MAX_WORK * MAX_GRAIN }
        ensures { self.new ≡ record self.old { units = slice_set self.old.units (slice_index self.old.places.items job) units } }
    {
        let place = self.places[job as usize] as usize;
        self.units.set(place, units);
    }
}
