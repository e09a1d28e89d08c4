ghost use Rattle.std.specs.Prelude.{◌≡◌, ◌*◌, ◌<◌, ◌≤◌, ◌++◌, ◌∷◌, [], List, ℕ, length, map, replicate, IfOk, OnOk};
ghost use Rattle.std.specs.List.{All};
ghost use Rattle.yds_model.specs.Job.{Job, IsJob};
ghost use Rattle.base.specs.declared.limits.TheConstants.{MAX_JOBS};
ghost use Rattle.yds_events.specs.Timeline.{IsTimeline};
ghost use Rattle.yds_search.specs.Found.{IsFound, per_time, per_work};
ghost use Rattle.yds_search.specs.Views.{found_view, group_view};
ghost use Rattle.yds_search.specs.Numbers.{AreWritten};
ghost use Rattle.yds_search.specs.Own.{job_numbers, stretch_numbers, shares_by_number};
ghost use Rattle.yds_search.specs.Searching.{IsSearching, IsChosen, IsNearer};

use crate::beginning::first_group;
use crate::closing::Closing;
use crate::filling::{Filling, Speed};
use crate::found::{Found, Group};
use crate::stack::{Size, Stack};
use std::alloc::Global;
use yds_events::Timeline;
use yds_fraction::gcd;
use yds_model::{JobRow, Memory};

/// The search for groups: those that are finished, those that wait, and room to fill and to split one.
#[derive(Drop)]
pub(crate) struct Search {
    /// What is found so far.
    pub found: Found,
    /// The groups that wait, the fastest one last.
    pub stack: Stack,
    /// The fill of the fastest one.
    pub filling: Filling,
    /// What its late jobs close upon.
    pub closing: Closing,
}

/// The speed of a group.
fn speed_of(group: &Group) -> Speed
    requires some_work { 1 ≤ group.now.work }
    requires some_length { 1 ≤ group.now.length }
    ensures per_time { result.per_time ≡ per_time (group_view group.now) }
    ensures per_work { result.per_work ≡ per_work (group_view group.now) }
{
    let divisor = gcd(group.work, group.length);
    Speed {
        per_time: group.work / divisor,
        per_work: group.length / divisor,
    }
}

impl Search {
    /// All jobs with work wait in one group.
    fn new(alloc: Global, rows: &[JobRow], timeline: &Timeline) -> Result<Search, Memory>
        requires few { length rows.now ≤ MAX_JOBS }
        requires jobs { All IsJob rows.now }
        requires timeline { IsTimeline rows.now timeline.now }
        ensures { IfOk result (IsSearching rows.now) }
    {
        let jobs = rows.len();
        let stretches = timeline.stretches.len();
        Ok(Search {
            found: Found::new(alloc, jobs, stretches)?,
            stack: first_group(alloc, rows, timeline)?,
            filling: Filling::new(alloc, jobs, stretches)?,
            closing: Closing::new(alloc, stretches)?,
        })
    }

    /// The fastest group, whose size is taken off, is filled at its average speed, and finished, or split where jobs are late.
    fn advance(&mut self, size: Size) -> Result<(), Memory>
        requires chosen { (jobs : List Job) × IsChosen jobs size self.old }
        ensures search { OnOk result ((jobs : List Job) → IsChosen jobs size self.old → IsSearching jobs self.new) }
        ensures nearer { OnOk result (IsNearer self.old self.new) }
    {
        let own = self.stack.last(size);
        let group = own.total();
        let speed = speed_of(&group);
        if size.jobs == 1 {
            self.found.add_single(group, &own, speed.per_time)?;
            self.stack.drop_last(size);
            return Ok(());
        }
        let late = self.filling.fill(&own, speed)?;
        if late {
            self.closing.close(&self.filling.cells)?;
            self.stack.split_last(size, &self.closing)
        } else {
            self.found.add(group, &own, &self.filling.shares)?;
            self.stack.drop_last(size);
            Ok(())
        }
    }
}

/// Groups of jobs and stretches, the fastest first, with the shares of jobs in stretches. `timeline` is that of the jobs.
pub fn find(alloc: Global, rows: &[JobRow], timeline: &Timeline) -> Result<Found, Memory>
    requires few { length rows.now ≤ MAX_JOBS }
    requires jobs { All IsJob rows.now }
    requires timeline { IsTimeline rows.now timeline.now }
    ensures { IfOk result (λ found. IsFound rows.now (found_view found)) }
{
    let mut search = Search::new(alloc, rows, timeline)?;
    while let Some(size) = search.stack.sizes.pop() {
        search.advance(size)?;
    }
    Ok(search.found)
}
