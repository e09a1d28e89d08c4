ghost use Rattle.std.specs.Prelude.{◌≡◌, ◌*◌, ◌^◌, ◌<◌, ◌≤◌, ◌++◌, ◌∷◌, [], length, replicate, IfOk, OnOk};
ghost use Rattle.std.specs.List.{All};
ghost use Rattle.base.specs.declared.limits.TheConstants.{MAX_JOBS};
ghost use Rattle.yds_search.specs.Views.{found_view};
ghost use Rattle.yds_search.specs.Numbers.{AreWritten};
ghost use Rattle.yds_search.specs.Own.{job_numbers, stretch_numbers, shares_by_number, full_shares};

use crate::own::Own;
use std::alloc::Global;
use yds_model::Memory;
use yds_timetable::Share;

/// Stands for the place of a group where there is none.
pub const NO_GROUP: u32 = u32::MAX;

/// Jobs and stretches of one speed: so much work, in units of work, in so many time units.
#[derive(Clone, Copy, Debug, PartialEq, Eq)]
pub struct Group {
    /// The work of the group's jobs, in units of work.
    pub work: u64,
    /// The length of its stretches, in time units.
    pub length: u64,
}

/// What the search finds: the groups, the fastest first, and the shares of jobs in stretches.
#[derive(Debug, Drop)]
pub struct Found {
    /// The groups, none slower than the next.
    pub groups: Vec<Group>,
    /// For each job its group's place, or `NO_GROUP` where the job has no work.
    pub group_of_job: Vec<u32>,
    /// For each stretch its group's place, or `NO_GROUP` where no job with work may run.
    pub group_of_stretch: Vec<u32>,
    /// How many units each job gets in each stretch. A unit of work has as many as the denominator of the group's speed, work in
    /// length, in lowest terms.
    pub shares: Vec<Share>,
}

impl Found {
    /// No groups yet, and room for all.
    pub(crate) fn new(alloc: Global, jobs: usize, stretches: usize) -> Result<Found, Memory>
        requires few { jobs ≤ MAX_JOBS }
        requires few_stretches { stretches ≤ 2 * MAX_JOBS }
        ensures { IfOk result (λ found. found_view found ≡ record { groups = []; group_of_job = replicate jobs NO_GROUP; group_of_stretch = replicate stretches NO_GROUP; shares = [] }) }
    {
        Ok(Found {
            groups: Vec::with_capacity(alloc, stretches)?,
            group_of_job: vec![in alloc; NO_GROUP; jobs]?,
            group_of_stretch: vec![in alloc; NO_GROUP; stretches]?,
            shares: Vec::with_capacity(alloc, jobs + stretches)?,
        })
    }

    /// One group more, without its shares.
    fn number(&mut self, group: Group, own: &Own) -> Result<(), Memory>
        requires few { length self.old.groups.items < NO_GROUP }
        requires jobs { All (λ one. one.job < length self.old.group_of_job.items) own.now.jobs.now }
        requires stretches { All (λ one. one.stretch < length self.old.group_of_stretch.items) own.now.stretches.now }
        ensures groups { OnOk result (self.new.groups.items ≡ self.old.groups.items ++ group ∷ []) }
        ensures job_numbers { OnOk result (AreWritten (λ j number. number ≡ length self.old.groups.items) (job_numbers own.now.jobs.now) (length own.now.jobs.now) self.old.group_of_job.items self.new.group_of_job.items) }
        ensures stretch_numbers { OnOk result (AreWritten (λ k number. number ≡ length self.old.groups.items) (stretch_numbers own.now.stretches.now) (length own.now.stretches.now) self.old.group_of_stretch.items self.new.group_of_stretch.items) }
        ensures shares { OnOk result (self.new.shares.items ≡ self.old.shares.items) }
    {
        let number = self.groups.len() as u32;
        self.groups.push(group)?;
        for one in own.jobs {
            self.group_of_job[one.job as usize] = number;
        }
        for one in own.stretches {
            self.group_of_stretch[one.stretch as usize] = number;
        }
        Ok(())
    }

    /// One group more, with its shares.
    pub(crate) fn add(&mut self, group: Group, own: &Own, shares: &[Share]) -> Result<(), Memory>
        requires few { length self.old.groups.items < NO_GROUP }
        requires jobs { All (λ one. one.job < length self.old.group_of_job.items) own.now.jobs.now }
        requires stretches { All (λ one. one.stretch < length self.old.group_of_stretch.items) own.now.stretches.now }
        requires share_jobs { All (λ share. share.job < length own.now.jobs.now) shares.now }
        requires share_stretches { All (λ share. share.stretch < length own.now.stretches.now) shares.now }
        ensures groups { OnOk result (self.new.groups.items ≡ self.old.groups.items ++ group ∷ []) }
        ensures job_numbers { OnOk result (AreWritten (λ j number. number ≡ length self.old.groups.items) (job_numbers own.now.jobs.now) (length own.now.jobs.now) self.old.group_of_job.items self.new.group_of_job.items) }
        ensures stretch_numbers { OnOk result (AreWritten (λ k number. number ≡ length self.old.groups.items) (stretch_numbers own.now.stretches.now) (length own.now.stretches.now) self.old.group_of_stretch.items self.new.group_of_stretch.items) }
        ensures shares { OnOk result (self.new.shares.items ≡ self.old.shares.items ++ shares_by_number own.now.jobs.now own.now.stretches.now shares.now) }
    {
        for share in shares {
            self.shares.push(Share {
                job: own.jobs[share.job as usize].job,
                stretch: own.stretches[share.stretch as usize].stretch,
                units: share.units,
            })?;
        }
        self.number(group, own)
    }

    /// One group more, of a single job, which gets all units of each stretch.
    pub(crate) fn add_single(
        &mut self,
        group: Group,
        own: &Own,
        per_time: u64,
    ) -> Result<(), Memory>
        requires few { length self.old.groups.items < NO_GROUP }
        requires single { length own.now.jobs.now ≡ 1 }
        requires fit { All (λ one. per_time * one.length < 2 ^ 64) own.now.stretches.now }
        requires some { All (λ one. 1 ≤ per_time * one.length) own.now.stretches.now }
        requires jobs { All (λ one. one.job < length self.old.group_of_job.items) own.now.jobs.now }
        requires stretches { All (λ one. one.stretch < length self.old.group_of_stretch.items) own.now.stretches.now }
        ensures groups { OnOk result (self.new.groups.items ≡ self.old.groups.items ++ group ∷ []) }
        ensures job_numbers { OnOk result (AreWritten (λ j number. number ≡ length self.old.groups.items) (job_numbers own.now.jobs.now) (length own.now.jobs.now) self.old.group_of_job.items self.new.group_of_job.items) }
        ensures stretch_numbers { OnOk result (AreWritten (λ k number. number ≡ length self.old.groups.items) (stretch_numbers own.now.stretches.now) (length own.now.stretches.now) self.old.group_of_stretch.items self.new.group_of_stretch.items) }
        ensures shares { OnOk result (self.new.shares.items ≡ self.old.shares.items ++ full_shares per_time own.now.jobs.now own.now.stretches.now) }
    {
        let job = own.jobs[0].job;
        for one in own.stretches {
            self.shares.push(Share {
                job,
                stretch: one.stretch,
                units: per_time * u64::from(one.length),
            })?;
        }
        self.number(group, own)
    }
}
