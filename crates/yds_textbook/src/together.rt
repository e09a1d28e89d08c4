ghost use Rattle.std.specs.Prelude.{◌≡◌, ◌≤◌, length, map, IfOk};
ghost use Rattle.std.specs.List.{range_with_len};
ghost use Rattle.base.specs.declared.limits.TheConstants.{MAX_JOBS};
ghost use Rattle.yds_model.specs.Event.{stretches};
ghost use Rattle.yds_search.specs.Views.{found_view};
ghost use Rattle.yds_textbook.specs.Together.{stage_of_job, stage_of_stretch, found_of};

use crate::stage::Stage;
use std::alloc::Global;
use yds_events::Stretch;
use yds_model::{JobRow, Memory};
use yds_search::Found;

/// The place of the first stage with the job, or how many stages there are where none has it.
fn stage_of_job(stages: &[Stage], job: u32) -> u32
    requires { length stages.now ≤ MAX_JOBS }
    ensures { result ≡ stage_of_job stages.now job }
{
    for (place, stage) in stages.iter().enumerate() {
        if stage.members.contains(&job) {
            return place as u32;
        }
    }
    stages.len() as u32
}

/// The place of the first stage with the stretch, or how many stages there are where none has it.
fn stage_of_stretch(stages: &[Stage], stretch: u32) -> u32
    requires { length stages.now ≤ MAX_JOBS }
    ensures { result ≡ stage_of_stretch stages.now stretch }
{
    for (place, stage) in stages.iter().enumerate() {
        if stage.stretches.contains(&stretch) {
            return place as u32;
        }
    }
    stages.len() as u32
}

/// The stage of each of so many jobs.
fn stages_of_jobs(alloc: Global, stages: &[Stage], jobs: u32) -> Result<Vec<u32>, Memory>
    requires { length stages.now ≤ MAX_JOBS }
    ensures { IfOk result (λ places. places.items ≡ map (stage_of_job stages.now) (range_with_len 0 jobs)) }
{
    let mut places = Vec::new(alloc);
    for job in 0..jobs {
        places.push(stage_of_job(stages, job))?;
    }
    Ok(places)
}

/// The stage of each of so many stretches.
fn stages_of_stretches(alloc: Global, stages: &[Stage], stretches: u32) -> Result<Vec<u32>, Memory>
    requires { length stages.now ≤ MAX_JOBS }
    ensures { IfOk result (λ places. places.items ≡ map (stage_of_stretch stages.now) (range_with_len 0 stretches)) }
{
    let mut places = Vec::new(alloc);
    for stretch in 0..stretches {
        places.push(stage_of_stretch(stages, stretch))?;
    }
    Ok(places)
}

/// The stages together: the group of each job and of each stretch is the stage that has it.
pub(crate) fn found_of(
    alloc: Global,
    rows: &[JobRow],
    timeline: &[Stretch],
    stages: &[Stage],
) -> Result<Found, Memory>
    requires few { length rows.now ≤ MAX_JOBS }
    requires timeline { timeline.now ≡ stretches rows.now }
    requires few_stages { length stages.now ≤ MAX_JOBS }
    ensures { IfOk result (λ found. found_view found ≡ found_of rows.now stages.now) }
{
    let mut groups = Vec::new(alloc);
    let mut shares = Vec::new(alloc);
    for stage in stages {
        groups.push(stage.group)?;
        shares.extend_from_slice(&stage.shares)?;
    }
    Ok(Found {
        groups,
        group_of_job: stages_of_jobs(alloc, stages, rows.len() as u32)?,
        group_of_stretch: stages_of_stretches(alloc, stages, timeline.len() as u32)?,
        shares,
    })
}
