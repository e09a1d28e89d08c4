ghost use Rattle.std.specs.Prelude.{◌≡◌, ◌+◌, ◌*◌, ◌<◌, ◌≤◌, ◌++◌, [], length, map, IfOk, OnOk};
ghost use Rattle.std.specs.List.{All, range_with_len};
ghost use Rattle.base.specs.declared.limits.TheConstants.{MAX_JOBS};
ghost use Rattle.yds_model.specs.Job.{IsJob};
ghost use Rattle.yds_model.specs.Event.{stretches};
ghost use Rattle.yds_events.specs.Timeline.{IsTimeline};
ghost use Rattle.yds_events.specs.Window.{AreWindows};
ghost use Rattle.yds_search.specs.Searching.{IsBegun};
ghost use Rattle.yds_search.specs.Beginning.{AreFarthest, reached_before, first_jobs, first_stretches};

use crate::own::{OwnJob, OwnStretch};
use crate::stack::{Size, Stack};
use std::alloc::Global;
use yds_events::{Stretch, Timeline, Window};
use yds_model::{JobRow, Memory};

/// For each stretch the greatest end of the windows that begin with it, of jobs with work, or 0.
fn farthest(
    alloc: Global,
    rows: &[JobRow],
    windows: &[Window],
    count: usize,
) -> Result<Vec<u32>, Memory>
    requires windows { AreWindows rows.now windows.now }
    requires count { count ≡ length (stretches rows.now) }
    ensures { IfOk result (λ ends. AreFarthest rows.now windows.now (length rows.now) count ends.items) }
{
    let mut ends = vec![in alloc; 0; count]?;
    for job in 0..rows.len() {
        let row = rows[job];
        if row.work > 0 {
            let window = windows[job];
            let at = window.first as usize;
            ends[at] = ends[at].max(window.end);
        }
    }
    Ok(ends)
}

/// Adds the jobs with work, in order of deadline and number. Their windows become ranges of the stretches that are counted.
fn add_jobs(
    jobs: &mut Vec<OwnJob>,
    rows: &[JobRow],
    order: &[u32],
    windows: &[Window],
    ranks: &[u32],
) -> Result<(), Memory>
    requires known { All (λ j. j < length rows.now) order.now }
    requires windows { AreWindows rows.now windows.now }
    requires ranks { length (stretches rows.now) < length ranks.now }
    ensures { OnOk result (jobs.new.items ≡ jobs.old.items ++ first_jobs rows.now windows.now ranks.now order.now) }
{
    for job in order {
        let row = &rows[*job as usize];
        let work = row.work;
        if work > 0 {
            let window = windows[*job as usize];
            jobs.push(OwnJob {
                job: *job,
                work,
                first: ranks[window.first as usize],
                end: ranks[window.end as usize],
            })?;
        }
    }
    Ok(())
}

/// Adds the stretches in which a job with work may run. Answers for each stretch, and for the end of the last one, how many of those
/// before it are such.
fn add_stretches(
    alloc: Global,
    stretches: &mut Vec<OwnStretch>,
    timeline: &[Stretch],
    ends: &[u32],
) -> Result<Vec<u32>, Memory>
    requires few { length timeline.now ≤ 2 * MAX_JOBS }
    requires ends { length ends.now ≡ length timeline.now }
    requires none { stretches.old.items ≡ [] }
    ensures stretches { OnOk result (stretches.new.items ≡ first_stretches timeline.now ends.now) }
    ensures ranks { IfOk result (λ ranks. ranks.items ≡ map (reached_before ends.now) (range_with_len 0 (length timeline.now + 1))) }
{
    let mut ranks = Vec::with_capacity(alloc, timeline.len() + 1)?;
    let mut end = 0;
    for (stretch, own) in timeline.iter().enumerate() {
        ranks.push(stretches.len() as u32)?;
        end = end.max(ends[stretch]);
        if end as usize > stretch {
            stretches.push(OwnStretch {
                stretch: stretch as u32,
                length: own.length(),
            })?;
        }
    }
    ranks.push(stretches.len() as u32)?;
    Ok(ranks)
}

/// All jobs with work wait in one group, with the stretches in which one of them may run.
pub(crate) fn first_group(
    alloc: Global,
    rows: &[JobRow],
    timeline: &Timeline,
) -> Result<Stack, Memory>
    requires few { length rows.now ≤ MAX_JOBS }
    requires jobs { All IsJob rows.now }
    requires timeline { IsTimeline rows.now timeline.now }
    ensures { IfOk result (IsBegun rows.now) }
{
    let count = timeline.stretches.len();
    let ends = farthest(alloc, rows, &timeline.windows, count)?;
    let mut stack = Stack::new(alloc, rows.len(), count)?;
    let ranks = add_stretches(alloc, &mut stack.stretches, &timeline.stretches, &ends)?;
    add_jobs(
        &mut stack.jobs,
        rows,
        &timeline.order,
        &timeline.windows,
        &ranks,
    )?;
    let jobs = stack.jobs.len();
    let stretches = stack.stretches.len();
    if jobs > 0 {
        stack.sizes.push(Size { jobs, stretches })?;
    }
    Ok(stack)
}
