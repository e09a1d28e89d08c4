ghost use Rattle.std.specs.Prelude.{◌≡◌, ◌≤◌, length, map, IfOk};
ghost use Rattle.std.specs.List.{All, range_with_len};
ghost use Rattle.base.specs.declared.limits.TheConstants.{MAX_JOBS};
ghost use Rattle.yds_model.specs.Job.{IsJob};
ghost use Rattle.yds_model.specs.Event.{stretches};
ghost use Rattle.yds_search.specs.Found.{IsFound};
ghost use Rattle.yds_search.specs.Views.{found_view};
ghost use Rattle.yds_plan.specs.Laid.{laid_slots, level_of, levels_of};
ghost use Rattle.yds_plan.specs.Timetabled.{IsTimetabled};
ghost use Rattle.yds_plan.specs.Drafts.{AreGroupsWithin, drafts};

mod levels;
mod members;
mod timetable;

use self::levels::levels_of_groups;
use self::members::{add_members, add_pieces};
use self::timetable::{levels_of_stretches, timetable_of};
use std::alloc::Global;
use yds_certificate::{Certificate, Level};
use yds_events::Stretch;
use yds_model::{JobRow, Memory};
use yds_search::Found;
use yds_slots::Schedule;
use yds_timetable::{Timetable, lay};

/// A plan: a schedule of least work above every speed, and the certificate that shows it. The schedule's slots are those of the timetable.
#[derive(Drop)]
pub struct Planned {
    /// Each stretch between event points, at the speed of its level, with the jobs' shares, or idle.
    pub timetable: Timetable,
    /// The number of each stretch's level, from 0, or None where it is idle.
    pub level_of_stretch: Vec<Option<u32>>,
    /// The slots, in order of time, one for a job and stretch between event points.
    pub schedule: Schedule,
    /// The levels, the fastest first.
    pub certificate: Certificate,
}

/// The levels of what was found, and the number of each group's level.
pub(crate) fn levels_of_found(
    alloc: Global,
    timeline: &[Stretch],
    found: &Found,
) -> Result<(Vec<Level>, Vec<u32>), Memory>
    requires groups { AreGroupsWithin (found_view found.now).groups }
    requires jobs { length found.now.group_of_job.items ≤ MAX_JOBS }
    requires stretches { length found.now.group_of_stretch.items ≡ length timeline.now }
    ensures levels { IfOk result (λ r. r.0.items ≡ drafts timeline.now (found_view found.now) (length found.now.group_of_job.items) (length timeline.now)) }
    ensures numbers { IfOk result (λ r. r.1.items ≡ map (level_of (found_view found.now).groups) (range_with_len 0 (length (found_view found.now).groups))) }
{
    let (mut levels, numbers) = levels_of_groups(alloc, &found.groups)?;
    add_members(found, &numbers, &mut levels)?;
    add_pieces(timeline, found, &numbers, &mut levels)?;
    Ok((levels, numbers))
}

/// The plan of what was found: each stretch is filled from its start with its shares, and groups of the same speed make one level.
pub fn lay_out(
    alloc: Global,
    rows: &[JobRow],
    timeline: &[Stretch],
    found: &Found,
) -> Result<Planned, Memory>
    requires found { IsFound rows.now (found_view found.now) }
    requires jobs { All IsJob rows.now }
    requires few { length rows.now ≤ MAX_JOBS }
    requires timeline { timeline.now ≡ stretches rows.now }
    ensures schedule { IfOk result (λ planned. planned.schedule ≡ record { jobs = length rows.now; slots = laid_slots rows.now (found_view found.now) }) }
    ensures certificate { IfOk result (λ planned. planned.certificate ≡ levels_of rows.now (found_view found.now)) }
    ensures timetable { IfOk result (λ planned. IsTimetabled rows.now planned.timetable planned.level_of_stretch.items planned.schedule.slots planned.certificate) }
{
    let timetable = timetable_of(alloc, rows, timeline, found)?;
    let schedule = lay(alloc, rows.len() as u32, &timetable)?;
    let (levels, numbers) = levels_of_found(alloc, timeline, found)?;
    let level_of_stretch = levels_of_stretches(alloc, &found.group_of_stretch, &numbers)?;
    Ok(Planned {
        timetable,
        level_of_stretch,
        schedule,
        certificate: Certificate::from_levels(levels),
    })
}
