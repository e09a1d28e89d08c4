ghost use Rattle.std.specs.Prelude.{◌≡◌, ◌<◌, length, map, IfOk};
ghost use Rattle.std.specs.List.{All};
ghost use Rattle.yds_critical.specs.Critical.{IsCritical};
ghost use Rattle.yds_textbook.specs.Waiting.{AreLeft, contracted_jobs, inside};
ghost use Rattle.yds_textbook.specs.Stages.{IsStage, share_of_members};

use crate::serving::serve;
use crate::waiting::{Left, contracted_rows, contracted_stretches, stretches_inside};
use std::alloc::Global;
use yds_critical::Interval;
use yds_fraction::Speed;
use yds_model::Memory;
use yds_search::Group;
use yds_timetable::Share;

/// What a critical interval has: its jobs and stretches, and how they are served.
#[derive(Debug, Drop)]
pub struct Stage {
    /// The work and the length of the interval, in units of work and in time units.
    pub group: Group,
    /// The numbers of the jobs inside it, in order of deadline.
    pub members: Vec<u32>,
    /// The numbers of the stretches of real time that lie in it, in order of time.
    pub stretches: Vec<u32>,
    /// What each of the jobs gets in each of the stretches.
    pub shares: Vec<Share>,
}

/// The shares, which tell a job and a stretch by their places in these lists, with the numbers at those places.
fn shares_by_number(
    alloc: Global,
    members: &[u32],
    stretches: &[u32],
    shares: &[Share],
) -> Result<Vec<Share>, Memory>
    requires members { All (λ share. share.job < length members.now) shares.now }
    requires stretches { All (λ share. share.stretch < length stretches.now) shares.now }
    ensures { IfOk result (λ own. own.items ≡ map (share_of_members members.now stretches.now) shares.now) }
{
    let mut own = Vec::new(alloc);
    for share in shares {
        own.push(Share {
            job: members[share.job as usize],
            stretch: stretches[share.stretch as usize],
            units: share.units,
        })?;
    }
    Ok(own)
}

/// The stage of the critical interval of the waiting jobs in the time that is left. `members` are the numbers of those inside it.
pub(crate) fn stage_of(
    alloc: Global,
    left: &Left<'_>,
    members: Vec<u32>,
    interval: &Interval,
) -> Result<Stage, Memory>
    requires left { AreLeft left.now.rows.now left.now.timeline.now left.now.taken.now left.now.waiting.now }
    requires critical { IsCritical (contracted_jobs left.now.rows.now left.now.taken.now left.now.waiting.now) interval.now }
    requires members { members.items ≡ inside left.now.rows.now left.now.taken.now interval.now left.now.waiting.now }
    ensures { IfOk result (IsStage left.now.rows.now left.now.taken.now interval.now left.now.waiting.now) }
{
    let length = u64::from(interval.end - interval.start);
    let speed = Speed::new(interval.work, length).reduced();
    let inside = contracted_rows(alloc, left.rows, left.taken, &members)?;
    let stretches = stretches_inside(alloc, left.timeline, left.taken, interval)?;
    let pieces = contracted_stretches(alloc, left.timeline, left.taken, &stretches)?;
    let served = serve(alloc, &inside, &pieces, speed)?;
    let shares = shares_by_number(alloc, &members, &stretches, &served)?;
    Ok(Stage {
        group: Group {
            work: interval.work,
            length,
        },
        members,
        stretches,
        shares,
    })
}
