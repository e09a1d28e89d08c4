ghost use Rattle.std.specs.Prelude.{◌≡◌, ◌<◌, ◌≤◌, IfOk, length, All};
ghost use Rattle.yds_model.specs.Within.{AreSlotsOf};
ghost use Rattle.yds_model.specs.Admission.{IsAdmission, IsAdmittedRun, jobs_with};

use crate::decision::decide;
use crate::refusal::Refusal;
use crate::serving::serve;
use std::alloc::Global;
use yds_model::limits::{MAX_JOBS, MAX_TOP};
use yds_model::{JobRow, Memory};
use yds_slots::Schedule;

/// Which jobs are admitted, why the others aren't, and how the admitted ones are served.
#[derive(Drop)]
pub struct Admission {
    /// The numbers of the admitted jobs, in order, from 0.
    pub taken: Vec<u32>,
    /// A refusal for each other job, in order.
    pub refused: Vec<Refusal>,
    /// The slots. A slot's job is a place among the admitted ones, from 0.
    pub schedule: Schedule,
}

/// Admits jobs under a top speed, in work per time unit: in their order, each job that a processor of that speed can
/// still serve beside the jobs admitted before it. It doesn't admit as many jobs as possible.
///
/// The schedule serves the admitted jobs earliest deadline first over their own event points: in each stretch at the top
/// speed, or with all that is pending where that is less.
pub fn admit(alloc: Global, rows: &[JobRow], top: u32) -> Result<Admission, Memory>
    requires few { length rows.now ≤ MAX_JOBS }
    requires some_top { 1 ≤ top }
    requires top_in_range { top ≤ MAX_TOP }
    ensures admission { IfOk result (λ admission. IsAdmission rows.now top admission.taken.items admission.refused.items) }
    ensures run { IfOk result (λ admission.
        IsAdmittedRun (jobs_with rows.now admission.taken.items) top admission.schedule.slots) }
    ensures jobs { IfOk result (λ admission. admission.schedule.jobs ≡ length admission.taken.items) }
    ensures taken_known { IfOk result (λ admission. All (λ number. number < length rows.now) admission.taken.items) }
    ensures refused_known { IfOk result (λ admission. All (λ refusal. refusal.job < length rows.now) admission.refused.items) }
    ensures limits { IfOk result (λ admission. AreSlotsOf (length admission.taken.items) admission.schedule.slots) }
{
    let decision = decide(alloc, rows, top)?;
    let schedule = serve(alloc, &decision.jobs, top)?;
    Ok(Admission {
        taken: decision.taken,
        refused: decision.refused,
        schedule,
    })
}
