ghost use Rattle.std.specs.Prelude.{◌≡◌, ◌≤◌, IfOk, length};
ghost use Rattle.yds_model.specs.Within.{AreSlotsOf};
ghost use Rattle.yds_model.specs.Admission.{IsAdmittedRun};
ghost use Rattle.yds_laws.specs.AdmissionLaws.{HasRoom};

use std::alloc::Global;
use yds_edf::{Policy, Queue, Setting, run_policy};
use yds_events::Stretch;
use yds_model::limits::{MAX_JOBS, MAX_TOP};
use yds_model::{JobRow, Memory};
use yds_slots::Schedule;

/// The policy of a top speed: a stretch serves all that the speed does in its length, or all that is pending.
#[derive(Drop)]
struct TopSpeed {
    /// In work per time unit.
    top: u32,
}

impl Policy for TopSpeed {
    ghost use Rattle.std.specs.Prelude.{false};
    ghost use Rattle.yds_admit.specs.Serving.{top_units};

    ghost units = { λ policy jobs grid pending stretch. top_units policy.top stretch };

    ghost rounds = { λ policy jobs grid pending stretch. false };

    ghost keeps = { λ policy jobs number. Unit {0} };

    fn set(&mut self, _number: u32, _queue: &Queue, stretch: Stretch) -> Setting {
        Setting {
            units: u64::from(self.top) * u64::from(stretch.length()),
            rounds: false,
        }
    }
}

/// The schedule of admitted jobs, earliest deadline first: in each stretch at the top speed, or with all that is pending
/// where that is less.
pub(crate) fn serve(alloc: Global, jobs: &[JobRow], top: u32) -> Result<Schedule, Memory>
    requires few { length jobs.now ≤ MAX_JOBS }
    requires top_in_range { top ≤ MAX_TOP }
    requires room { HasRoom top jobs.now }
    ensures run { IfOk result (λ schedule. IsAdmittedRun jobs.now top schedule.slots) }
    ensures jobs { IfOk result (λ schedule. schedule.jobs ≡ length jobs.now) }
    ensures limits { IfOk result (λ schedule. AreSlotsOf (length jobs.now) schedule.slots) }
{
    let run = run_policy(alloc, jobs, 1, &mut TopSpeed { top })?;
    Ok(run.schedule)
}
