//! Calls `yds_checker`.

ghost use Rattle.std.specs.Prelude.{◌≡◌, ◌<◌, ◌≤◌, ◌↔◌, length, IsTrue, IfOk};
ghost use Rattle.std.specs.List.{All};
ghost use Rattle.yds_model.specs.Excess.{IsLeast};
ghost use Rattle.yds_model.specs.Proper.{IsProper};

use std::alloc::Global;
use yds_certificate::Certificate;
use yds_checker::{Judgement, check};
use yds_model::limits::MAX_JOBS;
use yds_model::{JobRow, Memory};
use yds_slots::Schedule;

/// Whether these levels are a proper certificate of the schedule, whoever made the two. Then the schedule is least.
pub fn is_shown_least(
    alloc: Global,
    rows: &[JobRow],
    schedule: &Schedule,
    certificate: &Certificate,
) -> Result<bool, Memory>
    requires jobs { schedule.now.jobs ≡ length rows.now }
    requires few { length rows.now ≤ MAX_JOBS }
    requires known { All (λ level. All (λ number. number < length rows.now) level.members) certificate.now }
    ensures proper { IfOk result (λ shown. IsTrue shown ↔ IsProper rows.now schedule.now.slots certificate.now) }
    ensures least { IfOk result (λ shown. IsTrue shown → IsLeast rows.now schedule.now.slots) }
{
    match check(alloc, rows, schedule, certificate) {
        Ok(judgement) => Ok(is_accepted(&judgement)),
        Err(error) => Err(error),
    }
}

/// Whether the judgement is that the levels show it.
fn is_accepted(judgement: &Judgement) -> bool
    ensures { IsTrue result ↔ judgement.now ≡ Judgement.Accepted }
{
    match judgement {
        Judgement::Accepted => true,
        _ => false,
    }
}
