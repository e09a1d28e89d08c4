ghost use Rattle.std.specs.Prelude.{◌≡◌, ◌<◌, ◌≤◌, ◌↔◌, length, IfOk};
ghost use Rattle.std.specs.List.{All};
ghost use Rattle.base.specs.declared.limits.TheConstants.{MAX_JOBS, MAX_SLOTS};
ghost use Rattle.yds_model.specs.Excess.{IsLeast};
ghost use Rattle.yds_model.specs.Audit.{AreSlots};
ghost use Rattle.yds_model.specs.Proper.{IsProper};
ghost use Rattle.yds_model.specs.Judgement.{SlotsHold, IsJudgement};
ghost use Rattle.yds_certificate.specs.Certificate.{IsCertificate};
ghost use Rattle.yds_checker.specs.Judgement.{judgement_view};

use crate::falling::first_faster;
use crate::home::homes_of;
use crate::judgement::Judgement;
use crate::member::first_wrong_member;
use crate::pieces::{Standing, standing_of};
use crate::pieces_in_turn::PiecesInTurn;
use crate::speeds::first_wrong_speed;
use crate::sums::first_wrong_sums;
use crate::windows::first_uncovered;
use std::alloc::Global;
use yds_audit::{Verdict, audit};
use yds_certificate::{Certificate, Level};
use yds_model::{JobRow, Memory};
use yds_slots::{Schedule, Slot};

/// The judgement of these levels, for slots that are feasible.
fn judgement_of_levels(
    alloc: Global,
    rows: &[JobRow],
    slots: &[Slot],
    levels: &[Level],
) -> Result<Judgement, Memory>
    requires few { length rows.now ≤ MAX_JOBS }
    requires few_slots { length slots.now ≤ MAX_SLOTS }
    requires agree { AreSlots (length rows.now) slots.now }
    requires feasible { SlotsHold rows.now slots.now }
    requires kept { IsCertificate levels.now }
    requires known { All (λ level. All (λ number. number < length rows.now) level.members) levels.now }
    ensures { IfOk result (λ judgement. IsJudgement rows.now slots.now levels.now (judgement_view judgement)) }
{
    let placed = match standing_of(alloc, levels)? {
        Standing::Apart(placed) => placed,
        Standing::Wrong(level) => return Ok(Judgement::Pieces(level)),
    };
    let homes = homes_of(alloc, rows.len(), levels)?;
    if let Some(job) = first_wrong_member(rows, &homes) {
        return Ok(Judgement::Members(job));
    }
    if let Some(level) = first_wrong_sums(rows, levels) {
        return Ok(Judgement::Sums(level));
    }
    if let Some(level) = first_faster(levels) {
        return Ok(Judgement::Order(level));
    }
    let run = PiecesInTurn::new(alloc, placed)?;
    if let Some(job) = first_uncovered(rows, &homes, &run) {
        return Ok(Judgement::Window(job));
    }
    if let Some(slot) = first_wrong_speed(rows, levels, &homes, slots) {
        return Ok(Judgement::Speed(slot));
    }
    Ok(Judgement::Accepted)
}

/// The judgement of the seven conditions.
fn judgement_of(
    alloc: Global,
    rows: &[JobRow],
    schedule: &Schedule,
    certificate: &Certificate,
) -> Result<Judgement, Memory>
    requires jobs { schedule.now.jobs ≡ length rows.now }
    requires few { length rows.now ≤ MAX_JOBS }
    requires known { All (λ level. All (λ number. number < length rows.now) level.members) certificate.now }
    ensures exact { IfOk result (λ judgement. IsJudgement rows.now schedule.now.slots certificate.now (judgement_view judgement)) }
    ensures agree { AreSlots schedule.now.jobs schedule.now.slots }
    ensures kept { IsCertificate certificate.now }
{
    let slots = schedule.slots();
    let levels = certificate.levels();
    match audit(rows, schedule, None) {
        Verdict::Feasible => judgement_of_levels(alloc, rows, slots, levels),
        verdict => Ok(Judgement::Slots(verdict)),
    }
}

/// Whether the certificate is proper for the jobs and the schedule, and if not, the first condition that fails. An
/// accepted schedule is least: above no speed does it do more work than any feasible schedule.
pub fn check(
    alloc: Global,
    rows: &[JobRow],
    schedule: &Schedule,
    certificate: &Certificate,
) -> Result<Judgement, Memory>
    requires jobs { schedule.now.jobs ≡ length rows.now }
    requires few { length rows.now ≤ MAX_JOBS }
    requires known { All (λ level. All (λ number. number < length rows.now) level.members) certificate.now }
    ensures exact { IfOk result (λ judgement. IsJudgement rows.now schedule.now.slots certificate.now (judgement_view judgement)) }
    ensures accepted { IfOk result (λ judgement.
        judgement ≡ Judgement.Accepted ↔ IsProper rows.now schedule.now.slots certificate.now) }
    ensures least { IfOk result (λ judgement. judgement ≡ Judgement.Accepted → IsLeast rows.now schedule.now.slots) }
{
    let judgement = judgement_of(alloc, rows, schedule, certificate)?;
    Ok(judgement)
}
