ghost use Rattle.std.specs.Prelude.{◌≡◌, ◌*◌, ◌≤◌, ◌<◌, ◌↔◌, length, List, Option, Some, MatchOption, IsTrue, option_copied};
ghost use Rattle.std.specs.List.{All};
ghost use Rattle.base.specs.declared.limits.TheConstants.{MAX_JOBS, MAX_SLOTS};
ghost use Rattle.base.specs.Numbers.{Each};
ghost use Rattle.yds_model.specs.Feasible.{IsFeasible};
ghost use Rattle.yds_model.specs.Audit.{IsOnTable, grain_of, parts_given, Stands, GetsItsWork, IsVerdict, AreSlots};
ghost use Rattle.yds_model.specs.Table.{Point as TablePoint};
ghost use Rattle.yds_audit.specs.Verdict.{verdict_view};

use crate::slot_verdict::slot_verdict;
use crate::verdict::Verdict;
use yds_fraction::Amount;
use yds_hull::Point;
use yds_model::JobRow;
use yds_slots::{Schedule, Slot};
use yds_table::Table;

/// The verdict of the first slot with which something is wrong, if there is one.
fn first_wrong_slot(rows: &[JobRow], slots: &[Slot], points: Option<&[Point]>) -> Option<Verdict>
    requires few { length slots.now ≤ MAX_SLOTS }
    requires known { All (λ slot. slot.job < length rows.now) slots.now }
    ensures { MatchOption result
        (Each (length slots.now) (Stands rows.now (option_copied points.entry) slots.now))
        (λ verdict. IsVerdict rows.now (option_copied points.entry) slots.now (verdict_view verdict)) }
{
    for i in 0..slots.len() {
        if let Some(verdict) = slot_verdict(rows, slots, i, points) {
            return Some(verdict);
        }
    }
    None
}

/// Whether the slots give the job just this work, in units of work.
fn gives(schedule: &Schedule, job: u32, work: u32) -> bool
    requires known { job < schedule.now.jobs }
    ensures { IsTrue result ↔ (parts_given schedule.now.slots job ≡ work * grain_of schedule.now.slots job) }
{
    schedule.given(job) == Amount::from_whole(work.into())
}

/// The verdict of the first job that doesn't get just its work, if there is one, of slots with which nothing is wrong.
fn first_wrong_work(rows: &[JobRow], schedule: &Schedule) -> Option<Verdict>
    requires jobs { schedule.now.jobs ≡ length rows.now }
    requires few { length rows.now ≤ MAX_JOBS }
    ensures { MatchOption result
        (Each (length rows.now) (GetsItsWork rows.now schedule.now.slots))
        (λ verdict. (table : Option (List TablePoint)) →
        Each (length schedule.now.slots) (Stands rows.now table schedule.now.slots) →
        IsVerdict rows.now table schedule.now.slots (verdict_view verdict)) }
{
    for (i, row) in rows.iter().enumerate() {
        let job = i as u32;
        if !gives(schedule, job, row.work) {
            return Some(Verdict::Work {
                job,
                given: schedule.given(job),
                wanted: row.work,
            });
        }
    }
    None
}

/// The verdict by these points, or of any speeds where none are given.
fn verdict_of(rows: &[JobRow], schedule: &Schedule, points: Option<&[Point]>) -> Verdict
    requires jobs { schedule.now.jobs ≡ length rows.now }
    requires few { length rows.now ≤ MAX_JOBS }
    ensures exact { IsVerdict rows.now (option_copied points.entry) schedule.now.slots (verdict_view result) }
    ensures agree { AreSlots schedule.now.jobs schedule.now.slots }
{
    if let Some(verdict) = first_wrong_slot(rows, schedule.slots(), points) {
        return verdict;
    }
    match first_wrong_work(rows, schedule) {
        Some(verdict) => verdict,
        None => Verdict::Feasible,
    }
}

/// Whether the schedule is feasible for the jobs, and if not, the first cause. With a table each slot has also to run
/// at the speed of one of its points.
pub fn audit(rows: &[JobRow], schedule: &Schedule, table: Option<&Table>) -> Verdict
    requires jobs { schedule.now.jobs ≡ length rows.now }
    requires few { length rows.now ≤ MAX_JOBS }
    ensures exact { IsVerdict rows.now (option_copied table.entry) schedule.now.slots (verdict_view result) }
    ensures feasible { MatchOption (option_copied table.entry)
        (result ≡ Verdict.Feasible ↔ IsFeasible rows.now schedule.now.slots)
        (λ points. result ≡ Verdict.Feasible ↔
        (IsFeasible rows.now schedule.now.slots × All (IsOnTable (Some points)) schedule.now.slots)) }
{
    verdict_of(rows, schedule, table.map(|table| table.points()))
}
