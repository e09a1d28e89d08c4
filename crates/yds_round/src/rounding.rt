ghost use Rattle.std.specs.Prelude.{◌≡◌, ◌<◌, ◌≤◌, ◌++◌, length, IfOk, OnOk, IfErr, Err, MatchOption};
ghost use Rattle.std.specs.List.{All, AllZip};
ghost use Rattle.base.specs.declared.limits.TheConstants.{MAX_ENERGY, MAX_JOBS};
ghost use Rattle.yds_model.specs.Plan.{IsPlan};
ghost use Rattle.yds_model.specs.Rounding.{IsTooFast, IsRounding};
ghost use Rattle.yds_model.specs.Within.{IsFraction, AreSlotsOf};
ghost use Rattle.yds_timetable.specs.Timetable.{row_at, IsRow};
ghost use Rattle.yds_plan.specs.Timetabled.{IsTimetabled};
ghost use Rattle.yds_round.specs.Fault.{IsCauseOfRoundFault, HasFastLevel, too_slow};
ghost use Rattle.yds_round.specs.LevelPace.{RunsAs};
ghost use Rattle.yds_round.specs.Written.{written_at};
ghost use Rattle.yds_round.specs.Cut.{CanKeep, CanRound};
ghost use Rattle.yds_round.specs.Rounded.{written_to};

use crate::cut::Cut;
use crate::fault::RoundFault;
use crate::level_pace::pace_of;
use crate::split::Split;
use std::alloc::Global;
use yds_certificate::Level;
use yds_fraction::Amount;
use yds_model::{JobRow, Memory};
use yds_plan::{Planned, read_rows};
use yds_slots::{Schedule, Slot};
use yds_spending::plan_spent;
use yds_table::Table;
use yds_timetable::Timetable;

/// A plan on operating points, with what it spends.
#[derive(Drop)]
pub struct Rounded {
    /// The slots, in order of time, each at the speed of a point.
    pub schedule: Schedule,
    /// The energy of the slots and of the time of the horizon in which nothing runs, in lowest terms.
    pub energy: Amount,
}

/// Why a plan of these levels can't be rounded: the first of them is faster than the table's last point. Takes no memory.
pub fn fault_of(table: &Table, levels: &[Level]) -> Option<RoundFault>
    ensures { MatchOption result (¬ (HasFastLevel levels.now table.now))
        (λ fault. HasFastLevel levels.now table.now × (fault ≡ too_slow levels.now table.now)) }
{
    let [fastest, ..] = levels else {
        return None;
    };
    if table.around(fastest.speed()).is_some() {
        return None;
    }
    Some(RoundFault::TooSlow {
        work: fastest.work,
        length: fastest.length,
        top: table.top(),
    })
}

/// How each level runs on the table.
fn paces_of(alloc: Global, table: &Table, levels: &[Level]) -> Result<Vec<Option<Split>>, Memory>
    requires { All (λ level. ¬ (IsTooFast table.now level)) levels.now }
    ensures { IfOk result (λ paces. AllZip (RunsAs table.now) levels.now paces.items) }
{
    let mut paces = Vec::with_capacity(alloc, levels.len())?;
    for level in levels {
        paces.push(pace_of(level, table))?;
    }
    Ok(paces)
}

/// Puts the slots last, as they are.
fn keep(planned: &[Slot], rounded: &mut Schedule) -> Result<(), Memory>
    requires { CanKeep rounded.old.jobs rounded.old.slots planned.now }
    ensures { OnOk result (rounded.new ≡ record { jobs = rounded.old.jobs; slots = rounded.old.slots ++ planned.now }) }
{
    for slot in planned {
        rounded.push(*slot)?;
    }
    Ok(())
}

/// Puts last what is written for the stretch with this number, in which the plan has these slots.
fn round_stretch(
    timetable: &Timetable,
    number: usize,
    planned: &[Slot],
    pace: Option<Split>,
    rounded: &mut Schedule,
) -> Result<(), Memory>
    requires known { number < length timetable.now }
    requires can { CanRound pace (row_at timetable.now number).stretch rounded.old.jobs rounded.old.slots
        (row_at timetable.now number).shares planned.now }
    ensures { OnOk result (rounded.new ≡ record {
      jobs = rounded.old.jobs;
      slots = rounded.old.slots ++ written_at (row_at timetable.now number).stretch (row_at timetable.now number).shares planned.now pace;
    }) }
{
    match pace {
        Some(split) => {
            Cut::of(split, timetable.stretch(number)).serve(timetable.shares(number), rounded)
        }
        None => keep(planned, rounded),
    }
}

/// The plan's shares and slots at the paces of their levels, stretch by stretch.
fn round_slots(
    alloc: Global,
    rows: &[JobRow],
    plan: &Planned,
    table: &Table,
    paces: &[Option<Split>],
) -> Result<Schedule, Memory>
    requires few { length rows.now ≤ MAX_JOBS }
    requires plan { IsPlan rows.now plan.now.schedule.slots plan.now.certificate }
    requires timetable { IsTimetabled rows.now plan.now.timetable plan.now.level_of_stretch.items plan.now.schedule.slots plan.now.certificate }
    requires paces { AllZip (RunsAs table.now) plan.now.certificate paces.now }
    ensures written { IfOk result (λ rounded. rounded ≡ record {
      jobs = length rows.now;
      slots = written_to paces.now plan.now.timetable plan.now.level_of_stretch.items (length plan.now.timetable);
    }) }
    ensures rows { IfOk result (λ _. All IsRow plan.now.timetable) }
{
    let timetable = &plan.timetable;
    let mut rest = plan.schedule.slots();
    let mut rounded = Schedule::with_capacity(
        alloc,
        rows.len() as u32,
        rest.len() + timetable.len(),
    )?;
    for number in 0..timetable.len() {
        let (planned, later) = rest.split_at(timetable.shares(number).len());
        if let Some(level) = plan.level_of_stretch[number] {
            round_stretch(
                timetable,
                number,
                planned,
                paces[level as usize],
                &mut rounded,
            )?;
        }
        rest = later;
    }
    Ok(rounded)
}

/// Rounds the plan of these jobs to the points of the table.
///
/// Where a level's speed is that of a point of the table's lower hull its slots are kept. Elsewhere each stretch between
/// event points runs first at the faster of the hull's two points around the speed, and then at the slower, in the plan's
/// order, so long as gives each job its work. Two points are enough: Ishihara and Yasuura (ISLPED 1998).
pub fn round(
    alloc: Global,
    rows: &[JobRow],
    plan: &Planned,
    table: &Table,
) -> Result<Rounded, RoundFault>
    requires few { length rows.now ≤ MAX_JOBS }
    requires plan { IsPlan rows.now plan.now.schedule.slots plan.now.certificate }
    requires timetable { IsTimetabled rows.now plan.now.timetable plan.now.level_of_stretch.items plan.now.schedule.slots plan.now.certificate }
    ensures rounding { IfOk result (λ rounded. IsRounding rows.now table.now plan.now.schedule.slots plan.now.certificate rounded.schedule.slots rounded.energy) }
    ensures jobs { IfOk result (λ rounded. rounded.schedule.jobs ≡ length rows.now) }
    ensures slots { IfOk result (λ rounded. AreSlotsOf (length rows.now) rounded.schedule.slots) }
    ensures energy { IfOk result (λ rounded. IsFraction MAX_ENERGY rounded.energy) }
    ensures cause { IfErr result (IsCauseOfRoundFault plan.now.certificate table.now) }
    ensures too_slow { HasFastLevel plan.now.certificate table.now → result ≡ Err (too_slow plan.now.certificate table.now) }
{
    let levels = plan.certificate.levels();
    if let Some(fault) = fault_of(table, levels) {
        return Err(fault);
    }
    let paces = paces_of(alloc, table, levels)?;
    let schedule = round_slots(alloc, rows, plan, table, &paces)?;
    // The rounded slots spend what the plan does.
    read_rows(rows);
    let spent = plan_spent(alloc, rows, levels, table)?;
    let energy = spent.energy;
    // Reading the points shows that they are a table, and reading the slots and the energy that they are within the limits.
    let _points = table.points();
    let _slots = schedule.slots();
    let _whole = energy.whole();
    Ok(Rounded { schedule, energy })
}
