//! Runs of a job, in whole units.
ghost use Rattle.std.specs.Prelude.{◌≡◌, ◌∷◌, OnOk, IfOk};
ghost use Rattle.yds_trace.specs.WrittenTime as spec;
ghost use Rattle.yds_trace_document.specs.Kept as kept;
ghost use Rattle.yds_trace_document.specs.Views.{units_read, run_read, runs_read, runs_listed};

use crate::units::Units;
use base::Memory;
use std::alloc::Global;
use yds_trace::Stretch;

/// A job has the processor from one unit of time to another, at a speed in units of speed.
#[derive(Clone, Copy, Debug, PartialEq, Eq)]
pub struct Run {
    pub from: u64,
    pub to: u64,
    pub speed: u64,
}

/// A stretch in whole units.
fn run_of(units: Units, stretch: &Stretch) -> Run
    ensures { run_read result ≡ spec.run_of (units_read units) stretch.now }
{
    Run {
        from: units.written_time(stretch.from),
        to: units.written_time(stretch.to),
        speed: units.written_speed(stretch.khz.unwrap_or(0)),
    }
}

/// The runs of stretches in order of time. Stretches within one unit of time are in none.
#[tactic(auto, using(crate::proofs::Lists::map_reverse))]
pub(crate) fn runs_of(
    alloc: Global,
    units: Units,
    stretches: &[Stretch],
) -> Result<Vec<Run>, Memory>
    ensures { IfOk result (λ runs. runs_read runs.items ≡ spec.runs_of (units_read units) stretches.now) }
{
    let mut runs = Vec::new(alloc);
    let mut left = stretches.len();
    while left > 0 {
        left -= 1;
        take(run_of(units, &stretches[left]), &mut runs)?;
    }
    runs.reverse();
    Ok(runs)
}

/// One before those that are kept, of which the first one stands last.
#[tactic(auto, using(crate::proofs::Listed::runs_listed_push))]
fn put(run: Run, runs: &mut Vec<Run>) -> Result<(), Memory>
    ensures { OnOk result (runs_listed runs.new.items ≡ run_read run ∷ runs_listed runs.old.items) }
{
    runs.push(run)?;
    Ok(())
}

/// One before the others, joined to the first of them where they meet at one speed.
#[tactic(auto, using(crate::proofs::Listed::runs_listed_push))]
fn take(run: Run, runs: &mut Vec<Run>) -> Result<(), Memory>
    ensures { OnOk result (runs_listed runs.new.items ≡ kept.taken (run_read run) (runs_listed runs.old.items)) }
{
    if run.from >= run.to {
        return Ok(());
    }
    match runs.pop() {
        Some(next) => join(run, next, runs),
        None => put(run, runs),
    }
}

fn join(run: Run, next: Run, runs: &mut Vec<Run>) -> Result<(), Memory>
    ensures { OnOk result (runs_listed runs.new.items ≡ spec.before (run_read run) (run_read next ∷ runs_listed runs.old.items)) }
{
    if run.to == next.from && run.speed == next.speed {
        let whole = Run {
            from: run.from,
            to: next.to,
            speed: run.speed,
        };
        put(whole, runs)
    } else {
        put(next, runs)?;
        put(run, runs)
    }
}
