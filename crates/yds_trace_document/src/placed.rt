//! The runs of a document in order of time.
ghost use Rattle.std.specs.Prelude.{◌≡◌, ◌++◌, IfOk, OnOk};
ghost use Rattle.std.specs.List.{flat_map, enumerate_from};
ghost use Rattle.yds_trace.specs.Document.{placed_runs, all_runs};
ghost use Rattle.yds_trace_document.specs.Kept.{placed_of};
ghost use Rattle.yds_trace_document.specs.Views.{runs_read, written_list, placed_list};

use crate::run::Run;
use crate::written::Written;
use base::Memory;
use std::alloc::Global;

/// A run of the job at this place among those written.
#[derive(Clone, Copy, Debug, PartialEq, Eq)]
pub struct Placed {
    pub job: usize,
    pub run: Run,
}

/// Puts a job's runs behind the others.
fn put_runs(job: usize, runs: &[Run], placed: &mut Vec<Placed>) -> Result<(), Memory>
    ensures { OnOk result (placed_list placed.new.items ≡ placed_list placed.old.items ++ placed_of job (runs_read runs.now)) }
{
    for run in runs {
        placed.push(Placed { job, run: *run })?;
    }
    Ok(())
}

/// The runs of these jobs, job by job.
#[tactic(auto, using(crate::proofs::Steps::placed_more))]
fn placed_by_job(alloc: Global, jobs: &[Written<'_>]) -> Result<Vec<Placed>, Memory>
    ensures { IfOk result (λ placed. placed_list placed.items ≡ flat_map placed_runs (enumerate_from 0 (written_list jobs.now))) }
{
    let mut placed = Vec::new(alloc);
    for (place, job) in jobs.iter().enumerate() {
        put_runs(place, &job.runs, &mut placed)?;
    }
    Ok(placed)
}

/// The runs of these jobs in order of time.
pub(crate) fn placed_in_order(alloc: Global, jobs: &[Written<'_>]) -> Result<Vec<Placed>, Memory>
    ensures { IfOk result (λ placed. placed_list placed.items ≡ all_runs (written_list jobs.now)) }
{
    let mut placed = placed_by_job(alloc, jobs)?;
    placed.sort_by_key(|placed| placed.run.from)?;
    Ok(placed)
}
