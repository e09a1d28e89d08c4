//! The limits of a document.
ghost use Rattle.std.specs.Prelude.{◌≡◌, ◌||◌, get_or, nat_lt, position};
ghost use Rattle.std.specs.List.{list_any};
ghost use Rattle.yds_trace.specs.Document as document;
ghost use Rattle.yds_trace.specs.Views.{asked_read};
ghost use Rattle.yds_trace_document.specs.Limits as spec;
ghost use Rattle.yds_trace_document.specs.Part as part;
ghost use Rattle.yds_trace_document.specs.Views.{units_read, run_read, judged_read, judged_list, written_read, written_list, settled_read};

use crate::fault::DocumentFault;
use crate::judged::Judged;
use crate::left_out::most_left_out;
use crate::run::Run;
use crate::settlement::Settled;
use crate::units::Units;
use crate::written::Written;
use base::limits::{MAX_JOBS, MAX_RUN_SPEED, MAX_SLOTS, MAX_TIME, MAX_WORK};
use yds_trace::{Asked, Cut, Reason, Stretch};

/// The first cause for which what is settled isn't written as a document, if there is one. Of each job it has to be known whether
/// it is late, and with `strict` none may be missed. It takes no memory.
pub fn limit_fault(strict: bool, settled: &Settled<'_>) -> Option<DocumentFault>
    ensures { result ≡ spec.limit_fault strict (settled_read settled.now) }
{
    if settled.jobs.len() > MAX_JOBS {
        return Some(DocumentFault::TooManyJobs);
    }
    if settled.runs.len() > MAX_SLOTS {
        return Some(DocumentFault::TooManyRuns);
    }
    if let Some(fault) = job_fault(settled.units, &settled.jobs) {
        return Some(fault);
    }
    if let Some(fault) = speed_fault(settled.units, &settled.judged) {
        return Some(fault);
    }
    if settled.jobs.is_empty() {
        return Some(DocumentFault::NoJob(most_left_out(&settled.judged)));
    }
    late_fault(strict, &settled.judged)
}

/// The first cause for which what is settled of a part isn't written behind the parts of this cut. The last one may be without a
/// job where there are others, and each one where each processor has its own. It takes no memory.
pub fn part_limit_fault(
    asked: &Asked,
    strict: bool,
    cut: Cut,
    settled: &Settled<'_>,
) -> Option<DocumentFault>
    ensures { result ≡ part.part_limit_fault (asked_read asked.now) strict cut (settled_read settled.now) }
{
    if !may_be_empty(asked, cut) || !settled.jobs.is_empty() {
        return limit_fault(strict, settled);
    }
    late_fault(strict, &settled.judged)
}

/// Whether a part behind those of this cut may be without a job.
fn may_be_empty(asked: &Asked, cut: Cut) -> bool
    ensures { result ≡ asked.now.everywhere || nat_lt 0 cut.parts }
{
    asked.everywhere || cut.parts > 0
}

/// The first name, time or work of a job that is above its limit.
#[tactic(auto, using(crate::proofs::Lists::position_map))]
fn job_fault(units: Units, jobs: &[Written<'_>]) -> Option<DocumentFault>
    ensures { result ≡ spec.job_fault (units_read units) (written_list jobs.now) }
{
    if let Some(place) = first_long(jobs) {
        return Some(DocumentFault::NameTooLong(place));
    }
    if let Some(place) = first_beyond(jobs) {
        return Some(DocumentFault::TimeTooGreat(place));
    }
    match first_heavy(jobs) {
        Some(place) => Some(work_fault(units, jobs, place)),
        None => None,
    }
}

/// That the job at this place has too much work.
fn work_fault(units: Units, jobs: &[Written<'_>], place: usize) -> DocumentFault
    ensures { result ≡ spec.work_fault (units_read units) (written_list jobs.now) place }
{
    too_heavy(units, place, work_at(jobs, place), greatest_work(jobs))
}

/// That the job at this place has so much work, and a unit that serves for the greatest work of all.
fn too_heavy(units: Units, place: usize, work: u64, greatest: u64) -> DocumentFault
    ensures { result ≡ spec.too_heavy (units_read units) place work greatest }
{
    DocumentFault::WorkTooGreat {
        place,
        work,
        us: unit_for(units, greatest),
    }
}

/// The work of the job at this place.
fn work_at(jobs: &[Written<'_>], place: usize) -> u64
    ensures { result ≡ get_or (spec.works_of (written_list jobs.now)) place 0 }
{
    match jobs.get(place) {
        Some(job) => job.work,
        None => 0,
    }
}

/// The greatest of their works.
fn greatest_work(jobs: &[Written<'_>]) -> u64
    ensures { result ≡ spec.greatest (spec.works_of (written_list jobs.now)) }
{
    let mut greatest = 0;
    for job in jobs {
        greatest = greatest.max(job.work);
    }
    greatest
}

/// The least multiple of the unit of time in which so much work is no more than a job may have, in microseconds.
fn unit_for(units: Units, work: u64) -> u64
    ensures { result ≡ spec.unit_for (units_read units) work }
{
    let times = work.saturating_sub(1) / u64::from(MAX_WORK) + 1;
    (units.time / 1_000).saturating_mul(times)
}

/// The first job whose name is too long.
fn first_long(jobs: &[Written<'_>]) -> Option<usize>
    ensures { result ≡ position (λ job. spec.is_long_name (written_read job)) jobs.now }
{
    jobs.iter().position(|job| job.name.is_long())
}

/// The first job with a time that is too great.
fn first_beyond(jobs: &[Written<'_>]) -> Option<usize>
    ensures { result ≡ position (λ job. spec.is_beyond (written_read job)) jobs.now }
{
    jobs.iter().position(|job| is_beyond(job))
}

/// The first job with too much work.
fn first_heavy(jobs: &[Written<'_>]) -> Option<usize>
    ensures { result ≡ position (λ job. spec.is_heavy (written_read job)) jobs.now }
{
    jobs.iter().position(|job| job.work > u64::from(MAX_WORK))
}

/// Whether a job's deadline or the end of one of its runs is above the greatest time of a document.
#[tactic(auto, using(crate::proofs::Lists::list_any_map))]
fn is_beyond(job: &Written<'_>) -> bool
    ensures { result ≡ spec.is_beyond (written_read job.now) }
{
    job.deadline > u64::from(MAX_TIME) || has_late_end(&job.runs)
}

fn has_late_end(runs: &[Run]) -> bool
    ensures { result ≡ list_any (λ run. spec.ends_late (run_read run)) runs.now }
{
    runs.iter().any(|run| run.to > u64::from(MAX_TIME))
}

/// The first job with a speed that can't be written.
#[tactic(auto, using(crate::proofs::Lists::position_map))]
fn speed_fault(units: Units, judged: &[Judged<'_>]) -> Option<DocumentFault>
    ensures { result ≡ spec.speed_fault (units_read units) (judged_list judged.now) }
{
    if let Some(place) = first_coarse(units, judged) {
        return Some(DocumentFault::SpeedTooCoarse(place));
    }
    match first_too_fast(units, judged) {
        Some(place) => Some(DocumentFault::SpeedTooGreat(place)),
        None => None,
    }
}

/// The first job that stands and runs at a speed that is too coarse.
fn first_coarse(units: Units, judged: &[Judged<'_>]) -> Option<usize>
    ensures { result ≡ position (λ one. spec.runs_coarsely (units_read units) (judged_read one)) judged.now }
{
    judged.iter().position(|one| runs_coarsely(units, one))
}

/// The first job that stands and runs at a speed that is too great.
fn first_too_fast(units: Units, judged: &[Judged<'_>]) -> Option<usize>
    ensures { result ≡ position (λ one. spec.runs_too_fast (units_read units) (judged_read one)) judged.now }
{
    judged.iter().position(|one| runs_too_fast(units, one))
}

#[tactic(auto, using(yds_trace::proofs::Shares::list_any_reverse))]
fn runs_coarsely(units: Units, judged: &Judged<'_>) -> bool
    ensures { result ≡ spec.runs_coarsely (units_read units) (judged_read judged.now) }
{
    judged.reason.is_none() && any_coarse(units, &judged.job.stretches)
}

fn any_coarse(units: Units, stretches: &[Stretch]) -> bool
    ensures { result ≡ list_any (spec.has_coarse_speed (units_read units)) stretches.now }
{
    stretches
        .iter()
        .any(|stretch| has_coarse_speed(units, stretch))
}

fn has_coarse_speed(units: Units, stretch: &Stretch) -> bool
    ensures { result ≡ spec.has_coarse_speed (units_read units) stretch.now }
{
    is_in_a_run(units, stretch) && units.is_coarse(stretch.khz.unwrap_or(0))
}

/// Whether a stretch is a unit of time or longer, as it is written.
fn is_in_a_run(units: Units, stretch: &Stretch) -> bool
    ensures { result ≡ spec.is_in_a_run (units_read units) stretch.now }
{
    units.written_time(stretch.from) < units.written_time(stretch.to)
}

#[tactic(auto, using(yds_trace::proofs::Shares::list_any_reverse))]
fn runs_too_fast(units: Units, judged: &Judged<'_>) -> bool
    ensures { result ≡ spec.runs_too_fast (units_read units) (judged_read judged.now) }
{
    judged.reason.is_none() && any_too_fast(units, &judged.job.stretches)
}

fn any_too_fast(units: Units, stretches: &[Stretch]) -> bool
    ensures { result ≡ list_any (spec.has_great_speed (units_read units)) stretches.now }
{
    stretches
        .iter()
        .any(|stretch| has_great_speed(units, stretch))
}

fn has_great_speed(units: Units, stretch: &Stretch) -> bool
    ensures { result ≡ spec.has_great_speed (units_read units) stretch.now }
{
    is_in_a_run(units, stretch)
        && units.written_speed(stretch.khz.unwrap_or(0)) > u64::from(MAX_RUN_SPEED)
}

/// The first job of which it isn't known whether it is late; with `strict` also the first that is missed.
fn late_fault(strict: bool, judged: &[Judged<'_>]) -> Option<DocumentFault>
    ensures { result ≡ spec.late_fault strict (judged_list judged.now) }
{
    if let Some(fault) = unsure_fault(judged) {
        return Some(fault);
    }
    if strict { missed_fault(judged) } else { None }
}

/// The first job of which it isn't known whether it is late.
#[tactic(auto, using(crate::proofs::Lists::position_map))]
fn unsure_fault(judged: &[Judged<'_>]) -> Option<DocumentFault>
    ensures { result ≡ spec.unsure_fault (judged_list judged.now) }
{
    match first_unsure(judged) {
        Some(place) => Some(DocumentFault::NotKnown(place)),
        None => None,
    }
}

fn first_unsure(judged: &[Judged<'_>]) -> Option<usize>
    ensures { result ≡ position (λ one. one.unsure) judged.now }
{
    judged.iter().position(|one| one.unsure)
}

/// The first job that is missed.
#[tactic(auto, using(crate::proofs::Lists::position_map))]
fn missed_fault(judged: &[Judged<'_>]) -> Option<DocumentFault>
    ensures { result ≡ spec.missed_fault (judged_list judged.now) }
{
    match first_missed(judged) {
        Some(place) => Some(DocumentFault::Missed(place)),
        None => None,
    }
}

fn first_missed(judged: &[Judged<'_>]) -> Option<usize>
    ensures { result ≡ position (λ one. spec.is_missed (judged_read one)) judged.now }
{
    judged.iter().position(|one| is_missed(one))
}

/// Whether a job doesn't stand as it is, where that isn't for `from` or `to`, or where it is late; or its thread was over with it.
fn is_missed(judged: &Judged<'_>) -> bool
    ensures { result ≡ spec.is_missed (judged_read judged.now) }
{
    match judged.reason {
        None => judged.job.exited,
        Some(Reason::BeforeFrom | Reason::AfterTo) => judged.late.is_some(),
        Some(_) => true,
    }
}
