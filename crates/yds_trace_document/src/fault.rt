//! For which a trace's document isn't written.

use yds_trace::Reason;

/// Of jobs none of which is written: why most of them aren't.
#[derive(Clone, Copy, Debug, PartialEq, Eq)]
pub struct LeftOut {
    /// The reason that most of them have; of several, that of the job that began first.
    pub reason: Reason,
    /// So many have it.
    pub count: usize,
    /// How many jobs there are.
    pub all: usize,
}

/// Why a document isn't written. Places count from 0.
#[derive(Clone, Copy, Debug, PartialEq, Eq)]
pub enum DocumentFault {
    /// More jobs than a document may have.
    TooManyJobs,
    /// More runs than a document may have.
    TooManyRuns,
    /// The name of the written job at this place is longer than a name may be.
    NameTooLong(usize),
    /// The written job at this place has a deadline, or a run that ends, above the greatest time of a document.
    TimeTooGreat(usize),
    /// The written job at this place has more work than a job may have.
    WorkTooGreat {
        place: usize,
        /// In units of work. Above 64 bits it is the greatest number of 64 bits.
        work: u64,
        /// The least multiple of the unit of time that makes each job's work so much smaller that a job may have it, in
        /// microseconds. Above 64 bits it is the greatest number of 64 bits.
        us: u64,
    },
    /// The judged job at this place ran at a speed that is 0, or is by more than a twentieth off in units of speed.
    SpeedTooCoarse(usize),
    /// The judged job at this place ran at a speed above the greatest of a run.
    SpeedTooGreat(usize),
    /// No job is written: a document without one is feasible. Why most jobs aren't, or nothing where there is no job.
    NoJob(Option<LeftOut>),
    /// Where each processor has documents of its own, none of them has a job.
    NoJobAnywhere,
    /// Of the judged job at this place it isn't known whether it is late.
    NotKnown(usize),
    /// The judged job at this place doesn't stand as it is, for another reason than `from` or `to`, or it is late: no job is to
    /// be missed.
    Missed(usize),
}
