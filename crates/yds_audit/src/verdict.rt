use yds_fraction::Amount;

/// What the auditor says of a schedule: that it is feasible, or the first cause why it isn't.
///
/// Slots and jobs are told by their numbers, from 0. The slots are gone through in order, and of each the first five
/// causes are tried in order; then the jobs are gone through.
#[derive(Clone, Copy, Debug)]
pub enum Verdict {
    /// The slots run one after another, each within its job's window, and each job gets its work.
    Feasible,
    /// The slot ends where it begins, or earlier.
    Backward(u32),
    /// The slot begins before the slot before it ends.
    Overlap(u32),
    /// The slot begins before its job is released.
    Early(u32),
    /// The slot ends after its job's deadline.
    Late(u32),
    /// The slot runs at the speed of no operating point.
    OffPoint(u32),
    /// The job doesn't get just its work.
    Work {
        /// The job.
        job: u32,
        /// The work that the slots give it, in units of work.
        given: Amount,
        /// The work that it wants, in units of work.
        wanted: u32,
    },
}
