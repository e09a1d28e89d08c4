use yds_audit::Verdict;

/// What the checker says of a certificate: that it is proper, or the first condition that fails.
///
/// The conditions are tried in this order, each over all its levels, jobs or slots in order before the next. Levels,
/// jobs and slots are told by their numbers, from 0.
#[derive(Clone, Copy, Debug)]
pub enum Judgement {
    /// The certificate is proper, so the schedule is least.
    Accepted,
    /// The slots aren't feasible; the auditor's verdict.
    Slots(Verdict),
    /// The level has no piece, a piece of it takes no time or begins before the end of the one before it, or one
    /// overlaps a piece of an earlier level.
    Pieces(u32),
    /// The job doesn't stand just once among the members, or, where it has no work, stands there twice or more often.
    Members(u32),
    /// The level's work isn't its members' together, or its length isn't its pieces'.
    Sums(u32),
    /// The level is faster than the one before it.
    Order(u32),
    /// The job's window isn't covered by the pieces of its own and earlier levels.
    Window(u32),
    /// The slot hasn't the speed of its job's level.
    Speed(u32),
}
