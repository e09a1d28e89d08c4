//! What was written of a trace that is told in parts.
ghost use Rattle.std.specs.Prelude.{◌≡◌};
ghost use Rattle.yds_trace.specs.Parts.{later};

/// The parts that were written up to a line. Times are nanoseconds of the trace's clock.
#[derive(Clone, Copy, Debug, PartialEq, Eq)]
pub struct Cut {
    /// The parts have the jobs that begin before this time.
    pub boundary: u64,
    /// The trace's time when the last part was written.
    pub decided: u64,
    /// How many parts there are; beyond 64 bits they aren't counted.
    pub parts: u64,
    /// How many jobs are written in them; beyond 64 bits they aren't counted.
    pub jobs: u64,
    /// The last deadline of these jobs.
    pub due: u64,
}

/// Before the first part.
pub const NO_CUT: Cut = Cut {
    boundary: 0,
    decided: 0,
    parts: 0,
    jobs: 0,
    due: 0,
};

impl Cut {
    /// Behind both cuts: a line changes its parts where it changes those of one of them.
    pub fn later(self, other: Cut) -> Cut
        ensures { result ≡ later self other }
    {
        Cut {
            boundary: self.boundary.max(other.boundary),
            decided: self.decided.max(other.decided),
            parts: self.parts,
            jobs: self.jobs,
            due: self.due,
        }
    }
}
