//! What is asked of a trace. All times are nanoseconds.

/// A thread, as a task names it.
#[derive(Debug, Drop)]
pub enum Which {
    /// By its name, as the trace has it.
    Named(Vec<u8>),
    /// By its number.
    Numbered(u64),
}

/// A task: a thread, and the time within which each of its jobs is to end.
#[derive(Debug, Drop)]
pub struct Task {
    /// How its jobs are called.
    pub label: Vec<u8>,
    /// Which thread it is.
    pub thread: Which,
    /// The time from a job's begin to its deadline.
    pub deadline: u64,
    /// A wake-up that comes less than so long after a job's begin goes on with that job; with 0 none does.
    pub apart: u64,
    /// A job is due no later than so long behind the one before it; with 0 it is due by its own begin alone.
    pub period: u64,
}

/// A processor's speed before its first change.
#[derive(Clone, Copy, Debug, PartialEq, Eq)]
pub struct StartSpeed {
    /// Which processor it is.
    pub processor: u32,
    /// Its speed in kilohertz.
    pub khz: u64,
}

/// The speeds before the first change.
#[derive(Debug, Drop)]
pub enum Start {
    /// Each processor has this one throughout, in kilohertz: no line tells another, and what was lost has no change.
    Fixed(u64),
    /// Each processor has this one, in kilohertz.
    Same(u64),
    /// These have theirs, and of no other it is known. Of a processor that stands there twice the first counts.
    Listed(Vec<StartSpeed>),
}

/// What is asked of a trace.
#[derive(Debug, Drop)]
pub struct Asked {
    /// Whose jobs. A task's number is its place here, counted from 0.
    pub tasks: Vec<Task>,
    /// On which processor.
    pub processor: u64,
    /// So many nanoseconds are a unit of time.
    pub unit: u64,
    /// So many kilohertz are a unit of speed.
    pub khz: u64,
    /// The speeds before the first change.
    pub start: Start,
    /// From when on jobs are asked for.
    pub from: Option<u64>,
    /// Up to when jobs are asked for.
    pub to: Option<u64>,
    /// Whether jobs begin at their first run, and wake-ups aren't read.
    pub begin_at_run: bool,
    /// Whether to go on where events were lost, and to leave out the jobs that may have been open there.
    pub cut_losses: bool,
    /// Whether it is told in parts, documents one after another.
    pub in_parts: bool,
    /// Whether each processor has documents of its own, and not just `processor`.
    pub everywhere: bool,
    /// Whether of a job that ran on several processors the documents of each have what it ran there.
    pub moved_parts: bool,
    /// Of this processor it is told who else had it while a job waited.
    pub others: Option<u64>,
}
