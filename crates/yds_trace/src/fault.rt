//! What is wrong with a trace, beside the form of its lines.

/// Why a line can't stand behind those before it, with the tasks that are asked for; or why a whole trace tells nothing of them.
#[derive(Clone, Copy, Debug, PartialEq, Eq)]
pub enum Cause {
    /// The number of its processor is above `MAX_PROCESSOR`.
    ProcessorTooGreat,
    /// Its time is above `MAX_TIME`.
    TimeTooGreat,
    /// Its time is before that of an earlier line.
    TimeGoesBack,
    /// Events were lost before it, or at the trace's end.
    EventsLost,
    /// A switch of a task's thread is missing before it.
    LineMissing,
    /// It tells another speed than the one that each processor is said to have throughout.
    SpeedChanged,
    /// A listed thread leaves in a state that the kernel doesn't have.
    UnknownState,
    /// A task that is given by its name is another thread than before.
    TwoThreads,
    /// The thread of a task was over before.
    Exited,
    /// The thread of a task that is given by its name has another name.
    Renamed,
    /// A thread is one task by its number and another one by its name.
    TwoTasks,
    /// More than `MAX_TOUCHES` lines tell of the tasks.
    TooLong,
    /// The trace has no line with a stamp.
    NoLine,
    /// No line of the trace names the task of this number.
    Unseen(usize),
    /// A task's thread comes behind a sleep without a wake-up: twice in one job, or before any wake-up of it.
    NotWoken,
    /// It changes what is known of jobs that stand in a part which was written.
    PartWritten,
}
