//! Why a job isn't written as it stands.

/// Why a job isn't written with its window and its runs.
#[derive(Clone, Copy, Debug, PartialEq, Eq)]
pub enum Reason {
    /// It began before the time from which jobs are asked for.
    BeforeFrom,
    /// It hadn't ended at the time up to which jobs are asked for.
    AfterTo,
    /// It hadn't ended when the trace ended.
    NotEnded,
    /// Events were lost while it was open, or before it is known to have ended.
    EventsLost,
    /// Its thread's coming to a processor is missing.
    SwitchMissing,
    /// Its begin isn't in the trace.
    BeginUnseen,
    /// It was due before it began, or less than a unit of time behind: a period behind the job before it.
    DueBefore,
    /// It ran on another processor.
    Moved,
    /// It ran at a speed that the trace doesn't tell.
    SpeedUnknown,
}
