ghost use Rattle.yds_trace_again.specs.Laws.{LateJobsAreNamed, PartsAreReadAgain, ReadAgain, SomeAreReadAgain};

/// The text of some of a trace's jobs is read again as just these and their runs, in their order.
pub fn some_are_read_again()
    ensures { SomeAreReadAgain }
{}

/// The text of a trace's document is read again as just its jobs and its runs, in their order.
pub fn read_again()
    ensures { ReadAgain }
{}

/// The text of a part of a trace is read again as just the part's jobs and their runs, in their order.
pub fn parts_are_read_again()
    ensures { PartsAreReadAgain }
{}

/// Each late job of a document has its comment in the document's text.
pub fn late_jobs_are_named()
    ensures { LateJobsAreNamed }
{}
