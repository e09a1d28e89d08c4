//! What follows from the definition of the text. Each law is the contract of a call of no parameters that does nothing.
ghost use Rattle.yds_trace_text.specs.Laws.{EveryJobHasItsPlace, PartsCountOn};

/// Each job that was asked for is written, or is counted once among those that are left out: in its task's line under its reason,
/// or in the line of what `from` and `to` cut off. The last line's counts are these numbers.
pub fn every_job_has_its_place()
    ensures { EveryJobHasItsPlace }
{}

/// The head line of a part counts its jobs on from those of the parts before: as many are in their documents.
pub fn parts_count_on()
    ensures { PartsCountOn }
{}
