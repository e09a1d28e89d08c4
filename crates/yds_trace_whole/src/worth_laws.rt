//! What the parts of a trace are worth to whoever reads them.
ghost use Rattle.yds_trace_whole.specs.WorthLaws.{EachPartIsRead, NothingIsLateAnywhere, NothingIsLateInParts, PartsAreFaithful, SeveralAreRefused};

/// Where no line is refused and the document of each part of a processor is feasible, each job of the whole trace that belongs to the processor
/// and is known to be late is late by less than a unit of time, and a part's text has a comment that names it.
pub fn nothing_is_late_in_parts()
    ensures { NothingIsLateInParts }
{}

/// Where no line is refused and the document of each part that is written is feasible, that holds of each job of the whole trace: a comment
/// of one of these parts names it, as the part's processor has it.
pub fn nothing_is_late_anywhere()
    ensures { NothingIsLateAnywhere }
{}

/// Where no line is refused, no job and no run of a part is invented, and none of its jobs and of their runs is missing.
pub fn parts_are_faithful()
    ensures { PartsAreFaithful }
{}

/// The text of each part of a trace without a fault is read again as just the part's jobs and runs, where that passes no limit.
pub fn each_part_is_read()
    ensures { EachPartIsRead }
{}

/// The texts of two parts or more, one behind the other, aren't read as one document: each part has a line of ticks.
pub fn several_are_refused()
    ensures { SeveralAreRefused }
{}
