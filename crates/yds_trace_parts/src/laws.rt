//! What holds of what a trace is told as.
ghost use Rattle.yds_trace_parts.specs.Laws.{FewLinesAreOnePart, HaltsStay, HaltsWriteNothing, PartsEnd, PartsFollow, ToldGrows};

/// What is told of more lines begins with what is told of fewer.
pub fn told_grows()
    ensures { ToldGrows }
{}

/// Where it halts, that stays, and no text is told of the lines behind.
pub fn halts_stay()
    ensures { HaltsStay }
{}

/// The line at which it halts adds no text.
pub fn halts_write_nothing()
    ensures { HaltsWriteNothing }
{}

/// With one processor, a part that passes no limit follows the parts before it.
pub fn parts_follow()
    ensures { PartsFollow }
{}

/// Where much waits, a quiet begin of a waiting job is enough for a part.
pub fn parts_end()
    ensures { PartsEnd }
{}

/// A trace of fewer lines than it is looked for a part behind is one part.
pub fn few_lines_are_one_part()
    ensures { FewLinesAreOnePart }
{}
