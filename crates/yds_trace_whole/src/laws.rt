ghost use Rattle.yds_trace_whole.specs.Laws.{AllPartsAreKept, PartsAreOfProcessors, PartsAreTheWhole, PartsMakeTheDocument, SpansAreTheWhole, WholeIsTheDocument};

/// Where no line is refused, the jobs of a processor's parts, one part after another, are those of the whole trace that belong to it.
pub fn parts_are_the_whole()
    ensures { PartsAreTheWhole }
{}

/// Where no line is refused, the documents of a processor's parts, put together, are the one document that the whole trace would have.
pub fn parts_make_the_document()
    ensures { PartsMakeTheDocument }
{}

/// Where no line is refused, each part of a processor tells of other threads just what the whole trace tells of the part's time.
pub fn spans_are_the_whole()
    ensures { SpansAreTheWhole }
{}

/// With one processor and where a begin is asked for, that document is the one of a trace that isn't told in parts.
pub fn whole_is_the_document()
    ensures { WholeIsTheDocument }
{}

/// Of the parts that are written, those of a processor are the parts that it has by itself.
pub fn parts_are_of_processors()
    ensures { PartsAreOfProcessors }
{}

/// Where no line is refused behind the parts of all processors, none is behind those of one.
pub fn all_parts_are_kept()
    ensures { AllPartsAreKept }
{}
