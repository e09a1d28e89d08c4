//! The laws of reading: what is printed is read back. Each function says one; its body does nothing.
ghost use Rattle.yds_texts.specs.RoundTrip.{JobsAndSlotsAreRead, PrintedIsRead, ReadIsWithinLimits, CanonicalTextIsRead, LinesAreShort, TextIsShort};

/// The text of a document of jobs and slots within the limits is read as that document.
#[tactic(auto, using(crate::proofs::RoundTrip::jobs_and_slots_are_read))]
pub fn jobs_and_slots_are_read()
    ensures { JobsAndSlotsAreRead }
{}

/// The text of a document within the limits is read as that document.
#[tactic(auto, using(crate::proofs::RoundTrip::printed_is_read))]
pub fn printed_is_read()
    ensures { PrintedIsRead }
{}

/// A document that is read is within the limits.
pub fn read_is_within_limits()
    ensures { ReadIsWithinLimits }
{}

/// The text of a document that is read is read as the same document.
#[tactic(auto, using(crate::proofs::Within::canonical_text_is_read))]
pub fn canonical_text_is_read()
    ensures { CanonicalTextIsRead }
{}

/// No line of a text is longer than the greatest length of its kind, in bytes.
#[tactic(auto, using(crate::proofs::Short::lines_are_short))]
pub fn lines_are_short()
    ensures { LinesAreShort }
{}

/// The text of a document is no longer than an input may be, where for each of `MAX_JOBS` jobs it has
/// at most five slots and three pieces, and at most one level and one member.
#[tactic(auto, using(crate::proofs::Short::text_is_short))]
pub fn text_is_short()
    ensures { TextIsShort }
{}
