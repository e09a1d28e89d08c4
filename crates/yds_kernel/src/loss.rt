//! Since when events were lost.

/// Since when the events of a processor were lost.
#[derive(Clone, Copy, Debug, PartialEq, Eq)]
pub enum Since {
    /// Since the last line of that processor.
    ItsLastLine,
    /// Since the trace's begin: the processor's buffer starts here.
    TheBegin,
}
