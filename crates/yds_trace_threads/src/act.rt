//! What a line tells of a thread. Times are nanoseconds.

/// What a thread does.
#[derive(Clone, Copy, Debug, PartialEq, Eq)]
pub(crate) enum Deed {
    /// It comes to a processor.
    Comes,
    /// It leaves a processor that it has had for so long, as far as is known.
    Leaves(u64),
    /// It is woken.
    Wakes,
}

/// Who has a processor.
#[derive(Clone, Copy, Debug, PartialEq, Eq)]
pub(crate) struct Holder {
    /// The thread's number.
    pub pid: u64,
    /// When it came.
    pub since: u64,
}
