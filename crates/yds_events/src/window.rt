/// A job's window as a range of stretches, which are numbered in order of time from 0.
#[derive(Clone, Copy, Debug, PartialEq, Eq)]
pub struct Window {
    /// The first stretch.
    pub first: u32,
    /// The stretch after the last one.
    pub end: u32,
}
