//! From when to when a trace is asked for: by its clock, or from its first event on.
//!
//! It stands on `yds_kernel` for what a line says, and on `yds_trace` for what is asked of a trace. It carries the promise that a bound
//! which counts from the first event is that event's time and so many nanoseconds, and that nothing else of what is asked changes. When
//! the first event was, whoever reads the trace has to say.
#![tactic(auto)]

mod bounds;

pub use bounds::{Bounds, Moment};
