//! From the events of a kernel's trace to the jobs of the tasks that are asked for.
//!
//! It stands on `yds_kernel`, whose events it reads.
//! The definitions in `specs/` say what a trace means; they see all lines of it. What passes through a trace once, and keeps
//! only what is open, is proved against them.
#![tactic(auto)]

mod asked;
mod check;
mod counted;
mod cut;
mod ended;
mod fault;
mod find;
mod followed;
mod job;
mod jobs;
mod kept;
mod known;
mod limits;
mod lines;
mod others;
mod pass;
mod past;
mod places;
mod reason;
mod refused;
mod share;
mod shown;
mod step;
mod tally;
mod within;

pub use asked::{Asked, Start, StartSpeed, Task, Which};
pub use cut::{Cut, NO_CUT};
pub use ended::Ended;
pub use fault::Cause;
pub use job::{End, Job, Leaving, Pace, Standing, Stretch, Turn};
pub use kept::Kept;
pub use known::Known;
pub use limits::{
    LOOK_EVERY, MAX_DEADLINE, MAX_OTHER_NAME, MAX_PROCESSOR, MAX_TIME, MAX_TOUCHES, PART_JOBS,
    PART_OTHERS, PART_STRETCHES, WAITING_JOBS, WAITING_OTHERS, WAITING_STRETCHES,
};
pub use others::Span;
pub use pass::Pass;
pub use reason::Reason;
pub use refused::Refused;
pub use share::has_run_on;
pub use shown::{Shown, ShownTask};
pub use tally::{Pause, Silence, Tally};
