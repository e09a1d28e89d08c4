//! Lines of a kernel's trace, as events.
//!
//! It stands on `base` for what a fault, a digit and a blank are, and on `memchr`. It keeps the promise that what
//! a line of a trace says is what the definitions in `specs/` say of it, for every line of bytes: only what stands at a
//! line's first stamp counts, each number is exact, and a line that says something else than it seems is refused at its
//! column. No call takes memory, and each name is a slice of the line.
#![tactic(auto)]

mod event;
mod fault;
mod find;
mod form;
mod kind;
mod limits;
mod loss;
mod mark;
mod parts;
mod read;
mod stamp;
mod state;

pub use event::{Event, Happening, Said, Thread};
pub use fault::{LineFault, Reason};
pub use limits::{MAX_LINE, MAX_NUMBER, MAX_U64};
pub use loss::Since;
pub use read::{last_line, line};
pub use state::State;
