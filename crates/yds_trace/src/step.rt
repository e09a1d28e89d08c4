//! What an event is to each task.

ghost use Rattle.std.specs.Prelude.{◌≡◌, List, Some};
ghost use Rattle.yds_kernel.specs.Event.{Thread};
ghost use Rattle.yds_trace.specs.Asked.{Task};
ghost use Rattle.yds_trace.specs.Steps.{whose};
ghost use Rattle.yds_trace.specs.Kept.{unlisted};
ghost use Rattle.yds_trace.specs.Following.{is_at, place_of};

use crate::job::{Leaving, Standing};
use crate::known::stands_on;
use yds_kernel::State;

/// What an event is to a task, beside who leaves and who comes or is woken. Times are nanoseconds.
#[derive(Clone, Copy, Debug, PartialEq, Eq)]
pub(crate) enum Step {
    /// A processor switches.
    Switch {
        state: State,
        leaving: Leaving,
        /// Since when switches of tasks are missing before it, if some are.
        missing: Option<u64>,
    },
    /// A thread is woken.
    WakeUp {
        time: u64,
        /// Whether the wake-up starts, or was done.
        starts: bool,
    },
    /// The speed of a processor changes, from this one in kilohertz, where it is known.
    Speed {
        processor: u64,
        time: u64,
        khz: Option<u64>,
    },
    /// Events were lost after this time.
    Loss {
        since: u64,
    },
    /// It is nothing to a task.
    Nothing,
}

/// Of which threads an event tells something, beside those that leave, come or are woken.
#[derive(Clone, Copy, Debug, PartialEq, Eq)]
pub(crate) enum Place {
    /// Of one that runs on this processor.
    On(u64),
    /// Of each.
    Everywhere,
    /// Of none.
    Nowhere,
}

impl Step {
    /// Of which threads it tells something.
    pub(crate) fn place(self) -> Place
        ensures { result ≡ place_of self }
    {
        match self {
            Step::Speed { processor, .. } => Place::On(processor),
            Step::Switch {
                missing: Some(_),
                ..
            }
            | Step::Loss { .. } => Place::Everywhere,
            Step::Switch { missing: None, .. } | Step::WakeUp { .. } | Step::Nothing => {
                Place::Nowhere
            }
        }
    }
}

impl Place {
    /// Whether a thread that runs there is one of them.
    pub(crate) fn is_at(self, on: Option<Standing>) -> bool
        ensures { result ≡ is_at self on }
    {
        match self {
            Place::On(processor) => stands_on(processor, on),
            Place::Everywhere => true,
            Place::Nowhere => false,
        }
    }
}

/// Whose thread it is that an event tells of.
#[derive(Clone, Copy, Debug, PartialEq, Eq)]
pub(crate) struct Whose {
    /// The number of the task, where it is one.
    pub number: Option<usize>,
    /// The thread's number.
    pub pid: u64,
}

impl Whose {
    /// The thread's number, where it is no task.
    pub(crate) fn unlisted(self) -> Option<u64>
        ensures { (tasks : List Task) (thread : Thread) → self ≡ whose tasks thread → result ≡ unlisted tasks (Some thread) }
    {
        match self.number {
            Some(_) => None,
            None => Some(self.pid),
        }
    }
}
