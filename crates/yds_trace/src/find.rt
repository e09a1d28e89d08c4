//! Which task a thread is.
ghost use Rattle.std.specs.Prelude.{◌≡◌, map, position};
ghost use Rattle.yds_kernel.specs.Views.{happening_read, thread_read};
ghost use Rattle.yds_trace.specs.Asked as spec;
ghost use Rattle.yds_trace.specs.Finding.{found, first_found, second_found, whose_found};
ghost use Rattle.yds_trace.specs.Views.{task_read, which_read};

use crate::asked::{Task, Which};
use crate::step::Whose;
use yds_kernel::{Happening, Thread};

/// The tasks that a thread is.
#[derive(Clone, Copy, Debug, PartialEq, Eq)]
pub(crate) struct Found {
    /// The one with its number.
    pub numbered: Option<usize>,
    /// The one with its name.
    pub named: Option<usize>,
    /// The thread's number.
    pub pid: u64,
}

impl Found {
    /// Of no thread.
    pub(crate) const NONE: Found = Found {
        numbered: None,
        named: None,
        pid: 0,
    };

    /// The one with its number, or else the one with its name.
    pub(crate) fn whose(self) -> Whose
        ensures { result ≡ whose_found self }
    {
        Whose {
            number: self.numbered.or(self.named),
            pid: self.pid,
        }
    }
}

impl Which {
    /// Whether it is the thread of this number.
    fn is_numbered(&self, pid: u64) -> bool
        ensures { result ≡ spec.is_numbered pid (which_read self.now) }
    {
        match self {
            Which::Numbered(number) => *number == pid,
            Which::Named(_) => false,
        }
    }

    /// Whether it is the thread of this name.
    fn is_named(&self, name: &[u8]) -> bool
        ensures { result ≡ spec.is_named name.now (which_read self.now) }
    {
        match self {
            Which::Named(wanted) => wanted.as_slice() == name,
            Which::Numbered(_) => false,
        }
    }
}

/// The first task with this number.
fn find_numbered(tasks: &[Task], pid: u64) -> Option<usize>
    ensures { result ≡ position (λ task. spec.is_numbered pid (which_read task.thread)) tasks.now }
{
    tasks.iter().position(|task| task.thread.is_numbered(pid))
}

/// The first task with this name.
fn find_named(tasks: &[Task], name: &[u8]) -> Option<usize>
    ensures { result ≡ position (λ task. spec.is_named name.now (which_read task.thread)) tasks.now }
{
    tasks.iter().position(|task| task.thread.is_named(name))
}

/// Which tasks a thread is.
#[inline(always)]
pub(crate) fn find(tasks: &[Task], thread: Thread<'_>) -> Found
    ensures { result ≡ found (map task_read tasks.now) (thread_read thread.entry) }
{
    Found {
        numbered: find_numbered(tasks, thread.pid),
        named: find_named(tasks, thread.name),
        pid: thread.pid,
    }
}

/// Which tasks the thread is that leaves or is woken.
#[inline(always)]
pub(crate) fn find_first(tasks: &[Task], happening: &Happening<'_>) -> Found
    ensures { result ≡ first_found (map task_read tasks.now) (happening_read happening.now) }
{
    match happening {
        Happening::Switch { previous, .. } => find(tasks, *previous),
        Happening::WakeUp { thread, .. } => find(tasks, *thread),
        Happening::Speed { .. } | Happening::Loss | Happening::Marker | Happening::Other => {
            Found::NONE
        }
    }
}

/// Which tasks the thread is that comes.
#[inline(always)]
pub(crate) fn find_second(tasks: &[Task], happening: &Happening<'_>) -> Found
    ensures { result ≡ second_found (map task_read tasks.now) (happening_read happening.now) }
{
    match happening {
        Happening::Switch { next, .. } => find(tasks, *next),
        Happening::WakeUp { .. }
        | Happening::Speed { .. }
        | Happening::Loss
        | Happening::Marker
        | Happening::Other => Found::NONE,
    }
}
