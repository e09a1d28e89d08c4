//! The texts of events.
ghost use Rattle.std.specs.Prelude.{◌≡◌, ◌≤◌, length, IfSome};
ghost use Rattle.yds_kernel.specs.Form as spec;
ghost use Rattle.yds_kernel.specs.Views.{Reads, happening_read, marked_read, named_read};

use crate::event::{Happening, Thread};
use crate::mark::{Mark, Marked};
use crate::parts::{after, after_blanks, first_place, only_blanks, small_number};
use crate::state::State;

/// A thread, up to its mark, and what comes after it.
#[derive(Clone, Copy)]
pub(crate) struct Named<'a> {
    /// The thread.
    pub thread: Thread<'a>,
    /// The state in which it leaves, where the mark has one.
    pub state: &'a [u8],
    /// The bytes after the mark.
    pub rest: &'a [u8],
}

/// The first place at which the mark stands, and what it says.
#[inline(always)]
fn first_marked(mark: Mark, bytes: &[u8]) -> Option<(usize, Marked<'_>)>
    ensures value { Reads (λ x. (x.0, marked_read x.1)) result (spec.first_marked 0 mark bytes.now) }
    ensures within { IfSome result (λ x. x.0 ≤ length bytes.now) }
{
    let mut place = 0;
    while let Some(step) = first_place(mark.first_byte(), &bytes[place..]) {
        place += step;
        if let Some(marked) = mark.at(&bytes[place..]) {
            return Some((place, marked));
        }
        place += 1;
    }
    None
}

/// The last place at which the mark stands, and what it says.
#[inline(always)]
fn last_marked(mark: Mark, bytes: &[u8]) -> Option<(usize, Marked<'_>)>
    ensures value { Reads (λ x. (x.0, marked_read x.1)) result (spec.last_marked 0 mark bytes.now) }
    ensures within { IfSome result (λ x. x.0 ≤ length bytes.now) }
{
    let mut place = bytes.len();
    while place > 0 {
        place -= 1;
        if let Some(marked) = mark.at(&bytes[place..]) {
            return Some((place, marked));
        }
    }
    None
}

/// The thread whose name ends at the first mark of this kind.
#[inline(always)]
#[tactic(auto, unfolding(crate::specs::Form::thread_at))]
fn thread_at(mark: Mark, bytes: &[u8]) -> Option<Named<'_>>
    ensures { Reads named_read result (spec.thread_at mark bytes.now) }
{
    let (place, marked) = first_marked(mark, bytes)?;
    let thread = Thread {
        name: &bytes[..place],
        pid: marked.pid,
    };
    Some(Named {
        thread,
        state: marked.state,
        rest: marked.rest,
    })
}

/// A switch, by the marks of who leaves and of who comes.
#[inline(always)]
#[tactic(auto, unfolding(crate::specs::Form::switch_by))]
fn switch_by(leaving: Mark, coming: Mark, text: &[u8]) -> Option<Happening<'_>>
    ensures { Reads happening_read result (spec.switch_by leaving coming text.now) }
{
    let previous = thread_at(leaving, text)?;
    let next = thread_at(coming, previous.rest)?;
    Some(Happening::Switch {
        previous: previous.thread,
        state: State::of(previous.state),
        next: next.thread,
    })
}

/// The switch that this text is.
#[inline(always)]
#[tactic(auto, unfolding(crate::specs::Form::switch_in))]
pub(crate) fn switch_in(text: &[u8]) -> Option<Happening<'_>>
    ensures { Reads happening_read result (spec.switch_in text.now) }
{
    match after(text, b"prev_comm=") {
        Some(names) => switch_by(Mark::Leaves, Mark::Comes, names),
        None => switch_by(Mark::ShortLeaves, Mark::ShortComes, text),
    }
}

#[inline(always)]
#[tactic(auto, unfolding(crate::specs::Form::woken_by))]
fn woken_by(mark: Mark, starts: bool, text: &[u8]) -> Option<Happening<'_>>
    ensures { Reads happening_read result (spec.woken_by mark starts text.now) }
{
    let (place, marked) = last_marked(mark, text)?;
    let thread = Thread {
        name: &text[..place],
        pid: marked.pid,
    };
    Some(Happening::WakeUp { thread, starts })
}

/// The wake-up that this text is.
#[inline(always)]
#[tactic(auto, unfolding(crate::specs::Form::wake_up_in))]
pub(crate) fn wake_up_in(starts: bool, text: &[u8]) -> Option<Happening<'_>>
    ensures { Reads happening_read result (spec.wake_up_in starts text.now) }
{
    match after(text, b"comm=") {
        Some(names) => woken_by(Mark::Wakes, starts, names),
        None => woken_by(Mark::ShortWakes, starts, text),
    }
}

/// The speed that this text tells: `state=KHZ cpu_id=CPU`.
#[inline(always)]
#[tactic(auto, unfolding(crate::specs::Form::speed_in))]
pub(crate) fn speed_in(text: &[u8]) -> Option<Happening<'_>>
    ensures { Reads happening_read result (spec.speed_in text.now) }
{
    let rest = after(text, b"state=")?;
    let (khz, rest) = small_number(rest)?;
    let rest = after_blanks(rest)?;
    let rest = after(rest, b"cpu_id=")?;
    let (processor, rest) = small_number(rest)?;
    if only_blanks(rest) {
        Some(Happening::Speed { processor, khz })
    } else {
        None
    }
}
