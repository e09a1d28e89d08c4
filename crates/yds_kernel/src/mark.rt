//! The marks behind a thread's name.
ghost use Rattle.std.specs.Prelude.{◌≡◌};
ghost use Rattle.yds_kernel.specs.Form as spec;
ghost use Rattle.yds_kernel.specs.Views.{Reads, marked_read};

use crate::parts::{after, after_priority, field, only_blanks, small_number};

/// A mark behind the name of a thread.
#[derive(Clone, Copy)]
pub(crate) enum Mark {
    /// ` prev_pid=PID prev_prio=PRIORITY prev_state=STATE ==> next_comm=`
    Leaves,
    /// ` next_pid=PID next_prio=PRIORITY` at the end
    Comes,
    /// ` pid=PID prio=`
    Wakes,
    /// `:PID [PRIORITY] STATE ==> `
    ShortLeaves,
    /// `:PID [PRIORITY]` at the end
    ShortComes,
    /// `:PID [PRIORITY]`
    ShortWakes,
}

/// What a mark says.
#[derive(Clone, Copy)]
pub(crate) struct Marked<'a> {
    /// The thread's number.
    pub pid: u64,
    /// The state in which it leaves, where the mark has one.
    pub state: &'a [u8],
    /// The bytes after the mark.
    pub rest: &'a [u8],
}

impl Mark {
    /// The byte with which it begins.
    #[inline(always)]
    pub(crate) fn first_byte(self) -> u8
        ensures { result ≡ spec.first_byte self }
    {
        match self {
            Mark::Leaves | Mark::Comes | Mark::Wakes => b' ',
            Mark::ShortLeaves | Mark::ShortComes | Mark::ShortWakes => b':',
        }
    }

    /// The mark at the front of these bytes.
    #[inline(always)]
    pub(crate) fn at(self, bytes: &[u8]) -> Option<Marked<'_>>
        ensures { Reads marked_read result (spec.marked self bytes.now) }
    {
        match self {
            Mark::Leaves => leaves(bytes),
            Mark::Comes => comes(bytes),
            Mark::Wakes => wakes(bytes),
            Mark::ShortLeaves => short_leaves(bytes),
            Mark::ShortComes => short_comes(bytes),
            Mark::ShortWakes => short(bytes),
        }
    }
}

#[tactic(auto, unfolding(crate::specs::Form::leaves))]
fn leaves(bytes: &[u8]) -> Option<Marked<'_>>
    ensures { Reads marked_read result (spec.leaves bytes.now) }
{
    let rest = after(bytes, b" prev_pid=")?;
    let (pid, rest) = small_number(rest)?;
    let rest = after(rest, b" prev_prio=")?;
    let rest = after_priority(rest)?;
    let rest = after(rest, b" prev_state=")?;
    let (state, rest) = field(rest)?;
    let rest = after_arrow(rest)?;
    Some(Marked { pid, state, rest })
}

/// What comes after the arrow and `next_comm=`; a raw trace has no arrow.
#[inline(always)]
fn after_arrow(bytes: &[u8]) -> Option<&[u8]>
    ensures { Reads (λ rest. rest.now) result (spec.after_arrow bytes.now) }
{
    match after(bytes, b" ==> next_comm=") {
        Some(rest) => Some(rest),
        None => after(bytes, b" next_comm="),
    }
}

#[tactic(auto, unfolding(crate::specs::Form::comes))]
fn comes(bytes: &[u8]) -> Option<Marked<'_>>
    ensures { Reads marked_read result (spec.comes bytes.now) }
{
    let rest = after(bytes, b" next_pid=")?;
    let (pid, rest) = small_number(rest)?;
    let rest = after(rest, b" next_prio=")?;
    let rest = after_priority(rest)?;
    if only_blanks(rest) {
        Some(Marked {
            pid,
            state: &[],
            rest,
        })
    } else {
        None
    }
}

#[tactic(auto, unfolding(crate::specs::Form::wakes))]
fn wakes(bytes: &[u8]) -> Option<Marked<'_>>
    ensures { Reads marked_read result (spec.wakes bytes.now) }
{
    let rest = after(bytes, b" pid=")?;
    let (pid, rest) = small_number(rest)?;
    let rest = after(rest, b" prio=")?;
    Some(Marked {
        pid,
        state: &[],
        rest,
    })
}

#[tactic(auto, unfolding(crate::specs::Form::short))]
fn short(bytes: &[u8]) -> Option<Marked<'_>>
    ensures { Reads marked_read result (spec.short bytes.now) }
{
    let rest = after(bytes, b":")?;
    let (pid, rest) = small_number(rest)?;
    let rest = after(rest, b" [")?;
    let rest = after_priority(rest)?;
    let rest = after(rest, b"]")?;
    Some(Marked {
        pid,
        state: &[],
        rest,
    })
}

#[tactic(auto, unfolding(crate::specs::Form::short_leaves))]
fn short_leaves(bytes: &[u8]) -> Option<Marked<'_>>
    ensures { Reads marked_read result (spec.short_leaves bytes.now) }
{
    let found = short(bytes)?;
    let rest = after(found.rest, b" ")?;
    let (state, rest) = field(rest)?;
    let rest = after(rest, b" ==> ")?;
    Some(Marked {
        pid: found.pid,
        state,
        rest,
    })
}

#[tactic(auto, unfolding(crate::specs::Form::short_comes))]
fn short_comes(bytes: &[u8]) -> Option<Marked<'_>>
    ensures { Reads marked_read result (spec.short_comes bytes.now) }
{
    let found = short(bytes)?;
    if only_blanks(found.rest) {
        Some(found)
    } else {
        None
    }
}
