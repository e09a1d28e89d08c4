//! What is kept of all lines.
ghost use Rattle.std.specs.Prelude.{◌≡◌, ℕ, ◌<◌, List, [], ◌∷◌, position, not, false, ◌||◌, slice_index_or, vec_len, IfOk, OnOk};
ghost use Rattle.yds_kernel.specs.Event.{Said, Stamped, Lost};
ghost use Rattle.yds_kernel.specs.Views.{event_read};
ghost use Rattle.yds_trace.specs.Asked as asking;
ghost use Rattle.yds_trace.specs.Faults.{processors_fault, lost_just_before, tells_loss, is_behind_loss, missing_at, unseen_from};
ghost use Rattle.yds_trace.specs.Tally.{is_gap, tally_of};
ghost use Rattle.yds_trace.specs.Kept.{IsLines};
ghost use Rattle.yds_trace.specs.Steps.{first_in, second_in};
ghost use Rattle.yds_trace.specs.Views.{asked_read};

use crate::asked::Asked;
use crate::past::Past;
use crate::step::Whose;
use crate::tally::Tally;
use crate::within::{is_behind_from, is_within_to, last_asked};
use base::Memory;
use std::alloc::Global;
use yds_kernel::{Event, Happening, Since};

/// What is kept of all lines.
#[derive(Debug, Drop)]
pub(crate) struct Lines {
    pub past: Past,
    /// Whether events were lost just before, within what is asked for.
    pub lost: bool,
    /// What they lack.
    pub tallied: Tally,
    /// Whether a line names the task.
    pub seen: Vec<bool>,
}

impl Lines {
    /// Before the first line.
    pub(crate) fn new(alloc: Global, asked: &Asked) -> Result<Lines, Memory>
        ensures { IfOk result (λ lines. IsLines (asked_read asked.now) [] lines) }
    {
        Ok(Lines {
            past: Past::new(alloc, &asked.start)?,
            lost: false,
            tallied: Tally::new(),
            seen: vec![in alloc; false; asked.tasks.len()]?,
        })
    }

    /// Takes an event, before which switches of tasks are missing since a time, or none are.
    pub(crate) fn take(
        &mut self,
        asked: &Asked,
        event: &Event<'_>,
        first: Whose,
        second: Whose,
        missing: Option<u64>,
    ) -> Result<(), Memory>
        requires { processors_fault (event_read event.now) ≡ None }
        ensures { (past : List Said) → IsLines (asked_read asked.now) past self.old
            → first ≡ first_in (asked_read asked.now).tasks (event_read event.now).happening
            → second ≡ second_in (asked_read asked.now).tasks (event_read event.now).happening
            → missing ≡ missing_at (asked_read asked.now) past (event_read event.now)
            → OnOk result (IsLines (asked_read asked.now) (Stamped (event_read event.now) ∷ past) self.new) }
    {
        let gap = self.is_gap(asked, event, missing);
        self.tallied.take(asked, gap, &self.past, event, first);
        self.past.take(event, second.unlisted())?;
        self.lost = false;
        mark(&mut self.seen, first.number);
        mark(&mut self.seen, second.number);
        Ok(())
    }

    /// Takes a line without a stamp which says that events of the processor were lost.
    pub(crate) fn lose(&mut self, to: Option<u64>, processor: u64, since: Since)
        ensures { (asked : asking.Asked) (past : List Said) → IsLines asked past self.old → asked.to ≡ to
            → IsLines asked (Lost processor since ∷ past) self.new }
    {
        self.lost = self.are_lost(to, processor, since);
        self.past.lose();
    }

    /// Whether events were lost before an event, within what is asked for.
    pub(crate) fn is_behind_loss(
        &self,
        from: Option<u64>,
        to: Option<u64>,
        event: &Event<'_>,
    ) -> bool
        ensures { (asked : asking.Asked) (past : List Said) → IsLines asked past self.now → asked.to ≡ to
            → result ≡ is_behind_loss from to past (event_read event.now) }
    {
        (self.lost || self.tells_loss(to, event)) && is_behind_from(from, event.time)
    }

    /// Whether events are said to be lost before an event, or switches of tasks are missing there, within what is asked for.
    fn is_gap(&self, asked: &Asked, event: &Event<'_>, missing: Option<u64>) -> bool
        ensures { (past : List Said) → IsLines (asked_read asked.now) past self.now
            → missing ≡ missing_at (asked_read asked.now) past (event_read event.now)
            → result ≡ is_gap (asked_read asked.now) past (event_read event.now) }
    {
        self.is_behind_loss(asked.from, asked.to, event)
            || missing.is_some() && is_behind_from(asked.from, event.time)
    }

    /// Whether an event tells of a loss since a time before `to`.
    fn tells_loss(&self, to: Option<u64>, event: &Event<'_>) -> bool
        ensures { (asked : asking.Asked) (past : List Said) → IsLines asked past self.now
            → result ≡ tells_loss to (event_read event.now) past }
    {
        match event.happening {
            Happening::Loss => is_within_to(
                to,
                self.past.lost_since(event.processor, Since::ItsLastLine),
            ),
            Happening::Switch { .. }
            | Happening::WakeUp { .. }
            | Happening::Speed { .. }
            | Happening::Marker
            | Happening::Other => false,
        }
    }

    /// What they lack, where the trace ends here.
    pub(crate) fn tally(&self, asked: &Asked) -> Tally
        ensures { (wanted : asking.Asked) (past : List Said) → asked_read asked.now ≡ wanted → IsLines wanted past self.now → result ≡ tally_of wanted past }
    {
        let until = last_asked(asked.to, self.past.last);
        self.tallied.ended(self.lost, self.past.silence(until))
    }

    /// Whether events were lost just before, with a line that says so of this processor.
    fn are_lost(&self, to: Option<u64>, processor: u64, since: Since) -> bool
        ensures { (asked : asking.Asked) (past : List Said) → IsLines asked past self.now → asked.to ≡ to
            → result ≡ lost_just_before asked.to (Lost processor since ∷ past) }
    {
        is_within_to(to, self.past.lost_since(processor, since)) || self.lost
    }

    /// The first task that no line names.
    pub(crate) fn unseen(&self) -> Option<usize>
        ensures { (asked : asking.Asked) (past : List Said) → IsLines asked past self.now → result ≡ unseen_from asked past 0 asked.tasks }
    {
        first_unset(&self.seen)
    }
}

/// The first place of what isn't set.
fn first_unset(seen: &[bool]) -> Option<usize>
    ensures { result ≡ position not seen.now }
{
    seen.iter().position(|seen| !*seen)
}

/// Sets what stands at this place, where it is one.
fn mark(seen: &mut Vec<bool>, number: Option<usize>)
    ensures many { vec_len seen.new ≡ vec_len seen.old }
    ensures each { (other : ℕ) → other < vec_len seen.old
        → slice_index_or seen.new.items other false ≡ (asking.is_number other number || slice_index_or seen.old.items other false) }
{
    if let Some(number) = number
        && number < seen.len()
    {
        seen[number] = true;
    }
}
