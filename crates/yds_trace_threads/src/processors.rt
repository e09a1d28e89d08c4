//! Who has each processor, and the trace's last time.
ghost use Rattle.std.specs.Prelude.{◌≡◌, ℕ, vec_len, slice_index_or, IfOk};
ghost use Rattle.yds_trace_threads.specs.declared.limits.TheConstants.{PROCESSORS};

use crate::act::Holder;
use crate::limits::PROCESSORS;
use base::Memory;
use std::alloc::Global;
use yds_kernel::{Event, Happening};
use yds_trace::MAX_PROCESSOR;

/// What is kept of the processors so far.
#[derive(Debug, Drop)]
pub(crate) struct Processors {
    /// Who has each of them, as far as is known.
    pub holders: Vec<Option<Holder>>,
    /// The time of the last line with a stamp, or 0.
    pub last: u64,
    /// Whether there was one.
    pub stamped: bool,
    pub ghost many: { vec_len holders ≡ PROCESSORS },
}

impl Processors {
    ghost use Rattle.std.specs.Prelude.{◌≡◌, ℕ, ◌<◌, ◌≤◌, List, [], ◌∷◌, IfOk};
    ghost use Rattle.yds_kernel.specs.Event.{Said, Stamped, Lost};
    ghost use Rattle.yds_kernel.specs.Views.{event_read};
    ghost use Rattle.yds_kernel.specs.declared.loss.Since.{Since};
    ghost use Rattle.yds_trace.specs.declared.limits.TheConstants.{MAX_PROCESSOR};
    ghost use Rattle.yds_trace_threads.specs.Acts.{holder, had};
    ghost use Rattle.yds_trace_threads.specs.Kept.{IsProcessors};

    /// Before the first line.
    pub(crate) fn new(alloc: Global) -> Result<Processors, Memory>
        ensures { IfOk result (IsProcessors []) }
    {
        let holders = nobody(alloc, PROCESSORS)?;
        Ok(Processors {
            holders,
            last: 0,
            stamped: false,
        })
    }

    /// Who has the processor of this number, as far as is known.
    pub(crate) fn holder(&self, processor: usize) -> Option<Holder>
        requires { processor < PROCESSORS }
        ensures { (past : List Said) → IsProcessors past self.now → result ≡ holder processor past }
    {
        self.holders[processor]
    }

    /// How long this thread has had a processor by this time.
    pub(crate) fn had(&self, processor: u64, pid: u64, time: u64) -> u64
        requires { processor ≤ MAX_PROCESSOR }
        ensures { (past : List Said) → IsProcessors past self.now → result ≡ had pid time (holder processor past) }
    {
        match self.holder(processor as usize) {
            Some(holder) if holder.pid == pid => time.saturating_sub(holder.since),
            Some(_) | None => 0,
        }
    }

    /// Takes an event.
    pub(crate) fn take(&mut self, event: &Event<'_>)
        requires { event.now.processor ≤ MAX_PROCESSOR }
        ensures { (past : List Said) → IsProcessors past self.old → IsProcessors (Stamped (event_read event.now) ∷ past) self.new }
    {
        let processor = event.processor as usize;
        match event.happening {
            Happening::Switch { next, .. } => {
                self.holders[processor] = Some(Holder {
                    pid: next.pid,
                    since: event.time,
                });
            }
            Happening::Loss => self.holders[processor] = None,
            Happening::WakeUp { .. }
            | Happening::Speed { .. }
            | Happening::Marker
            | Happening::Other => {}
        }
        self.last = event.time;
        self.stamped = true;
    }

    /// Takes a line without a stamp which says that events of a processor were lost.
    pub(crate) fn lose(&mut self, processor: u64)
        requires { processor ≤ MAX_PROCESSOR }
        ensures { (past : List Said) (since : Since) → IsProcessors past self.old → IsProcessors (Lost processor since ∷ past) self.new }
    {
        self.holders[processor as usize] = None;
    }
}

/// Nobody is known to have one of so many processors.
fn nobody(alloc: Global, count: usize) -> Result<Vec<Option<Holder>>, Memory>
    ensures count { IfOk result (λ holders. vec_len holders ≡ count) }
    ensures nobody { IfOk result (λ holders. (processor : ℕ) → slice_index_or holders.items processor None ≡ None) }
{
    Ok(vec![in alloc; None; count]?)
}
