//! What is kept of the lines so far.
ghost use Rattle.std.specs.Prelude.{◌≡◌, ◌+◌, ◌<◌, ◌≤◌, ℕ, List, [], ◌∷◌, Some, None, OnOk, IfOk, IfErr};
ghost use Rattle.yds_kernel.specs.Event.{Said as SaidSpec, Stamped};
ghost use Rattle.yds_kernel.specs.Views.{event_read, said_read};
ghost use Rattle.yds_trace.specs.declared.limits.TheConstants.{MAX_PROCESSOR};
ghost use Rattle.yds_trace.specs.Passing.{IsRefusedFor};
ghost use Rattle.yds_trace.specs.Past.{last_time};
ghost use Rattle.yds_trace_threads.specs.Acts.{acts, had, holder};
ghost use Rattle.yds_trace_threads.specs.Faults.{said_fault, whole_fault};
ghost use Rattle.yds_trace_threads.specs.Table.{still, table_of};
ghost use Rattle.yds_trace_threads.specs.Kept.{IsTally, IsThreads, IsProcessors, no_more};

use crate::act::Deed;
use crate::check::check;
use crate::limits::PROCESSORS;
use crate::processors::Processors;
use crate::text::table_text;
use crate::threads::Threads;
use base::Memory;
use std::alloc::Global;
use std::hash::RandomState;
use yds_kernel::{Event, Happening, Said};
use yds_trace::{Cause, MAX_PROCESSOR, Refused};

/// What is kept of the lines so far.
#[derive(Drop)]
pub(crate) struct Tally {
    /// What the threads did.
    pub threads: Threads,
    /// Who has the processors.
    pub processors: Processors,
}

impl Tally {
    /// Before the first line. Threads will be looked up with these keys.
    pub(crate) fn new(alloc: Global, keys: RandomState) -> Result<Tally, Memory>
        ensures { IfOk result (IsTally []) }
    {
        let processors = Processors::new(alloc)?;
        Ok(Tally {
            threads: Threads::new(alloc, keys),
            processors,
        })
    }

    /// Takes what a line says.
    pub(crate) fn take(&mut self, alloc: Global, said: &Said<'_>) -> Result<(), Refused>
        ensures taken { (past : List SaidSpec) → IsTally past self.old → OnOk result (IsTally (said_read said.now ∷ past) self.new) }
        ensures sound { (past : List SaidSpec) → IsTally past self.old → OnOk result (said_fault past (said_read said.now) ≡ None) }
        ensures refused { (past : List SaidSpec) → IsTally past self.old → IfErr result (IsRefusedFor (said_fault past (said_read said.now))) }
    {
        check(said, self.processors.last)?;
        match said {
            Said::Event(event) => self.take_event(alloc, event)?,
            Said::Lost { processor, .. } => self.processors.lose(*processor),
            Said::Nothing => {}
        }
        Ok(())
    }

    /// Takes an event: first what its threads do, and then who has its processor.
    fn take_event(&mut self, alloc: Global, event: &Event<'_>) -> Result<(), Memory>
        requires { event.now.processor ≤ MAX_PROCESSOR }
        ensures { (past : List SaidSpec) → IsTally past self.old → OnOk result (IsTally (Stamped (event_read event.now) ∷ past) self.new) }
    {
        match event.happening {
            Happening::Switch { previous, next, .. } => {
                let time = self
                    .processors
                    .had(event.processor, previous.pid, event.time);
                self.threads.take(alloc, previous, Deed::Leaves(time))?;
                self.threads.take(alloc, next, Deed::Comes)?;
            }
            Happening::WakeUp { thread, .. } => self.threads.take(alloc, thread, Deed::Wakes)?,
            Happening::Speed { .. } | Happening::Loss | Happening::Marker | Happening::Other => {}
        }
        self.processors.take(event);
        Ok(())
    }

    /// The text of the table behind the last line, or what the whole trace is refused for.
    pub(crate) fn table(self, alloc: Global) -> Result<Vec<u8>, Refused>
        ensures told { (past : List SaidSpec) → IsTally past self → IfOk result (λ text. text.items ≡ table_of past) }
        ensures sound { (past : List SaidSpec) → IsTally past self → OnOk result (whole_fault past ≡ None) }
        ensures refused { (past : List SaidSpec) → IsTally past self → IfErr result (IsRefusedFor (whole_fault past)) }
    {
        if !self.processors.stamped {
            return Err(Refused::Fault(Cause::NoLine));
        }
        let mut threads = self.threads;
        close(&mut threads, &self.processors);
        let text = table_text(alloc, threads)?;
        Ok(text)
    }
}

/// Who has a processor has had it until the last time.
fn close(threads: &mut Threads, processors: &Processors)
    ensures { (past : List SaidSpec) → IsThreads (acts past) no_more threads.old → IsProcessors past processors.now
        → IsThreads (acts past) (λ pid. still pid past) threads.new }
{
    for number in 0..PROCESSORS {
        close_one(threads, processors, number);
    }
}

/// Who has the processor of this number has had it until the last time.
fn close_one(threads: &mut Threads, processors: &Processors, number: usize)
    requires { number < PROCESSORS }
    ensures { (past : List SaidSpec) (more : ℕ → ℕ) → IsProcessors past processors.now → IsThreads (acts past) more threads.old
        → IsThreads (acts past) (λ pid. more pid + had pid (last_time past) (holder number past)) threads.new }
{
    if let Some(holder) = processors.holder(number) {
        threads.run(holder.pid, processors.last.saturating_sub(holder.since));
    }
}
