//! What is kept of the threads so far.
ghost use Rattle.std.specs.Prelude.{ℕ, List, [], ◌++◌, OnOk, IfOk};
ghost use Rattle.yds_kernel.specs.Views.{thread_read};
ghost use Rattle.yds_trace_threads.specs.Acts.{Act, act_of};
ghost use Rattle.yds_trace_threads.specs.Threads.{with_thread, threads_of};
ghost use Rattle.yds_trace_threads.specs.Kept.{Holds, IsThreads, IsPlace, no_more, more_for};

use crate::act::Deed;
use crate::kept::Kept;
use crate::limits::{MOST_COUNTED, MOST_THREADS};
use base::Memory;
use indexmap::IndexSet;
use std::alloc::Global;
use std::hash::RandomState;
use yds_kernel::Thread;

/// What is kept of the threads so far.
#[derive(Drop)]
pub(crate) struct Threads {
    /// The numbers of those that are counted, in the order in which they came first.
    pub pids: IndexSet<u64, RandomState>,
    /// What is kept of the first of them.
    pub kept: Vec<Kept>,
}

impl Threads {
    /// No thread yet. Their numbers will be looked up with these keys.
    pub(crate) fn new(alloc: Global, keys: RandomState) -> Threads
        ensures { IsThreads [] no_more result }
    {
        Threads {
            pids: IndexSet::with_hasher(alloc, keys),
            kept: Vec::new(alloc),
        }
    }

    /// A thread does this. The idle one is passed over.
    pub(crate) fn take(
        &mut self,
        alloc: Global,
        thread: Thread<'_>,
        deed: Deed,
    ) -> Result<(), Memory>
        ensures { (acts : List Act) → IsThreads acts no_more self.old
            → OnOk result (IsThreads (act_of (thread_read thread.entry) deed ++ acts) no_more self.new) }
    {
        if thread.pid == 0 {
            return Ok(());
        }
        if let Some(place) = self.place(alloc, thread.pid)? {
            if place < self.kept.len() {
                self.kept[place].take(thread.name, deed)?;
            }
        }
        Ok(())
    }

    /// The place of a thread. A new one has the next place, unless as many are counted as may be.
    fn place(&mut self, alloc: Global, pid: u64) -> Result<Option<usize>, Memory>
        ensures place { IfOk result (IsPlace self.new.pids.keys pid) }
        ensures holds { (acts : List Act) → IsThreads acts no_more self.old
            → OnOk result (Holds (with_thread pid (threads_of acts)) acts no_more self.new) }
    {
        if self.pids.len() >= MOST_COUNTED {
            return Ok(self.pids.get_index_of(&pid));
        }
        let (place, is_new) = self.pids.insert_full(pid)?;
        if is_new && place < MOST_THREADS {
            self.kept.push(Kept::new(alloc, pid))?;
        }
        Ok(Some(place))
    }

    /// A thread ran for so long beside what it did.
    pub(crate) fn run(&mut self, pid: u64, time: u64)
        ensures { (acts : List Act) (more : ℕ → ℕ) → IsThreads acts more self.old
            → IsThreads acts (more_for pid time more) self.new }
    {
        if let Some(place) = self.pids.get_index_of(&pid) {
            if place < self.kept.len() {
                self.kept[place].run(time);
            }
        }
    }
}
