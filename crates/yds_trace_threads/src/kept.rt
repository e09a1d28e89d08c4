//! What is kept of one thread. Times are nanoseconds.
ghost use Rattle.std.specs.Prelude.{◌≡◌, ◌&&◌, not, take, OnOk, IfOk};
ghost use Rattle.yds_trace_threads.specs.declared.limits.TheConstants.{MOST_NAME};
ghost use Rattle.yds_trace_threads.specs.Kept.{facts_read, nothing_of, facts_behind, facts_with};

use crate::act::Deed;
use crate::limits::MOST_NAME;
use base::Memory;
use std::alloc::Global;

/// What is kept of a thread.
#[derive(Debug, Drop)]
pub(crate) struct Kept {
    /// Its number.
    pub pid: u64,
    /// The front of its last name.
    pub name: Vec<u8>,
    /// How long it had processors.
    pub ran: u64,
    /// How often it was woken.
    pub wake_ups: u64,
    /// How often it came to a processor.
    pub switches: u64,
    /// Whether it was woken since it last came to a processor or left one.
    pub woken: bool,
}

impl Kept {
    /// A thread that has done nothing.
    pub(crate) fn new(alloc: Global, pid: u64) -> Kept
        ensures { facts_read result ≡ nothing_of pid }
    {
        Kept {
            pid,
            name: Vec::new(alloc),
            ran: 0,
            wake_ups: 0,
            switches: 0,
            woken: false,
        }
    }

    /// It does this, under this name.
    pub(crate) fn take(&mut self, name: &[u8], deed: Deed) -> Result<(), Memory>
        ensures { OnOk result (facts_read self.new ≡ facts_behind name.now deed (facts_read self.old)) }
    {
        rename(&mut self.name, name)?;
        match deed {
            Deed::Comes => {
                self.switches = self.switches.saturating_add(1);
                self.woken = false;
            }
            Deed::Leaves(time) => {
                self.ran = self.ran.saturating_add(time);
                self.woken = false;
            }
            Deed::Wakes if self.woken => {}
            Deed::Wakes => {
                self.wake_ups = self.wake_ups.saturating_add(1);
                self.woken = true;
            }
        }
        Ok(())
    }

    /// It ran for so long beside what is kept.
    pub(crate) fn run(&mut self, time: u64)
        ensures { facts_read self.new ≡ facts_with time (facts_read self.old) }
    {
        self.ran = self.ran.saturating_add(time);
    }
}

/// Keeps the front of a name in the place of an earlier one. Most often they are the same.
fn rename(kept: &mut Vec<u8>, name: &[u8]) -> Result<(), Memory>
    ensures { OnOk result (kept.new.items ≡ take MOST_NAME name.now) }
{
    let front = front_of(name);
    if kept.as_slice() == front {
        return Ok(());
    }
    kept.clear();
    kept.extend_from_slice(front)?;
    Ok(())
}

/// As much of a name as is kept.
fn front_of(name: &[u8]) -> &[u8]
    ensures { result.now ≡ take MOST_NAME name.entry.now }
{
    if name.len() <= MOST_NAME {
        return name;
    }
    let (front, _) = name.split_at(MOST_NAME);
    front
}
