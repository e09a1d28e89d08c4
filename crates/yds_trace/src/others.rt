//! Who else had a processor while a job of a listed task waited.
ghost use Rattle.std.specs.Prelude.{◌≡◌, ℕ, ◌+◌, ◌≤◌, List, [], ◌∷◌, map, reverse, take, length, if◌then◌else◌, Option, Some, None, option_map, is_some, IfOk, OnOk};
ghost use Rattle.std.specs.List.{All};
ghost use Rattle.yds_kernel.specs.Event as trace;
ghost use Rattle.yds_kernel.specs.Parts.{capped};
ghost use Rattle.yds_kernel.specs.Views.{event_read, thread_read};
ghost use Rattle.yds_trace.specs.Asked as asking;
ghost use Rattle.yds_trace.specs.Following.{spans_kept};
ghost use Rattle.yds_trace.specs.Kept.{AreOthers};
ghost use Rattle.yds_trace.specs.Others as spec;
ghost use Rattle.yds_trace.specs.Past.{last_time, who_has};
ghost use Rattle.yds_trace.specs.Steps.{second_in, whose};
ghost use Rattle.yds_trace.specs.Views.{another_read, going_read, span_read};

use crate::jobs::drop_first;
use crate::limits::MAX_OTHER_NAME;
use crate::step::Whose;
use base::Memory;
use std::alloc::Global;
use yds_kernel::{Event, Happening, Since, Thread};

/// A thread that isn't listed.
#[derive(Debug, Drop)]
pub(crate) struct Another {
    /// The first bytes of its name, at most `MAX_OTHER_NAME`.
    pub name: Vec<u8>,
    pub pid: u64,
}

impl Another {
    /// A thread, with so much of its name as is kept.
    fn new(alloc: Global, thread: Thread<'_>) -> Result<Another, Memory>
        ensures { IfOk result (λ another. another_read another ≡ spec.shortened (thread_read thread.entry)) }
    {
        let count = thread.name.len().min(MAX_OTHER_NAME);
        let name = bytes_copied(alloc, &thread.name[..count])?;
        Ok(Another {
            name,
            pid: thread.pid,
        })
    }

    /// The same once more, in the way since this time.
    fn since(&self, alloc: Global, since: u64) -> Result<Going, Memory>
        ensures { IfOk result (λ going. going_read going ≡ record { name = self.now.name.items; pid = self.now.pid; since = since }) }
    {
        let name = bytes_copied(alloc, &self.name)?;
        let thread = Another {
            name,
            pid: self.pid,
        };
        Ok(Going { thread, since })
    }
}

/// A thread that has the processor while a job waits.
#[derive(Debug, Drop)]
pub(crate) struct Going {
    pub thread: Another,
    /// Since when, in nanoseconds.
    pub since: u64,
}

impl Going {
    /// The same once more.
    fn copied(&self, alloc: Global) -> Result<Going, Memory>
        ensures { IfOk result (λ going. going_read going ≡ going_read self.now) }
    {
        self.thread.since(alloc, self.since)
    }
}

/// A thread that had the processor for a time, while a job waited. Times are nanoseconds.
#[derive(Debug, Drop)]
pub struct Span {
    /// The first bytes of its name, at most `MAX_OTHER_NAME`.
    pub name: Vec<u8>,
    pub pid: u64,
    pub from: u64,
    pub to: u64,
}

impl Span {
    /// The same once more.
    fn copied(&self, alloc: Global) -> Result<Span, Memory>
        ensures { IfOk result (λ span. span_read span ≡ span_read self.now) }
    {
        let name = bytes_copied(alloc, &self.name)?;
        Ok(Span {
            name,
            pid: self.pid,
            from: self.from,
            to: self.to,
        })
    }
}

/// Who was in the way on a processor.
#[derive(Debug, Drop)]
pub(crate) struct Others {
    /// Who has the processor, where that is neither a listed thread nor the idle one.
    pub holder: Option<Another>,
    /// That one, while a job waits.
    pub going: Option<Going>,
    /// What has ended, in order of time.
    pub spans: Vec<Span>,
}

impl Others {
    /// Before the first line.
    pub(crate) fn new(alloc: Global) -> Others
        ensures { (asked : asking.Asked) (boundary processor : ℕ) → AreOthers asked [] boundary processor result }
    {
        Others {
            holder: None,
            going: None,
            spans: Vec::new(alloc),
        }
    }

    /// Takes an event, in which this thread comes, and behind which a job waits, or none.
    pub(crate) fn take(
        &mut self,
        alloc: Global,
        processor: u64,
        event: &Event<'_>,
        second: Whose,
        waits: bool,
    ) -> Result<(), Memory>
        ensures { (asked : asking.Asked) (counting : List trace.Said) (boundary : ℕ) → AreOthers asked counting boundary processor self.old
            → second ≡ second_in asked.tasks (event_read event.now).happening
            → waits ≡ spec.any_waits asked (trace.Stamped (event_read event.now) ∷ counting)
            → OnOk result (AreOthers asked (trace.Stamped (event_read event.now) ∷ counting) boundary processor self.new) }
    {
        hold(&mut self.holder, alloc, processor, event, second)?;
        self.pass(alloc, event.time, waits)?;
        Ok(())
    }

    /// Events were lost, behind lines of which this is the last one's time.
    pub(crate) fn lose(&mut self, time: u64) -> Result<(), Memory>
        ensures { (asked : asking.Asked) (counting : List trace.Said) (boundary processor other : ℕ) (since : Since) → AreOthers asked counting boundary processor self.old
            → last_time counting ≡ time → OnOk result (AreOthers asked (trace.Lost other since ∷ counting) boundary processor self.new) }
    {
        self.stop(time)?;
        self.holder = None;
        Ok(())
    }

    /// Who has the processor is in the way from this time on, where a job waits.
    fn pass(&mut self, alloc: Global, time: u64, waits: bool) -> Result<(), Memory>
        ensures holder { OnOk result (self.new.holder ≡ self.old.holder) }
        ensures spans { (thread : Option trace.Thread) → option_map another_read self.old.holder ≡ option_map spec.shortened thread
            → OnOk result (spans_kept self.new ≡ spec.spans_by time (if waits then thread else None) (spans_kept self.old)) }
    {
        if self.goes_on(waits) {
            return Ok(());
        }
        self.stop(time)?;
        self.start(alloc, time, waits)
    }

    /// Whether who has the processor is in the way as before, where a job waits.
    fn goes_on(&self, waits: bool) -> bool
        ensures { (thread : Option trace.Thread) → option_map another_read self.now.holder ≡ option_map spec.shortened thread
            → result ≡ spec.is_same (if waits then thread else None) (option_map going_read self.now.going) }
    {
        match &self.holder {
            Some(holder) if waits => match &self.going {
                Some(going) => holder.pid == going.thread.pid,
                None => false,
            },
            Some(_) | None => self.going.is_none(),
        }
    }

    /// What goes on ends at this time.
    fn stop(&mut self, time: u64) -> Result<(), Memory>
        ensures holder { OnOk result (self.new.holder ≡ self.old.holder) }
        ensures spans { OnOk result (spans_kept self.new ≡ record { ended = spec.ended_at time (spans_kept self.old); going = None }) }
    {
        match self.going.take() {
            Some(going) => close(going, time, &mut self.spans),
            None => Ok(()),
        }
    }

    /// Who has the processor is in the way since this time, where a job waits.
    fn start(&mut self, alloc: Global, time: u64, waits: bool) -> Result<(), Memory>
        ensures holder { OnOk result (self.new.holder ≡ self.old.holder) }
        ensures ended { OnOk result (self.new.spans.items ≡ self.old.spans.items) }
        ensures going { (thread : Option trace.Thread) → option_map another_read self.old.holder ≡ option_map spec.shortened thread
            → OnOk result (option_map going_read self.new.going ≡ spec.going_from time (if waits then thread else None)) }
    {
        self.going = match &self.holder {
            Some(holder) if waits => Some(holder.since(alloc, time)?),
            Some(_) | None => None,
        };
        Ok(())
    }

    /// Forgets the first spans, which end at this time or before it.
    pub(crate) fn forget(&mut self, boundary: u64)
        ensures { (asked : asking.Asked) (counting : List trace.Said) (before processor : ℕ) → AreOthers asked counting before processor self.old
            → before ≤ boundary → AreOthers asked counting boundary processor self.new }
    {
        let count = early(&self.spans, boundary);
        drop_first(&mut self.spans, count);
    }

    /// How many spans are kept when what goes on is closed, at most the greatest number of 64 bits.
    pub(crate) fn count(&self) -> u64
        ensures { result ≡ capped (length self.now.spans.items + (if is_some self.now.going then 1 else 0)) }
    {
        let count = self.spans.len() as u64;
        if self.going.is_some() {
            count.saturating_add(1)
        } else {
            count
        }
    }

    /// The spans that are kept. What goes on has gone on until this time.
    pub(crate) fn shown(&self, alloc: Global, until: u64) -> Result<Vec<Span>, Memory>
        ensures { IfOk result (λ spans. map span_read spans.items ≡ reverse (spec.ended_at until (spans_kept self.now))) }
    {
        let mut spans = copied(alloc, &self.spans)?;
        if let Some(going) = &self.going {
            close(going.copied(alloc)?, until, &mut spans)?;
        }
        Ok(spans)
    }

    /// The same, and nothing is kept.
    pub(crate) fn ended(self, until: u64) -> Result<Vec<Span>, Memory>
        ensures { IfOk result (λ spans. map span_read spans.items ≡ reverse (spec.ended_at until (spans_kept self))) }
    {
        let Others {
            holder: _,
            going,
            mut spans,
        } = self;
        if let Some(going) = going {
            close(going, until, &mut spans)?;
        }
        Ok(spans)
    }
}

/// Who has the processor behind an event, in which this thread comes: where that is neither a listed thread nor the idle one.
fn hold(
    holder: &mut Option<Another>,
    alloc: Global,
    processor: u64,
    event: &Event<'_>,
    second: Whose,
) -> Result<(), Memory>
    ensures { (tasks : List asking.Task) (counting : List trace.Said)
        → option_map another_read holder.old ≡ option_map spec.shortened (spec.other_of tasks (who_has processor counting))
        → second ≡ second_in tasks (event_read event.now).happening
        → OnOk result (option_map another_read holder.new
        ≡ option_map spec.shortened (spec.other_of tasks (who_has processor (trace.Stamped (event_read event.now) ∷ counting)))) }
{
    match event.happening {
        Happening::Switch { next, .. } if event.processor == processor => {
            *holder = other(alloc, next, second)?;
        }
        Happening::Loss => *holder = None,
        Happening::Switch { .. }
        | Happening::WakeUp { .. }
        | Happening::Speed { .. }
        | Happening::Marker
        | Happening::Other => {}
    }
    Ok(())
}

/// A thread, where it is neither listed nor the idle one.
fn other(alloc: Global, thread: Thread<'_>, listed: Whose) -> Result<Option<Another>, Memory>
    ensures { (tasks : List asking.Task) → listed ≡ whose tasks (thread_read thread.entry)
        → IfOk result (λ other. option_map another_read other ≡ option_map spec.shortened (spec.other_of tasks (Some (thread_read thread.entry)))) }
{
    if thread.pid == 0 || listed.number.is_some() {
        return Ok(None);
    }
    Ok(Some(Another::new(alloc, thread)?))
}

/// What goes on ends at this time; it is a span where it took time.
#[tactic(auto, using(crate::proofs::Spans::spans_push))]
fn close(going: Going, time: u64, spans: &mut Vec<Span>) -> Result<(), Memory>
    ensures { OnOk result (reverse (map span_read spans.new.items)
        ≡ spec.ended_at time (record { ended = reverse (map span_read spans.old.items); going = Some (going_read going) })) }
{
    let Going { thread, since } = going;
    if since < time {
        let Another { name, pid } = thread;
        spans.push(Span {
            name,
            pid,
            from: since,
            to: time,
        })?;
    }
    Ok(())
}

/// The same spans once more.
pub(crate) fn copied(alloc: Global, spans: &[Span]) -> Result<Vec<Span>, Memory>
    ensures { IfOk result (λ all. map span_read all.items ≡ map span_read spans.now) }
{
    let mut all = Vec::with_capacity(alloc, spans.len())?;
    for span in spans {
        all.push(span.copied(alloc)?)?;
    }
    Ok(all)
}

/// The same bytes once more.
fn bytes_copied(alloc: Global, bytes: &[u8]) -> Result<Vec<u8>, Memory>
    ensures { IfOk result (λ copy. copy.items ≡ bytes.now) }
{
    let mut copy = Vec::with_capacity(alloc, bytes.len())?;
    copy.extend_from_slice(bytes)?;
    Ok(copy)
}

/// How many of these spans from the first on end at this time or before it.
fn early(spans: &[Span], boundary: u64) -> usize
    ensures earlier { All (λ span. span.to ≤ boundary) (take result spans.now) }
    ensures within { result ≤ length spans.now }
{
    for (index, span) in spans.iter().enumerate() {
        if span.to > boundary {
            return index;
        }
    }
    spans.len()
}
