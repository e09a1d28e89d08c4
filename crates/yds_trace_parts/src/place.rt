//! How much waits, and where a part of it may end.
ghost use Rattle.std.specs.Prelude.{◌≡◌, List, map, not};
ghost use Rattle.std.specs.List.{find, list_any};
ghost use Rattle.yds_kernel.specs.Event.{Said};
ghost use Rattle.yds_kernel.specs.Parts.{capped};
ghost use Rattle.yds_trace.specs.declared.cut.Cut.{Cut};
ghost use Rattle.yds_trace.specs.Asked.{task_at};
ghost use Rattle.yds_trace.specs.Parts as parts;
ghost use Rattle.yds_trace.specs.Shown.{IsShared};
ghost use Rattle.yds_trace.specs.Views.{asked_read};
ghost use Rattle.yds_trace_document.specs.Kept as kept;
ghost use Rattle.yds_trace_document.specs.Views.{judged_read, judged_list, other_read};
ghost use Rattle.yds_trace_parts.specs.Place as spec;
ghost use Rattle.yds_trace_parts.specs.Told as told;

use yds_trace::{
    Asked, End, PART_JOBS, PART_OTHERS, PART_STRETCHES, Shown, WAITING_JOBS, WAITING_OTHERS,
    WAITING_STRETCHES,
};
use yds_trace_document::{Judged, Waiting, belongs};

/// How many stretches these jobs have, at most the greatest number of 64 bits.
fn stretches_of(waiting: &[Judged<'_>]) -> u64
    ensures { result ≡ capped (parts.stretches_of (judged_list waiting.now)) }
{
    let mut all: u64 = 0;
    for judged in waiting {
        all = all.saturating_add(judged.job.stretches.len() as u64);
    }
    all
}

/// Whether so much waits that a part is to be written.
pub fn is_much(waiting: &Waiting<'_>) -> bool
    ensures { result ≡ parts.is_much (judged_list waiting.now.judged.items) (map other_read waiting.now.others.items) }
{
    waiting.judged.len() as u64 > PART_JOBS
        || stretches_of(&waiting.judged) > PART_STRETCHES
        || waiting.others.len() as u64 > PART_OTHERS
}

/// Whether more waits than may.
pub fn is_too_much(waiting: &Waiting<'_>) -> bool
    ensures { result ≡ parts.is_too_much (judged_list waiting.now.judged.items) (map other_read waiting.now.others.items) }
{
    waiting.judged.len() as u64 > WAITING_JOBS
        || stretches_of(&waiting.judged) > WAITING_STRETCHES
        || waiting.others.len() as u64 > WAITING_OTHERS
}

/// The end of what is asked for and shown.
fn last_asked(asked: &Asked, shown: &Shown) -> u64
    ensures { result ≡ kept.last_of asked.now.to shown.now.last }
{
    match asked.to {
        Some(to) => to.min(shown.last),
        None => shown.last,
    }
}

/// How soon after a job's begin a wake-up goes on with it, for the task of this number.
fn apart_of(asked: &Asked, number: usize) -> u64
    ensures { result ≡ (task_at (asked_read asked.now) number).apart }
{
    match asked.tasks.get(number) {
        Some(task) => task.apart,
        None => 0,
    }
}

/// Whether a job that is due at this time is over: its end is known, or nothing more will be known of it.
fn is_over(last: u64, due: u64, end: End) -> bool
    ensures { result ≡ parts.is_over last due end }
{
    match end {
        End::Open => false,
        End::Ended(_) => true,
        End::Lost(since) => since < last && due <= last,
    }
}

/// Whether a job is over, and no wake-up can go on with it.
fn is_settled(asked: &Asked, shown: &Shown, judged: &Judged<'_>) -> bool
    ensures { result ≡ spec.is_settled (asked_read asked.now) shown.now (judged_read judged.now) }
{
    let begin = judged.job.begin;
    is_over(last_asked(asked, shown), judged.due, judged.job.end)
        && begin <= shown.last
        && apart_of(asked, judged.task) <= shown.last - begin
}

/// Whether a job is written.
pub fn is_written(judged: &Judged<'_>) -> bool
    ensures { result ≡ parts.is_written (judged_read judged.now) }
{
    judged.reason.is_none() || judged.late.is_some()
}

/// Whether a job is to be written here.
fn is_own(asked: &Asked, judged: &Judged<'_>) -> bool
    ensures { result ≡ parts.is_own (asked_read asked.now) (judged_read judged.now) }
{
    is_written(judged) && belongs(asked, judged)
}

/// Whether one of these jobs is to be written here.
fn has_own(asked: &Asked, waiting: &[Judged<'_>]) -> bool
    ensures { result ≡ list_any (parts.is_own (asked_read asked.now)) (judged_list waiting.now) }
{
    for judged in waiting {
        if is_own(asked, judged) {
            return true;
        }
    }
    false
}

/// What is known of the jobs that begin before a time.
#[derive(Clone, Copy, Debug)]
struct Front {
    /// Whether there is one; with one processor, one that is written.
    some: bool,
    /// Whether one of them is to be written here, or none of all that wait is.
    own: bool,
    /// From when on each of them is done, if each will be.
    done: Option<u64>,
    /// From when on no window of those that are written here is open.
    due: u64,
}

/// From when on a job is done, if it will be.
fn done_from(settled: bool, judged: &Judged<'_>) -> Option<u64>
    ensures { result ≡ spec.done_from settled (judged_read judged.now) }
{
    if !settled {
        return None;
    }
    if judged.reason.is_some() {
        return Some(0);
    }
    match judged.job.end {
        End::Ended(end) => Some(end),
        End::Open | End::Lost(_) => None,
    }
}

/// The later of two times, if there are both.
fn both(first: Option<u64>, second: Option<u64>) -> Option<u64>
    ensures { result ≡ spec.both first second }
{
    match (first, second) {
        (Some(first), Some(second)) => Some(first.max(second)),
        _ => None,
    }
}

impl Front {
    /// With a job more.
    fn with(self, asked: &Asked, settled: bool, judged: &Judged<'_>) -> Front
        ensures { spec.front_read result ≡ spec.with_job (asked_read asked.now) settled (judged_read judged.now) (spec.front_read self) }
    {
        let own = is_own(asked, judged);
        Front {
            some: self.some || asked.everywhere || is_written(judged),
            own: self.own || own,
            done: both(self.done, done_from(settled, judged)),
            due: if own {
                self.due.max(judged.due)
            } else {
                self.due
            },
        }
    }

    /// Whether the processor is quiet at this time.
    fn is_quiet(self, time: u64) -> bool
        ensures { result ≡ spec.is_quiet_at time (spec.front_read self) }
    {
        match self.done {
            Some(done) => self.some && done <= time,
            None => false,
        }
    }
}

/// Where a part may end.
#[derive(Clone, Copy, Debug)]
struct Places {
    /// The last quiet begin.
    quiet: Option<u64>,
    /// The last one behind a job that is to be written here, if one is, at which no window is open.
    closed: Option<u64>,
}

impl Places {
    /// With this begin, where the processor is quiet there.
    fn with(self, front: Front, time: u64) -> Places
        ensures { spec.places_read result ≡ spec.with_place (spec.front_read front) time (spec.places_read self) }
    {
        if !front.is_quiet(time) {
            return self;
        }
        Places {
            quiet: Some(time),
            closed: if front.own && front.due <= time {
                Some(time)
            } else {
                self.closed
            },
        }
    }
}

/// The places of a part's end among the begins of these jobs, which stand in order of begin.
fn places_among(asked: &Asked, shown: &Shown, waiting: &[Judged<'_>]) -> Places
    ensures { spec.places_read result ≡ spec.places_shown (asked_read asked.now) shown.now (judged_list waiting.now) }
{
    let mut front = Front {
        some: false,
        own: !has_own(asked, waiting),
        done: Some(0),
        due: 0,
    };
    let mut places = Places {
        quiet: None,
        closed: None,
    };
    let mut before = 0;
    for judged in waiting {
        let begin = judged.job.begin;
        if before < begin {
            places = places.with(front, begin);
            before = begin;
        }
        front = front.with(asked, is_settled(asked, shown, judged), judged);
    }
    places
}

/// Where the next part may end: at the last quiet begin of a waiting job at which no window is open, behind a job that is to be
/// written here, if one is; or else at the last quiet one. The jobs stand in order of begin.
pub fn place_among(asked: &Asked, shown: &Shown, waiting: &[Judged<'_>]) -> Option<u64>
    ensures { (past : List Said) (cut : Cut) → IsShared (asked_read asked.now) past cut.boundary shown.now
        → judged_list waiting.now ≡ parts.waiting (asked_read asked.now) past cut
        → result ≡ parts.place_among (asked_read asked.now) past (parts.waiting (asked_read asked.now) past cut) }
{
    let places = places_among(asked, shown, waiting);
    places.closed.or(places.quiet)
}

/// The first job that isn't settled, or else the first that waits.
pub fn open_longest<'a>(asked: &Asked, shown: &Shown, waiting: &[Judged<'a>]) -> Option<Judged<'a>>
    ensures { (past : List Said) (cut : Cut) → IsShared (asked_read asked.now) past cut.boundary shown.now
        → judged_list waiting.now ≡ parts.waiting (asked_read asked.now) past cut
        → spec.judged_option result ≡ told.open_longest (asked_read asked.now) past (parts.waiting (asked_read asked.now) past cut) }
{
    open_of(asked, shown, waiting)
}

fn open_of<'a>(asked: &Asked, shown: &Shown, waiting: &[Judged<'a>]) -> Option<Judged<'a>>
    ensures { spec.judged_option result ≡ spec.open_shown (asked_read asked.now) shown.now (judged_list waiting.now) }
{
    match first_open(asked, shown, waiting) {
        Some(judged) => Some(judged),
        None => first_of(waiting),
    }
}

/// The first job.
fn first_of<'a>(waiting: &[Judged<'a>]) -> Option<Judged<'a>>
    ensures { spec.judged_option result ≡ told.first_of (judged_list waiting.now) }
{
    match waiting.first() {
        Some(judged) => Some(*judged),
        None => None,
    }
}

/// The first job that isn't settled.
fn first_open<'a>(asked: &Asked, shown: &Shown, waiting: &[Judged<'a>]) -> Option<Judged<'a>>
    ensures { spec.judged_option result ≡ find (λ one. not (spec.is_settled (asked_read asked.now) shown.now one)) (judged_list waiting.now) }
{
    for judged in waiting {
        if !is_settled(asked, shown, judged) {
            return Some(*judged);
        }
    }
    None
}
