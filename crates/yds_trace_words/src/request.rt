//! What the words of the command line ask for.
ghost use Rattle.std.specs.Prelude.{◌≡◌, ◌≤◌, map, option_map, true, IfOk};
ghost use Rattle.yds_trace.specs.Views.{start_read};
ghost use Rattle.yds_trace_words.specs.Request as spec;
ghost use Rattle.yds_trace_words.specs.Tasks.{tasks_asked};
ghost use Rattle.yds_trace_words.specs.Words.{value_of};
ghost use Rattle.yds_trace_words.specs.Views.{words_of, request_read, setting_read, tasks_read, Reads, Takes};

use crate::decimal::decimal;
use crate::fault::{NoRequest, Reason, WordFault};
use crate::limits::MAX_UNIT;
use crate::setting::{Setting, other_than, settings, twice, value};
use crate::start::start;
use crate::tasks::tasks;
use std::alloc::Global;
use yds_kernel::MAX_NUMBER;
use yds_text::number_of;
use yds_trace::{Asked, MAX_PROCESSOR, MAX_TIME, Start, Task};
use yds_trace_bounds::{Bounds, Moment};

/// What the words ask for.
#[derive(Debug, Drop)]
pub enum Request {
    /// The text of `--help`.
    Help,
    /// The line of `--version`.
    Version,
    /// The document of a trace, or its parts.
    Trace {
        /// What is asked of it. Its times are still to be set, by the bounds.
        asked: Asked,
        /// From when to when.
        bounds: Bounds,
        /// Whether a trace is refused of which a job is left out for another reason than `--from` and `--to`.
        strict: bool,
    },
    /// The threads of a trace.
    Threads,
}

/// What the words ask for, without the program's name among them, or why they can't be taken.
pub fn read_words<'a>(alloc: Global, words: &'a [String]) -> Result<Request, NoRequest<'a>>
    ensures request { Reads request_read result (spec.request_of (words_of words.now)) }
    ensures fit { IfOk result (λ request. spec.IsFitRequest (request_read request)) }
{
    let given = settings(alloc, words)?;
    request_by(alloc, &given)
}

/// What these settings ask for.
fn request_by<'a>(alloc: Global, given: &[Setting<'a>]) -> Result<Request, NoRequest<'a>>
    ensures { Reads request_read result (spec.request_by (map setting_read given.now)) }
{
    if value(given, b"--help").is_some() {
        return Ok(Request::Help);
    }
    if value(given, b"--version").is_some() {
        return Ok(Request::Version);
    }
    if let Some(name) = twice(given) {
        return Err(NoRequest::Fault(WordFault::of(name, Reason::Twice)));
    }
    if asks_threads(value(given, b"--tasks")) {
        return threads_alone(given);
    }
    trace_by(alloc, given)
}

/// Whether this value of `--tasks` asks for the list of threads.
fn asks_threads(value: Option<&[u8]>) -> bool
    ensures { result ≡ spec.is_question (option_map (λ value. value.now) value.entry) }
{
    match value {
        Some(text) => text == b"?".as_slice(),
        None => false,
    }
}

/// The list of threads, of which no other word says anything.
fn threads_alone<'a>(given: &[Setting<'a>]) -> Result<Request, NoRequest<'a>>
    ensures { Reads request_read result (spec.threads_or_trace true (map setting_read given.now)) }
{
    match other_than(given, b"--tasks") {
        Some(name) => Err(NoRequest::Fault(WordFault::of(name, Reason::Threads))),
        None => Ok(Request::Threads),
    }
}

/// What they ask of a trace.
fn trace_by<'a>(alloc: Global, given: &[Setting<'a>]) -> Result<Request, NoRequest<'a>>
    ensures { Reads request_read result (spec.trace_by (map setting_read given.now)) }
{
    let processor = processor(value(given, b"--cpu"))?;
    let unit = whole(given, b"--us", 10, (1, MAX_UNIT), Reason::Unit)?;
    let khz = whole(given, b"--khz", 10_000, (1, MAX_NUMBER), Reason::Speed)?;
    let start = speeds(alloc, value(given, b"--start"), value(given, b"--fixed"))?;
    let bounds = bounds_by(given)?;
    let begin_at_run = only(b"--begin", b"run", Reason::Begin, value(given, b"--begin"))?;
    let cut_losses = only(b"--lost", b"cut", Reason::Lost, value(given, b"--lost"))?;
    let moved_parts = only(
        b"--moved",
        b"parts",
        Reason::Moved,
        value(given, b"--moved"),
    )?;
    let others = others(processor, value(given, b"--others"))?;
    let everywhere = processor.is_none();
    let in_parts = everywhere || value(given, b"--parts").is_some();
    let tasks = tasks_asked(alloc, unit * 1000, value(given, b"--tasks"))?;
    let asked = Asked {
        tasks,
        processor: processor.unwrap_or(0),
        unit: unit * 1000,
        khz,
        start,
        from: None,
        to: None,
        begin_at_run,
        cut_losses,
        in_parts,
        everywhere,
        moved_parts,
        others,
    };
    let strict = value(given, b"--strict").is_some();
    Ok(Request::Trace {
        asked,
        bounds,
        strict,
    })
}

/// The speeds before the first change, or the one that each processor has throughout.
fn speeds<'a>(
    alloc: Global,
    first: Option<&[u8]>,
    fixed: Option<&[u8]>,
) -> Result<Start, NoRequest<'a>>
    ensures { Reads start_read result (spec.speeds_asked (option_map (λ value. value.now) first.entry) (option_map (λ value. value.now) fixed.entry)) }
{
    let told = start(alloc, first)?;
    match fixed {
        Some(text) => Ok(Start::Fixed(fixed_speed(first.is_some(), text)?)),
        None => Ok(told),
    }
}

/// The speed that each processor has throughout, unless those before the first change are given, too.
fn fixed_speed<'a>(with_start: bool, text: &[u8]) -> Result<u64, WordFault<'a>>
    ensures { Takes (λ khz. khz) result (spec.fixed_at with_start text.now) }
{
    match number_of(text, 1, MAX_NUMBER) {
        Ok(_) if with_start => Err(WordFault::of(b"--fixed", Reason::WithStart)),
        Ok(khz) => Ok(khz),
        Err(_) => Err(WordFault::of(b"--fixed", Reason::Speed)),
    }
}

/// The tasks, which have to be given.
fn tasks_asked<'a>(
    alloc: Global,
    unit: u64,
    value: Option<&[u8]>,
) -> Result<Vec<Task>, NoRequest<'a>>
    ensures { Reads tasks_read result (tasks_asked unit (option_map (λ value. value.now) value.entry)) }
{
    match value {
        Some(value) => tasks(alloc, unit, value),
        None => Err(NoRequest::Fault(WordFault::of(b"--tasks", Reason::NoTasks))),
    }
}

/// The whole number that this is set to, within its limits, or what stands for one that isn't given.
fn whole<'a>(
    given: &[Setting<'a>],
    name: &'a [u8],
    default: u64,
    limits: (u64, u64),
    reason: Reason,
) -> Result<u64, WordFault<'a>>
    ensures value { Takes (λ number. number) result (spec.whole_or default limits.0 limits.1 name.entry.now reason (value_of name.entry.now (map setting_read given.now))) }
    ensures within { default ≤ limits.1 → IfOk result (λ number. number ≤ limits.1) }
{
    let Some(text) = value(given, name) else {
        return Ok(default);
    };
    match number_of(text, limits.0, limits.1) {
        Ok(number) => Ok(number),
        Err(_) => Err(WordFault::of(name, reason)),
    }
}

/// The processor that is asked for: `all` is none of them by itself.
fn processor<'a>(value: Option<&[u8]>) -> Result<Option<u64>, WordFault<'a>>
    ensures { Takes (λ processor. processor) result (spec.processor_of (option_map (λ value. value.now) value.entry)) }
{
    let Some(text) = value else {
        return Ok(Some(0));
    };
    if text == b"all".as_slice() {
        return Ok(None);
    }
    match number_of(text, 0, MAX_PROCESSOR) {
        Ok(number) => Ok(Some(number)),
        Err(_) => Err(WordFault::of(b"--cpu", Reason::Processor)),
    }
}

/// The processor of which it is told who else had it, if that is asked for.
fn others<'a>(processor: Option<u64>, value: Option<&[u8]>) -> Result<Option<u64>, WordFault<'a>>
    ensures { Takes (λ others. others) result (spec.others_asked processor (option_map (λ value. value.now) value.entry)) }
{
    let Some(text) = value else {
        return Ok(None);
    };
    if text != b"spans".as_slice() {
        return Err(WordFault::of(b"--others", Reason::Others));
    }
    match processor {
        Some(processor) => Ok(Some(processor)),
        None => Err(WordFault::of(b"--others", Reason::EachProcessor)),
    }
}

/// From when to when they ask.
fn bounds_by<'a>(given: &[Setting<'a>]) -> Result<Bounds, WordFault<'a>>
    ensures { Takes (λ bounds. bounds) result (spec.bounds_by (map setting_read given.now)) }
{
    let from = time(b"--from", value(given, b"--from"))?;
    let to = time(b"--to", value(given, b"--to"))?;
    check_order(from, to)?;
    Ok(Bounds { from, to })
}

/// The time that this is set to.
fn time<'a>(name: &'a [u8], value: Option<&[u8]>) -> Result<Option<Moment>, WordFault<'a>>
    ensures { Takes (λ time. time) result (spec.time_of name.entry.now (option_map (λ value. value.now) value.entry)) }
{
    let Some(text) = value else {
        return Ok(None);
    };
    match moment(text) {
        Some(moment) => Ok(Some(moment)),
        None => Err(WordFault::of(name, Reason::Time)),
    }
}

/// The time that these seconds spell. With a plus sign before them they count from the first event, else they are of the
/// trace's clock.
fn moment(text: &[u8]) -> Option<Moment>
    ensures { result ≡ spec.moment_of text.now }
{
    let (first, others) = text.split_first()?;
    if *first == b'+' {
        Some(Moment::AfterFirst(decimal(others, 9, MAX_TIME)?))
    } else {
        Some(Moment::Clock(decimal(text, 9, MAX_TIME)?))
    }
}

/// That `from` is before `to`, where both are times of the clock, or both count from the first event. One of each isn't
/// compared here.
fn check_order<'a>(from: Option<Moment>, to: Option<Moment>) -> Result<(), WordFault<'a>>
    ensures { Takes (λ _. true) result (spec.ordered from to) }
{
    match (from, to) {
        (Some(Moment::Clock(from)), Some(Moment::Clock(to))) => check_before(from, to),
        (Some(Moment::AfterFirst(from)), Some(Moment::AfterFirst(to))) => check_before(from, to),
        _ => Ok(()),
    }
}

fn check_before<'a>(from: u64, to: u64) -> Result<(), WordFault<'a>>
    ensures { Takes (λ _. true) result (spec.before_to from to) }
{
    if from < to {
        Ok(())
    } else {
        Err(WordFault::of(b"--from", Reason::FromNotBefore))
    }
}

/// Whether it is set, to the only value that it may have.
fn only<'a>(
    name: &'a [u8],
    wanted: &[u8],
    reason: Reason,
    value: Option<&[u8]>,
) -> Result<bool, WordFault<'a>>
    ensures { Takes (λ given. given) result (spec.only name.entry.now wanted.now reason (option_map (λ value. value.now) value.entry)) }
{
    match value {
        Some(text) if text == wanted => Ok(true),
        Some(_) => Err(WordFault::of(name, reason)),
        None => Ok(false),
    }
}
