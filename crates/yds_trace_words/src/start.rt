//! The speeds before the first change that `--start` gives.
ghost use Rattle.std.specs.Prelude.{◌≡◌, map, option_map};
ghost use Rattle.std.specs.List.{list_any};
ghost use Rattle.yds_trace.specs.Views.{start_read, speed_read};
ghost use Rattle.yds_trace_words.specs.Start as spec;
ghost use Rattle.yds_trace_words.specs.Views.{Reads, speeds_read};

use crate::fault::{NoRequest, Reason, WordFault};
use crate::letter::{Letter, Sign, has, letters, pieces, split_at, text};
use crate::limits::MAX_SPEEDS;
use std::alloc::Global;
use yds_kernel::MAX_NUMBER;
use yds_text::number_of;
use yds_trace::{MAX_PROCESSOR, Start, StartSpeed};

/// The speeds before the first change. Where nothing is said of them, none is known.
pub(crate) fn start<'a>(alloc: Global, value: Option<&[u8]>) -> Result<Start, NoRequest<'a>>
    ensures { Reads start_read result (spec.start_asked (option_map (λ value. value.now) value.entry)) }
{
    let Some(value) = value else {
        return Ok(Start::Listed(Vec::new(alloc)));
    };
    let letters = letters(alloc, value)?;
    if has(&letters, Sign::Comma) || has(&letters, Sign::Colon) {
        Ok(Start::Listed(speeds(alloc, &letters)?))
    } else {
        same(alloc, &letters)
    }
}

/// One speed for all processors.
fn same<'a>(alloc: Global, letters: &[Letter]) -> Result<Start, NoRequest<'a>>
    ensures { Reads start_read result (spec.same_in letters.now) }
{
    match number_of(&text(alloc, letters)?, 1, MAX_NUMBER) {
        Ok(khz) => Ok(Start::Same(khz)),
        Err(_) => Err(NoRequest::Fault(WordFault::of(b"--start", Reason::Speed))),
    }
}

/// The speeds that are listed, one for each of their processors.
fn speeds<'a>(alloc: Global, letters: &[Letter]) -> Result<Vec<StartSpeed>, NoRequest<'a>>
    ensures { Reads speeds_read result (spec.speeds_in letters.now) }
{
    let pieces = pieces(alloc, letters)?;
    speeds_of(alloc, &pieces)
}

/// The speeds of these pieces.
fn speeds_of<'a>(alloc: Global, pieces: &[&[Letter]]) -> Result<Vec<StartSpeed>, NoRequest<'a>>
    ensures { Reads speeds_read result (spec.speeds_of (map (λ piece. piece.now) pieces.now)) }
{
    if pieces.len() > MAX_SPEEDS {
        return Err(NoRequest::Fault(WordFault::of(b"--start", Reason::TooManySpeeds)));
    }
    let speeds = each_speed(alloc, pieces)?;
    match repeated(&speeds) {
        Some(place) => Err(NoRequest::Fault(WordFault::of_speed(place, Reason::ProcessorTwice))),
        None => Ok(speeds),
    }
}

/// The speeds in their order, or the first that is refused.
fn each_speed<'a>(alloc: Global, pieces: &[&[Letter]]) -> Result<Vec<StartSpeed>, NoRequest<'a>>
    ensures { Reads speeds_read result (spec.speeds_from 1 (map (λ piece. piece.now) pieces.now)) }
{
    let mut speeds = Vec::new(alloc);
    for (index, &piece) in pieces.iter().enumerate() {
        speeds.push(speed(alloc, index + 1, piece)?)?;
    }
    Ok(speeds)
}

/// The speed at this place of the list.
fn speed<'a>(alloc: Global, place: usize, letters: &[Letter]) -> Result<StartSpeed, NoRequest<'a>>
    ensures { Reads speed_read result (spec.speed_at place letters.now) }
{
    let (processor, khz) = split_at(letters, Sign::Colon);
    let Some(khz) = khz else {
        return Err(NoRequest::Fault(WordFault::of_speed(place, Reason::SpeedForm)));
    };
    Ok(StartSpeed {
        processor: processor_of(alloc, place, processor)?,
        khz: khz_of(alloc, place, khz)?,
    })
}

/// The number of a processor.
fn processor_of<'a>(alloc: Global, place: usize, letters: &[Letter]) -> Result<u32, NoRequest<'a>>
    ensures { Reads (λ number. number) result (spec.processor_at place letters.now) }
{
    match number_of(&text(alloc, letters)?, 0, MAX_PROCESSOR) {
        Ok(number) => Ok(number as u32),
        Err(_) => Err(NoRequest::Fault(WordFault::of_speed(place, Reason::SpeedProcessor))),
    }
}

/// A speed in kilohertz.
fn khz_of<'a>(alloc: Global, place: usize, letters: &[Letter]) -> Result<u64, NoRequest<'a>>
    ensures { Reads (λ khz. khz) result (spec.khz_at place letters.now) }
{
    match number_of(&text(alloc, letters)?, 1, MAX_NUMBER) {
        Ok(khz) => Ok(khz),
        Err(_) => Err(NoRequest::Fault(WordFault::of_speed(place, Reason::Speed))),
    }
}

/// The place of the first speed whose processor stands there again.
fn repeated(speeds: &[StartSpeed]) -> Option<usize>
    ensures { result ≡ spec.twice_from 1 (map speed_read speeds.now) }
{
    let mut place = 1;
    let mut rest = speeds;
    while let [first, others @ ..] = rest {
        if is_listed(first.processor, others) {
            return Some(place);
        }
        place += 1;
        rest = others;
    }
    None
}

/// Whether one of these speeds is the processor's.
fn is_listed(processor: u32, speeds: &[StartSpeed]) -> bool
    ensures { result ≡ list_any (spec.is_of processor) (map speed_read speeds.now) }
{
    for speed in speeds {
        if speed.processor == processor {
            return true;
        }
    }
    false
}
