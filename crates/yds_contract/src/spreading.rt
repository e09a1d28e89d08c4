ghost use Rattle.std.specs.Prelude.{◌≡◌, ◌<◌, ◌≤◌, ◌+◌, ◌-◌, ◌*◌, ◌/◌, [], ◌∷◌, ◌++◌, length, map, filter, IfOk, OnOk};
ghost use Rattle.std.specs.List.{All};
ghost use Rattle.std.specs.List.Sorted.{IsStrictlyIncreasing};
ghost use Rattle.base.specs.declared.limits.TheConstants.{MAX_TIME, MAX_SLOT_WORK, MAX_LEVEL_WORK, MAX_LEVEL_LENGTH};
ghost use Rattle.yds_model.specs.Scale.{at_scale, of_parts};
ghost use Rattle.yds_contract.specs.Contracted.{place, ArePieces};
ghost use Rattle.yds_contract.specs.Removed.{removed_stretches, IsContraction};
ghost use Rattle.yds_contract.specs.Clipped.{clipped, pieces_after};
ghost use Rattle.yds_contract.specs.Spread.{piece_in_parts, slot_over, CanRunOver, IsSpread};
ghost use Rattle.yds_contract.specs.Cut.{AreUpto, comes_between, cut_between};

use crate::removed::Removed;
use crate::span::Span;
use std::alloc::Global;
use yds_fraction::{Amount, Moment, Speed};
use yds_model::Memory;
use yds_slots::Slot;

/// The time in parts, of which each time unit has so many.
fn parts_of(time: Moment, parts: u64) -> u64
    requires in_range { time.whole ≤ MAX_TIME }
    requires few { parts ≤ MAX_LEVEL_WORK }
    ensures { result ≡ at_scale parts time }
{
    time.whole() * parts + time.num() * (parts / time.den())
}

/// Puts the time between these two last among the spans, where there is any.
fn add(spans: &mut Vec<Span>, from: u64, to: u64) -> Result<(), Memory>
    ensures { OnOk result (spans.new.items ≡ spans.old.items ++ clipped from to) }
{
    if from < to {
        spans.push(Span { from, to })?;
    }
    Ok(())
}

/// The spans of real time that aren't removed and whose places lie from `start` to `end`, all in parts.
fn spans_between(
    alloc: Global,
    removed: &[Removed],
    parts: u64,
    start: u64,
    end: u64,
) -> Result<Vec<Span>, Memory>
    requires removed { IsContraction removed.now }
    requires some { 1 ≤ parts }
    requires few { parts ≤ MAX_LEVEL_WORK }
    requires forward { start < end }
    requires within { end ≤ place (removed_stretches removed.now) MAX_TIME * parts }
    ensures { IfOk result (λ spans. spans.items ≡ pieces_after start end 0 0 (map (piece_in_parts parts) (removed_stretches removed.now))) }
{
    let mut spans = Vec::new(alloc);
    let mut from: u64 = 0;
    let mut before = 0;
    for stretch in removed {
        let begins = u64::from(stretch.from) * parts;
        let ends = u64::from(stretch.to) * parts;
        add(
            &mut spans,
            from.max(start + before),
            begins.min(end + before),
        )?;
        from = ends;
        before += ends - begins;
    }
    add(&mut spans, from.max(start + before), end + before)?;
    Ok(spans)
}

/// The job's slot at this speed over a span of parts.
fn slot_between(job: u32, speed: Speed, from: u64, to: u64) -> Slot
    requires some { 1 ≤ speed.num }
    requires forward { from < to }
    requires within { to ≤ MAX_TIME * speed.num }
    requires work_fits { (to - from) / speed.den ≤ MAX_SLOT_WORK }
    ensures { result ≡ slot_over job speed (record { from = from; to = to }) }
{
    Slot {
        job,
        from: Moment::of_parts(u128::from(from), speed.num()),
        to: Moment::of_parts(u128::from(to), speed.num()),
        work: Amount::of_parts(u128::from(to - from), speed.den()),
    }
}

/// How many of the events are at this time or before it. They are looked through by halves.
fn count_upto(events: &[u32], time: u32) -> usize
    requires { IsStrictlyIncreasing events.now }
    ensures { AreUpto events.now time result }
{
    events.partition_point(|event| *event <= time)
}

/// The events after the one time, up to the other.
fn events_between(events: &[u32], after: u32, upto: u32) -> &[u32]
    requires forward { after ≤ upto }
    requires events { IsStrictlyIncreasing events.now }
    ensures { result.now ≡ filter (comes_between after upto) events.now }
{
    let first = count_upto(events, after);
    let last = count_upto(events, upto);
    &events[first..last]
}

/// The events strictly inside the span of parts, of which each time unit has so many.
fn events_inside(events: &[u32], span: Span, parts: u64) -> &[u32]
    requires some { 1 ≤ parts }
    requires forward { span.from < span.to }
    requires within { span.to ≤ MAX_TIME * parts }
    requires events { IsStrictlyIncreasing events.now }
    ensures { cut_between span.from span.to (map (λ event. event * parts) result.now)
        ≡ cut_between span.from span.to (map (λ event. event * parts) events.now) }
{
    let after = span.from / parts;
    let upto = (span.to - 1) / parts;
    events_between(events, after as u32, upto as u32)
}

/// Puts the job's slots over the span last, cut at each event that lies strictly inside it.
fn cut(
    slots: &mut Vec<Slot>,
    job: u32,
    speed: Speed,
    span: Span,
    events: &[u32],
) -> Result<(), Memory>
    requires some { 1 ≤ speed.num }
    requires can { CanRunOver speed span }
    ensures { OnOk result (slots.new.items ≡ slots.old.items
        ++ map (slot_over job speed) (cut_between span.from span.to (map (λ event. event * speed.num) events.now))) }
{
    let mut from = span.from;
    for event in events {
        let time = u64::from(*event) * speed.num();
        if from < time && time < span.to {
            slots.push(slot_between(job, speed, from, time))?;
            from = time;
        }
    }
    slots.push(slot_between(job, speed, from, span.to))?;
    Ok(())
}

/// The spans of real time over which the slot of contracted time runs, in parts of which a time unit has as many as the
/// speed's numerator.
fn spans_of(
    alloc: Global,
    removed: &[Removed],
    slot: Slot,
    speed: Speed,
) -> Result<Vec<Span>, Memory>
    requires removed { IsContraction removed.now }
    requires some { 1 ≤ speed.num }
    requires forward { at_scale speed.num slot.from < at_scale speed.num slot.to }
    requires within { at_scale speed.num slot.to ≤ place (removed_stretches removed.now) MAX_TIME * speed.num }
    requires at_speed { slot.work ≡ of_parts (at_scale speed.num slot.to - at_scale speed.num slot.from) speed.den }
    ensures found { IfOk result (λ spans.
        ArePieces (map (piece_in_parts speed.num) (removed_stretches removed.now)) (at_scale speed.num slot.from) (at_scale speed.num slot.to) spans.items) }
    ensures can { IfOk result (λ spans. All (CanRunOver speed) spans.items) }
{
    let start = parts_of(slot.from, speed.num());
    let end = parts_of(slot.to, speed.num());
    let spans = spans_between(alloc, removed, speed.num(), start, end)?;
    Ok(spans)
}

/// The real slots that make up a slot of contracted time at this speed, cut at the events.
pub(crate) fn spread_over(
    alloc: Global,
    removed: &[Removed],
    slot: Slot,
    speed: Speed,
    events: &[u32],
) -> Result<Vec<Slot>, Memory>
    requires removed { IsContraction removed.now }
    requires some { 1 ≤ speed.num }
    requires forward { at_scale speed.num slot.from < at_scale speed.num slot.to }
    requires within { at_scale speed.num slot.to ≤ place (removed_stretches removed.now) MAX_TIME * speed.num }
    requires at_speed { slot.work ≡ of_parts (at_scale speed.num slot.to - at_scale speed.num slot.from) speed.den }
    requires events { IsStrictlyIncreasing events.now }
    ensures { IfOk result (λ slots. IsSpread (removed_stretches removed.now) slot speed events.now slots.items) }
{
    let spans = spans_of(alloc, removed, slot, speed)?;
    let mut slots = Vec::new(alloc);
    for span in &spans {
        let inside = events_inside(events, *span, speed.num());
        cut(&mut slots, slot.job, speed, *span, inside)?;
    }
    Ok(slots)
}
