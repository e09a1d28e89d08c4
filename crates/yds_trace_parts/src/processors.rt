//! The processors that have documents, and what is written of each behind a line.
ghost use Rattle.std.specs.Prelude.{◌≡◌, ◌+◌, ◌≤◌, ℕ, List, [], ◌∷◌, ◌++◌, length, max, true, Some, None, OnOk, IfOk, IfErr};
ghost use Rattle.yds_kernel.specs.Event as trace;
ghost use Rattle.yds_kernel.specs.Views.{said_read};
ghost use Rattle.yds_trace.specs.declared.cut.Cut as written;
ghost use Rattle.yds_trace.specs.Asked as asking;
ghost use Rattle.yds_trace.specs.Kept.{IsAtBehind};
ghost use Rattle.yds_trace.specs.Parts as parts;
ghost use Rattle.yds_trace.specs.Past.{next_processor};
ghost use Rattle.yds_trace.specs.Shown.{IsShown};
ghost use Rattle.yds_trace.specs.Views.{asked_read};
ghost use Rattle.yds_trace_parts.specs.Plain.{IsPlainLook};
ghost use Rattle.yds_trace_parts.specs.Told.{part_halt};
ghost use Rattle.yds_trace_parts.specs.Telling as spec;

use crate::halt::Halt;
use crate::part::{Last, Piece, last_part, next_piece, without_job};
use std::alloc::{AllocError, Global};
use yds_kernel::Said;
use yds_trace::{Asked, Cut, NO_CUT, Pass, Shown};

/// A processor that has documents, and what was written of it.
#[derive(Clone, Copy, Debug)]
pub(crate) struct Processor {
    pub number: u64,
    pub cut: Cut,
}

/// What is written of all processors behind a line, and what was written then.
#[derive(Debug, Drop)]
pub(crate) struct Pieces {
    pub text: Vec<u8>,
    pub processors: Vec<Processor>,
}

impl Pieces {
    /// With what is written of one processor more.
    fn add(&mut self, number: u64, piece: &Piece) -> Result<(), AllocError>
        ensures text { OnOk result (self.new.text.items ≡ self.old.text.items ++ piece.now.text.items) }
        ensures processors { OnOk result (self.new.processors.items ≡ self.old.processors.items ++ record { number = number; cut = piece.now.cut } ∷ []) }
    {
        self.text.extend_from_slice(&piece.text)?;
        self.processors.push(Processor {
            number,
            cut: piece.cut,
        })?;
        Ok(())
    }
}

/// The first processor that has documents.
pub(crate) fn first_processor(asked: &Asked) -> u64
    ensures { parts.processors_of (asked_read asked.now) [] ≡ result ∷ [] }
{
    if asked.everywhere { 0 } else { asked.processor }
}

/// The processor of which a line tells.
pub(crate) fn processor_of(said: &Said<'_>) -> Option<u64>
    ensures { spec.next_of result ≡ next_processor (said_read said.now) }
{
    match said {
        Said::Event(event) => Some(event.processor),
        Said::Lost { processor, .. } => Some(*processor),
        Said::Nothing => None,
    }
}

/// With all processors up to the one of which a line tells, where each has documents of its own: nothing was written of
/// those that are new.
pub(crate) fn grow(
    processors: &mut Vec<Processor>,
    unseen: Option<Cut>,
    told: Option<u64>,
) -> Result<(), AllocError>
    ensures same { unseen ≡ None → OnOk result (processors.new.items ≡ processors.old.items) }
    ensures grown { (cut : written.Cut) (cuts : ℕ → written.Cut) (count : ℕ) → unseen ≡ Some cut → processors.old.items ≡ spec.each_of cuts count
        → ((number : ℕ) → count ≤ number → cuts number ≡ cut) → OnOk result (processors.new.items ≡ spec.each_of cuts (max (spec.next_of told) count)) }
{
    match (unseen, told) {
        (Some(cut), Some(last)) => grow_to(processors, cut, last),
        _ => Ok(()),
    }
}

/// With all processors up to this one.
fn grow_to(processors: &mut Vec<Processor>, cut: Cut, last: u64) -> Result<(), AllocError>
    ensures { (cuts : ℕ → written.Cut) (count : ℕ) → processors.old.items ≡ spec.each_of cuts count
        → ((number : ℕ) → count ≤ number → cuts number ≡ cut) → OnOk result (processors.new.items ≡ spec.each_of cuts (max (last + 1) count)) }
{
    while processors.len() as u64 <= last {
        let number = processors.len() as u64;
        processors.push(Processor { number, cut })?;
    }
    Ok(())
}

/// What is written of these processors behind a line where it is looked for parts.
pub(crate) fn next_pieces(
    alloc: Global,
    pass: &mut Pass,
    processors: &[Processor],
    shown: &Shown,
    strict: bool,
) -> Result<Pieces, Halt>
    requires { IsPlainLook pass.old shown.now }
    ensures turned { (asked : asking.Asked) (past : List trace.Said) (boundary : ℕ) → IsAtBehind asked past boundary pass.old
        → OnOk result (spec.IsTurned asked past boundary pass.new) }
    ensures made { (asked : asking.Asked) (past : List trace.Said) (boundary : ℕ) → IsAtBehind asked past boundary pass.old → IsShown asked past boundary shown.now
        → spec.NoneEndsBefore boundary (spec.cuts_of processors.now None) → parts.is_due past ≡ true
        → IfOk result (spec.ArePieces asked strict past processors.now) }
    ensures halts { (asked : asking.Asked) (past : List trace.Said) (boundary : ℕ) → IsAtBehind asked past boundary pass.old → IsShown asked past boundary shown.now
        → spec.NoneEndsBefore boundary (spec.cuts_of processors.now None) → parts.is_due past ≡ true
        → IfErr result (spec.IsHaltFor (spec.pieces_at asked strict past processors.now).halt) }
{
    let mut pieces = Pieces {
        text: Vec::new(alloc),
        processors: Vec::new(alloc),
    };
    for one in processors {
        let piece = piece_on(alloc, pass, *one, shown, strict)?;
        pieces.add(one.number, &piece)?;
    }
    Ok(pieces)
}

/// What is written of this processor. The pass asks for it from then on.
fn piece_on(
    alloc: Global,
    pass: &mut Pass,
    one: Processor,
    shown: &Shown,
    strict: bool,
) -> Result<Piece, Halt>
    requires { IsPlainLook pass.old shown.now }
    ensures turned { (asked : asking.Asked) (past : List trace.Said) (boundary : ℕ) → IsAtBehind asked past boundary pass.old
        → IsAtBehind (asking.on one.number asked) past boundary pass.new }
    ensures made { (asked : asking.Asked) (past : List trace.Said) (boundary : ℕ) → IsAtBehind asked past boundary pass.old → IsShown asked past boundary shown.now
        → boundary ≤ one.cut.boundary → parts.is_due past ≡ true
        → IfOk result (spec.IsPiece (asking.on one.number asked) strict past one.cut) }
    ensures halts { (asked : asking.Asked) (past : List trace.Said) (boundary : ℕ) → IsAtBehind asked past boundary pass.old → IsShown asked past boundary shown.now
        → boundary ≤ one.cut.boundary → parts.is_due past ≡ true
        → IfErr result (spec.HaltsBehind (asking.on one.number asked) strict past one.cut) }
{
    pass.turn_to(one.number);
    let asked = pass.asked();
    let own = shown.shared(alloc, asked)?;
    let shares = own.as_ref().unwrap_or(shown);
    next_piece(alloc, asked, shares, one.cut, strict)
}

/// What was written of each processor of which no line tells, behind a line where it is looked for parts: none of them has
/// a job. The pass asks for one of them, which is given, from then on.
pub(crate) fn unseen_behind(
    alloc: Global,
    pass: &mut Pass,
    unseen: Option<Cut>,
    processor: u64,
    shown: &Shown,
) -> Result<Option<Cut>, Halt>
    requires { IsPlainLook pass.old shown.now }
    ensures turned { (asked : asking.Asked) (past : List trace.Said) (boundary : ℕ) → IsAtBehind asked past boundary pass.old
        → OnOk result (spec.IsTurned asked past boundary pass.new) }
    ensures made { (asked : asking.Asked) (past : List trace.Said) (boundary : ℕ) → IsAtBehind asked past boundary pass.old → IsShown asked past boundary shown.now
        → spec.NoneEndsBefore boundary (spec.cuts_of [] unseen) → parts.is_due past ≡ true
        → IfOk result (λ next. next ≡ spec.unseen_at (asking.on processor asked) past unseen) }
    ensures halts { IfErr result (spec.IsHaltFor None) }
{
    match unseen {
        Some(cut) => {
            let next = unseen_on(alloc, pass, cut, processor, shown)?;
            Ok(Some(next))
        }
        None => Ok(None),
    }
}

fn unseen_on(
    alloc: Global,
    pass: &mut Pass,
    cut: Cut,
    processor: u64,
    shown: &Shown,
) -> Result<Cut, Halt>
    requires { IsPlainLook pass.old shown.now }
    ensures turned { (asked : asking.Asked) (past : List trace.Said) (boundary : ℕ) → IsAtBehind asked past boundary pass.old
        → IsAtBehind (asking.on processor asked) past boundary pass.new }
    ensures made { (asked : asking.Asked) (past : List trace.Said) (boundary : ℕ) → IsAtBehind asked past boundary pass.old → IsShown asked past boundary shown.now
        → boundary ≤ cut.boundary → parts.is_due past ≡ true
        → IfOk result (λ next. next ≡ spec.without_job_at past cut (parts.place_of (asking.on processor asked) past cut)) }
    ensures halts { IfErr result (spec.IsHaltFor None) }
{
    pass.turn_to(processor);
    let asked = pass.asked();
    let own = shown.shared(alloc, asked)?;
    let shares = own.as_ref().unwrap_or(shown);
    without_job(alloc, asked, shares, cut)
}

/// The last parts of these processors.
pub(crate) fn last_pieces(
    alloc: Global,
    pass: &mut Pass,
    processors: &[Processor],
    shown: &Shown,
    strict: bool,
) -> Result<Last, Halt>
    requires { IsPlainLook pass.old shown.now }
    ensures made { (asked : asking.Asked) (past : List trace.Said) (boundary : ℕ) → IsAtBehind asked past boundary pass.old → IsShown asked past boundary shown.now
        → spec.NoneEndsBefore boundary (spec.cuts_of processors.now None) → IfOk result (spec.AreLast asked strict past processors.now) }
    ensures halts { (asked : asking.Asked) (past : List trace.Said) (boundary : ℕ) → IsAtBehind asked past boundary pass.old → IsShown asked past boundary shown.now
        → spec.NoneEndsBefore boundary (spec.cuts_of processors.now None) → IfErr result (spec.IsHaltFor (spec.last_at asked strict past processors.now).halt) }
{
    let mut text = Vec::new(alloc);
    let mut has_job = false;
    for one in processors {
        let last = last_on(alloc, pass, *one, shown, strict)?;
        text.extend_from_slice(&last.text)?;
        has_job = has_job || last.has_job;
    }
    Ok(Last { text, has_job })
}

/// The last part of this processor. The pass asks for it from then on.
fn last_on(
    alloc: Global,
    pass: &mut Pass,
    one: Processor,
    shown: &Shown,
    strict: bool,
) -> Result<Last, Halt>
    requires { IsPlainLook pass.old shown.now }
    ensures turned { (asked : asking.Asked) (past : List trace.Said) (boundary : ℕ) → IsAtBehind asked past boundary pass.old
        → IsAtBehind (asking.on one.number asked) past boundary pass.new }
    ensures made { (asked : asking.Asked) (past : List trace.Said) (boundary : ℕ) → IsAtBehind asked past boundary pass.old → IsShown asked past boundary shown.now
        → boundary ≤ one.cut.boundary → IfOk result (spec.IsLast (asking.on one.number asked) strict past one.cut) }
    ensures halts { (asked : asking.Asked) (past : List trace.Said) (boundary : ℕ) → IsAtBehind asked past boundary pass.old → IsShown asked past boundary shown.now
        → boundary ≤ one.cut.boundary → IfErr result (spec.IsHaltFor (part_halt (asking.on one.number asked) strict past one.cut None)) }
{
    pass.turn_to(one.number);
    let asked = pass.asked();
    let own = shown.shared(alloc, asked)?;
    let shares = own.as_ref().unwrap_or(shown);
    last_part(alloc, asked, shares, one.cut, strict)
}

/// What changes a part of one of these changes one of this.
pub(crate) fn latest_of(processors: &[Processor], unseen: Option<Cut>) -> Cut
    ensures latest { spec.IsLatest (spec.cuts_of processors.now unseen) result }
    ensures last { (time : ℕ) → spec.NoneEndsBefore time (spec.cuts_of processors.now unseen) → 1 ≤ length (spec.cuts_of processors.now unseen) → time ≤ result.boundary }
{
    let mut latest = unseen.unwrap_or(NO_CUT);
    for one in processors {
        latest = latest.later(one.cut);
    }
    latest
}

/// The first boundary of these, or else this time.
pub(crate) fn least_boundary(processors: &[Processor], unseen: Option<Cut>, latest: u64) -> u64
    ensures least { spec.NoneEndsBefore result (spec.cuts_of processors.now unseen) }
    ensures before { result ≤ latest }
    ensures first { (time : ℕ) → spec.NoneEndsBefore time (spec.cuts_of processors.now unseen) → time ≤ latest → time ≤ result }
{
    let mut least = boundary_before(unseen, latest);
    for one in processors {
        least = least.min(one.cut.boundary);
    }
    least
}

/// The boundary of what was written of processors of which no line tells, where it is before this time.
fn boundary_before(unseen: Option<Cut>, latest: u64) -> u64
    ensures { result ≡ spec.boundary_before unseen latest }
{
    match unseen {
        Some(cut) => cut.boundary.min(latest),
        None => latest,
    }
}
