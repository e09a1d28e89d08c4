//! The time from which bounds count.
ghost use Rattle.std.specs.Prelude.{◌≡◌, ℕ, List, [], true, Some, None, IfOk, IfErr, OnOk};
ghost use Rattle.yds_kernel.specs.Views.{said_read};
ghost use Rattle.yds_kernel_order.specs.Ordering.{IsGiven, IsOrderOf};
ghost use Rattle.yds_kernel_text.specs.Advancing.{Counts};
ghost use Rattle.yds_trace_bounds.specs.Bounds.{time_of};
ghost use Rattle.yds_trace_reading.specs.Begin.{IsBegun, IsNotBegun, is_stuck, stuck_by};

use yds_kernel::Said;
use yds_kernel_order::{OrderedReader, Step};
use yds_port::Source;
use yds_trace_bounds::Bounds;

/// Why a trace isn't begun.
#[derive(Clone, Copy, Debug, PartialEq, Eq)]
pub enum NoBegin {
    /// Bounds count from the first event, and the first line tells of lost events: one of those may have been the first.
    Lost,
    /// The trace has more bytes than 64 bits count.
    TooLong,
    /// A read failed.
    ReadFault,
    /// Out of memory.
    Memory,
}

/// The time from which these bounds count, in nanoseconds of the trace's clock: that of the first event. Where none of them counts from
/// it, or the trace has no event, it is 0. The reader has given no line before, and gives none: it reads on as far as the place of the
/// first one needs.
pub fn begin<S: Source>(
    reader: &mut OrderedReader,
    bounds: Bounds,
    source: &mut S,
) -> Result<u64, NoBegin>
    ensures counts { Counts (S.left source.old) (S.left source.new) reader.old.reader.taken reader.new.reader.taken }
    ensures no_fault { OnOk result (S.faults source.new ≡ S.faults source.old) }
    ensures given { IsGiven reader.old [] → OnOk result (IsGiven reader.new []) }
    ensures begun { (input : List ℕ) → IsGiven reader.old [] → IsOrderOf input reader.old [] (S.left source.old)
        → IfOk result (IsBegun bounds input reader.new (S.left source.new)) }
    ensures not_begun { IfErr result (IsNotBegun bounds reader.old reader.new (S.left source.old) (S.faults source.old) (S.faults source.new)) }
{
    if let Err(step) = reader.read_on(source) {
        return Err(stuck(step));
    }
    if !bounds.count_from_first() {
        return Ok(0);
    }
    match reader.next() {
        Some(said) => counted_from(&said),
        None => Ok(0),
    }
}

/// When the first line was, which says this.
fn counted_from(said: &Said<'_>) -> Result<u64, NoBegin>
    ensures time { IfOk result (λ time. time_of (said_read said.now) ≡ Some time) }
    ensures lost { IfErr result (λ why. (why ≡ NoBegin.Lost) × (time_of (said_read said.now) ≡ None)) }
{
    match said {
        Said::Event(event) => Ok(event.time),
        Said::Lost { .. } | Said::Nothing => Err(NoBegin::Lost),
    }
}

/// Why a reader can't go on.
fn stuck(step: Step) -> NoBegin
    requires { is_stuck step ≡ true }
    ensures { result ≡ stuck_by step }
{
    match step {
        Step::Failed => NoBegin::ReadFault,
        Step::TooLong => NoBegin::TooLong,
        Step::Memory => NoBegin::Memory,
        Step::Line | Step::End | Step::Refused { .. } => unreachable!(),
    }
}
