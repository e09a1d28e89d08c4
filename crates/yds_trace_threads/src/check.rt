//! What a line is refused for.
ghost use Rattle.std.specs.Prelude.{◌≡◌, ◌≤◌, List, OnOk};
ghost use Rattle.yds_kernel.specs.Event as trace;
ghost use Rattle.yds_kernel.specs.Views.{event_read, said_read};
ghost use Rattle.yds_trace.specs.Faults.{place_fault, processor_fault};
ghost use Rattle.yds_trace.specs.Passing.{fault_in};
ghost use Rattle.yds_trace.specs.Past.{last_time};
ghost use Rattle.yds_trace_threads.specs.Faults.{event_fault, said_fault};
ghost use Rattle.yds_trace_threads.specs.Kept.{IsPlaced};

use yds_kernel::{Event, Happening, Said};
use yds_trace::{Cause, MAX_PROCESSOR, MAX_TIME};

/// What a line is refused for behind lines of which the last one with a stamp has this time.
pub(crate) fn check(said: &Said<'_>, last: u64) -> Result<(), Cause>
    ensures fault { (past : List trace.Said) → last ≡ last_time past → fault_in result ≡ said_fault past (said_read said.now) }
    ensures placed { OnOk result (IsPlaced (said_read said.now)) }
{
    match said {
        Said::Event(event) => check_event(event, last),
        Said::Lost { processor, .. } => check_processor(*processor),
        Said::Nothing => Ok(()),
    }
}

/// What an event is refused for.
fn check_event(event: &Event<'_>, last: u64) -> Result<(), Cause>
    ensures fault { (past : List trace.Said) → last ≡ last_time past → fault_in result ≡ event_fault past (event_read event.now) }
    ensures placed { OnOk result (event.now.processor ≤ MAX_PROCESSOR) }
{
    check_place(event)?;
    if event.time < last {
        return Err(Cause::TimeGoesBack);
    }
    Ok(())
}

/// What an event is refused for, whatever stands before it.
fn check_place(event: &Event<'_>) -> Result<(), Cause>
    ensures fault { fault_in result ≡ place_fault (event_read event.now) }
    ensures placed { OnOk result (event.now.processor ≤ MAX_PROCESSOR) }
{
    check_processor(event.processor)?;
    if let Happening::Speed { processor, .. } = event.happening {
        check_processor(processor)?;
    }
    if event.time > MAX_TIME {
        return Err(Cause::TimeTooGreat);
    }
    Ok(())
}

/// What a line is refused for by the number of its processor.
fn check_processor(processor: u64) -> Result<(), Cause>
    ensures fault { fault_in result ≡ processor_fault processor }
    ensures placed { OnOk result (processor ≤ MAX_PROCESSOR) }
{
    if processor > MAX_PROCESSOR {
        return Err(Cause::ProcessorTooGreat);
    }
    Ok(())
}
