//! What is told of a document that is beyond a limit.
ghost use Rattle.std.specs.Prelude.{◌≡◌, IfOk};
ghost use Rattle.yds_trace_document.specs.Views.{judged_list};
ghost use Rattle.yds_trace_text.specs.Limit as spec;
ghost use Rattle.yds_trace_text.specs.Writing.{Tells};

use crate::fault::NoText;
use base::Memory;
use std::alloc::Global;
use yds_trace::Reason;
use yds_trace_document::{DocumentFault, Judged};

/// The place of a job of which it isn't known whether it is late, if that is the fault.
fn unsure_place(fault: DocumentFault) -> Option<usize>
    ensures { result ≡ spec.unsure_place fault }
{
    match fault {
        DocumentFault::NotKnown(place) => Some(place),
        _ => None,
    }
}

/// What a document would call the job at this place.
fn name_at(alloc: Global, judged: &[Judged<'_>], place: usize) -> Result<Vec<u8>, Memory>
    ensures { IfOk result (λ name. name.items ≡ spec.name_at (judged_list judged.now) place) }
{
    match judged.get(place) {
        Some(one) => one.name.text(alloc),
        None => Ok(Vec::new(alloc)),
    }
}

/// Why the job at this place doesn't stand as it is, if it doesn't.
fn reason_at(judged: &[Judged<'_>], place: usize) -> Option<Reason>
    ensures { result ≡ spec.reason_at (judged_list judged.now) place }
{
    match judged.get(place) {
        Some(one) => one.reason,
        None => None,
    }
}

/// That of the job at this place it isn't known whether it is late.
fn not_known(alloc: Global, judged: &[Judged<'_>], place: usize) -> NoText
    ensures { Tells (spec.not_known (judged_list judged.now) place) result }
{
    match name_at(alloc, judged, place) {
        Ok(name) => NoText::NotKnown {
            place,
            name,
            reason: reason_at(judged, place),
        },
        Err(Memory) => NoText::Memory,
    }
}

/// What is told of a fault of these jobs.
pub(crate) fn no_text(alloc: Global, judged: &[Judged<'_>], fault: DocumentFault) -> NoText
    ensures { Tells (spec.limit_of (judged_list judged.now) fault) result }
{
    match unsure_place(fault) {
        Some(place) => not_known(alloc, judged, place),
        None => NoText::Limit(fault),
    }
}
