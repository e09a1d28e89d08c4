//! A comment on wake-ups that came while their job was open.
ghost use Rattle.std.specs.Prelude.{◌≡◌, ◌++◌, OnOk, sum_by, []};
ghost use Rattle.yds_kernel.specs.Parts.{capped};
ghost use Rattle.yds_trace_document.specs.Views.{judged_read, judged_list};
ghost use Rattle.yds_trace_text.specs.Text as spec;
ghost use Rattle.yds_trace_text.specs.Views.{name_or_none};

use crate::bytes::put_comment;
use crate::left_out::name_text;
use crate::numbers::{counted, decimal};
use base::Memory;
use std::alloc::Global;
use yds_trace_document::{Judged, Name};

/// How many wake-ups came while a job was open, if it stands as it is.
fn wake_ups_of(judged: &Judged<'_>) -> u64
    ensures { result ≡ spec.wake_ups_of (judged_read judged.now) }
{
    if judged.reason.is_some() {
        0
    } else {
        judged.job.wake_ups
    }
}

/// How many there were of all these jobs, at most the greatest number of 64 bits.
fn all_wake_ups(judged: &[Judged<'_>]) -> u64
    ensures { result ≡ capped (sum_by spec.wake_ups_of (judged_list judged.now)) }
{
    let mut all: u64 = 0;
    for one in judged {
        all = all.saturating_add(wake_ups_of(one));
    }
    all
}

/// The most of one job, and the first job that has so many.
fn most_woken<'a>(judged: &[Judged<'a>]) -> (u64, Option<Name<'a>>)
    ensures most { result.0 ≡ (spec.most_woken (judged_list judged.entry.now) 0 []).0 }
    ensures name { name_or_none result.1 ≡ (spec.most_woken (judged_list judged.entry.now) 0 []).1 }
{
    let mut most: u64 = 0;
    let mut name = None;
    for one in judged {
        let number = wake_ups_of(one);
        if most < number {
            most = number;
            name = Some(one.name);
        }
    }
    (most, name)
}

/// The comment on wake-ups, if there are any.
pub(crate) fn put_wake_ups(
    alloc: Global,
    judged: &[Judged<'_>],
    text: &mut Vec<u8>,
) -> Result<(), Memory>
    ensures { OnOk result (text.new.items ≡ text.old.items ++ spec.wake_up_comment (judged_list judged.now)) }
{
    let all = all_wake_ups(judged);
    if all == 0 {
        return Ok(());
    }
    let (most, name) = most_woken(judged);
    put_some(alloc, all, most, name, text)
}

/// The comment on so many wake-ups.
fn put_some(
    alloc: Global,
    all: u64,
    most: u64,
    name: Option<Name<'_>>,
    text: &mut Vec<u8>,
) -> Result<(), Memory>
    ensures { OnOk result (text.new.items ≡ text.old.items ++ spec.woken_comment all (most, name_or_none name.entry)) }
{
    let number = counted(
        alloc,
        all,
        b"wake-up came while its job was open, the most of ",
        b"wake-ups came while their job was open, the most of ",
    )?;
    let name = name_text(alloc, name)?;
    let most = decimal(alloc, most)?;
    put_comment(
        &[
            number.as_slice(),
            name.as_slice(),
            b": ".as_slice(),
            most.as_slice(),
        ],
        text,
    )
}
