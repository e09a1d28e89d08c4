//! A comment on stretches within one unit of time, which are in no run.
ghost use Rattle.std.specs.Prelude.{◌≡◌, ◌++◌, OnOk, IfOk, filter, sum_by};
ghost use Rattle.yds_kernel.specs.Parts.{capped};
ghost use Rattle.yds_trace.specs.WrittenTime as written;
ghost use Rattle.yds_trace_document.specs.Views.{units_read, judged_read, judged_list};
ghost use Rattle.yds_trace_text.specs.Text as spec;

use crate::bytes::put_comment;
use crate::numbers::{counted, in_milliseconds};
use base::Memory;
use std::alloc::Global;
use yds_trace::Stretch;
use yds_trace_document::{Judged, Units};

/// Whether a stretch takes time and is within one unit.
fn is_short(units: Units, stretch: &Stretch) -> bool
    ensures { result ≡ written.is_short (units_read units) stretch.now }
{
    stretch.from < stretch.to && units.written_time(stretch.from) == units.written_time(stretch.to)
}

/// Puts the short ones of these stretches behind the others.
fn put_short(units: Units, stretches: &[Stretch], short: &mut Vec<Stretch>) -> Result<(), Memory>
    ensures { OnOk result (short.new.items ≡ short.old.items ++ filter (written.is_short (units_read units)) stretches.now) }
{
    for stretch in stretches {
        if is_short(units, stretch) {
            short.push(*stretch)?;
        }
    }
    Ok(())
}

/// Puts the short stretches of a job behind the others, if it stands as it is.
#[tactic(auto, using(crate::proofs::Read::read_back))]
fn put_short_of(units: Units, judged: &Judged<'_>, short: &mut Vec<Stretch>) -> Result<(), Memory>
    ensures { OnOk result (short.new.items ≡ short.old.items ++ spec.short_of (units_read units) (judged_read judged.now)) }
{
    if judged.reason.is_some() {
        return Ok(());
    }
    put_short(units, &judged.job.stretches, short)
}

/// The short stretches of these jobs.
fn short_stretches(
    alloc: Global,
    units: Units,
    judged: &[Judged<'_>],
) -> Result<Vec<Stretch>, Memory>
    ensures { IfOk result (λ short. short.items ≡ spec.short_stretches (units_read units) (judged_list judged.now)) }
{
    let mut short = Vec::new(alloc);
    for one in judged {
        put_short_of(units, one, &mut short)?;
    }
    Ok(short)
}

/// How long stretches are together, in nanoseconds; at most the greatest number of 64 bits.
fn total(stretches: &[Stretch]) -> u64
    ensures { result ≡ capped (sum_by spec.length_of stretches.now) }
{
    let mut total: u64 = 0;
    for stretch in stretches {
        total = total.saturating_add(stretch.to.saturating_sub(stretch.from));
    }
    total
}

/// The comment on the short stretches of these jobs, if there are any.
pub(crate) fn put_short_stretches(
    alloc: Global,
    units: Units,
    judged: &[Judged<'_>],
    text: &mut Vec<u8>,
) -> Result<(), Memory>
    ensures { OnOk result (text.new.items ≡ text.old.items ++ spec.short_comment (spec.short_stretches (units_read units) (judged_list judged.now))) }
{
    let short = short_stretches(alloc, units, judged)?;
    if short.is_empty() {
        Ok(())
    } else {
        put_some(alloc, &short, text)
    }
}

/// The comment on these stretches.
fn put_some(alloc: Global, short: &[Stretch], text: &mut Vec<u8>) -> Result<(), Memory>
    ensures { OnOk result (text.new.items ≡ text.old.items ++ spec.some_short short.now) }
{
    let number = counted(
        alloc,
        short.len() as u64,
        b"stretch within one unit of time, ",
        b"stretches within one unit of time, ",
    )?;
    let time = in_milliseconds(alloc, total(short))?;
    put_comment(
        &[
            number.as_slice(),
            time.as_slice(),
            b" ms together, ".as_slice(),
            is_or_are(short.len()),
            b" in no run".as_slice(),
        ],
        text,
    )
}

fn is_or_are(number: usize) -> &'static [u8]
    ensures { result.now ≡ spec.is_or_are number }
{
    if number == 1 { b"is" } else { b"are" }
}
