//! The first lines: the processor, the clock and the units.
ghost use Rattle.std.specs.Prelude.{◌≡◌, ◌++◌, OnOk};
ghost use Rattle.yds_trace_document.specs.Views.{units_read};
ghost use Rattle.yds_trace_text.specs.Text as spec;

use crate::bytes::put_comment;
use crate::numbers::{cycles, decimal, in_seconds};
use base::Memory;
use std::alloc::Global;
use yds_trace_document::Units;

/// The processor, and when time 0 is.
pub(crate) fn put_head(
    alloc: Global,
    processor: u64,
    units: Units,
    text: &mut Vec<u8>,
) -> Result<(), Memory>
    ensures { OnOk result (text.new.items ≡ text.old.items ++ spec.head_line processor (units_read units)) }
{
    let number = decimal(alloc, processor)?;
    let zero = in_seconds(alloc, units.zero)?;
    put_comment(
        &[
            b"CPU ".as_slice(),
            number.as_slice(),
            b" of a kernel trace; time 0 is ".as_slice(),
            zero.as_slice(),
            b" s".as_slice(),
        ],
        text,
    )
}

/// The units of time, of speed and of work.
pub(crate) fn put_units(alloc: Global, units: Units, text: &mut Vec<u8>) -> Result<(), Memory>
    ensures { OnOk result (text.new.items ≡ text.old.items ++ spec.units_line (units_read units)) }
{
    let microseconds = units.time / 1000;
    let time = decimal(alloc, microseconds)?;
    let speed = decimal(alloc, units.speed)?;
    let work = cycles(alloc, microseconds.saturating_mul(units.speed))?;
    put_comment(
        &[
            b"time unit ".as_slice(),
            time.as_slice(),
            b" us, speed unit ".as_slice(),
            speed.as_slice(),
            b" kHz, work unit ".as_slice(),
            work.as_slice(),
            b" cycles".as_slice(),
        ],
        text,
    )
}
