//! Comments on what the trace lacks.
ghost use Rattle.std.specs.Prelude.{◌≡◌, ◌++◌, OnOk};
ghost use Rattle.yds_trace_text.specs.Text as spec;

use crate::bytes::put_comment;
use crate::numbers::{decimal, in_seconds};
use base::Memory;
use std::alloc::Global;
use yds_trace::{Pause, Silence, Tally};

/// A second, in nanoseconds.
const SECOND: u64 = 1_000_000_000;

/// That more may follow behind a part, in words.
fn up_to_here(in_parts: bool) -> &'static [u8]
    ensures { result.now ≡ spec.up_to_here in_parts }
{
    if in_parts { b", up to here" } else { b"" }
}

/// How many of these there are, if there are any.
fn put_lack(
    alloc: Global,
    in_parts: bool,
    what: &'static [u8],
    number: u64,
    text: &mut Vec<u8>,
) -> Result<(), Memory>
    ensures { OnOk result (text.new.items ≡ text.old.items ++ spec.lack_comment in_parts what.now number) }
{
    if number == 0 {
        return Ok(());
    }
    let digits = decimal(alloc, number)?;
    put_comment(
        &[
            what,
            up_to_here(in_parts),
            b": ".as_slice(),
            digits.as_slice(),
        ],
        text,
    )
}

/// How the comment on a long time without a line begins.
fn no_line_text(in_parts: bool) -> &'static [u8]
    ensures { result.now ≡ spec.no_line_text in_parts }
{
    if in_parts {
        b"up to here, no line for "
    } else {
        b"no line for "
    }
}

/// Whether a time without a line is longer than a second.
fn is_long(pause: Pause) -> bool
    ensures { result ≡ spec.is_long pause }
{
    pause.lasted > SECOND
}

/// The longest time without a line, if it is long.
fn put_pause(alloc: Global, in_parts: bool, pause: Pause, text: &mut Vec<u8>) -> Result<(), Memory>
    ensures { OnOk result (text.new.items ≡ text.old.items ++ spec.pause_comment in_parts pause) }
{
    if is_long(pause) {
        put_long(alloc, in_parts, pause, text)
    } else {
        Ok(())
    }
}

/// A long time without a line.
fn put_long(alloc: Global, in_parts: bool, pause: Pause, text: &mut Vec<u8>) -> Result<(), Memory>
    ensures { OnOk result (text.new.items ≡ text.old.items ++ spec.long_comment in_parts pause) }
{
    let lasted = in_seconds(alloc, pause.lasted)?;
    let since = in_seconds(alloc, pause.since)?;
    put_comment(
        &[
            no_line_text(in_parts),
            lasted.as_slice(),
            b" s, from ".as_slice(),
            since.as_slice(),
            b" s on: did the clock jump?".as_slice(),
        ],
        text,
    )
}

/// How the comment on a processor's silence begins.
fn no_line_of_text(in_parts: bool) -> &'static [u8]
    ensures { result.now ≡ spec.no_line_of_text in_parts }
{
    if in_parts {
        b"up to here, no line of CPU "
    } else {
        b"no line of CPU "
    }
}

/// Up to when it was silent, in words.
fn on_to_the_end(in_parts: bool) -> &'static [u8]
    ensures { result.now ≡ spec.on_to_the_end in_parts }
{
    if in_parts {
        b" s on"
    } else {
        b" s on to the end"
    }
}

/// Whether a silence is longer than a second.
fn is_silent(silence: Silence) -> bool
    ensures { result ≡ spec.is_silent silence }
{
    silence.lasted > SECOND
}

/// The longest silence of a processor, if it is long.
fn put_silence(
    alloc: Global,
    in_parts: bool,
    silence: Silence,
    text: &mut Vec<u8>,
) -> Result<(), Memory>
    ensures { OnOk result (text.new.items ≡ text.old.items ++ spec.silence_comment in_parts silence) }
{
    if is_silent(silence) {
        put_silent(alloc, in_parts, silence, text)
    } else {
        Ok(())
    }
}

/// A long silence.
fn put_silent(
    alloc: Global,
    in_parts: bool,
    silence: Silence,
    text: &mut Vec<u8>,
) -> Result<(), Memory>
    ensures { OnOk result (text.new.items ≡ text.old.items ++ spec.silent_comment in_parts silence) }
{
    let processor = decimal(alloc, silence.processor)?;
    let lasted = in_seconds(alloc, silence.lasted)?;
    let since = in_seconds(alloc, silence.since)?;
    put_comment(
        &[
            no_line_of_text(in_parts),
            processor.as_slice(),
            b" for ".as_slice(),
            lasted.as_slice(),
            b" s, from ".as_slice(),
            since.as_slice(),
            on_to_the_end(in_parts),
            b": what it did then isn't known".as_slice(),
        ],
        text,
    )
}

/// The comments on what the trace lacks.
pub(crate) fn put_tally(
    alloc: Global,
    in_parts: bool,
    tally: Tally,
    text: &mut Vec<u8>,
) -> Result<(), Memory>
    ensures { OnOk result (text.new.items ≡ text.old.items ++ spec.tally_comments in_parts tally) }
{
    put_lack(
        alloc,
        in_parts,
        b"places where events were lost",
        tally.losses,
        text,
    )?;
    put_lack(
        alloc,
        in_parts,
        b"switches of other threads that are missing",
        tally.missing,
        text,
    )?;
    put_lack(
        alloc,
        in_parts,
        b"lines that programs wrote into the trace",
        tally.markers,
        text,
    )?;
    put_pause(alloc, in_parts, tally.pause, text)?;
    put_silence(alloc, in_parts, tally.silence, text)
}
