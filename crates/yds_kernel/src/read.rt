//! What a line of a trace says.
ghost use Rattle.std.specs.Prelude.{◌≡◌, ◌<◌, ◌≤◌, Option, length};
ghost use Rattle.std.specs.List.{prefix_len};
ghost use Rattle.yds_kernel.specs.Event as spec_event;
ghost use Rattle.yds_kernel.specs.Line.{is_hash, skip_hashes};
ghost use Rattle.yds_kernel.specs.Line as spec;
ghost use Rattle.yds_kernel.specs.Views.{Knows, Reads, Says, stamp_read, happening_read};

use crate::event::{Event, Happening, Said};
use crate::fault::{LineFault, Reason};
use crate::find::first_stamp;
use crate::form::{speed_in, switch_in, wake_up_in};
use crate::kind::Kind;
use crate::limits::{MAX_LINE, MAX_NUMBER};
use crate::loss::Since;
use crate::parts::{after, digit_len, digits, number, skip_blanks};
use crate::stamp::Stamp;

/// What a line says that a line feed ends, given without that and without a carriage return before it.
#[tactic(auto, unfolding(crate::specs::Line::line_of))]
pub fn line(bytes: &[u8]) -> Result<Said<'_>, LineFault>
    ensures { Says result (spec.line_of bytes.now) }
{
    if bytes.len() <= MAX_LINE {
        short_line(bytes)
    } else {
        long_line(bytes)
    }
}

/// What the last line of a trace says where no line feed ends it: it may be cut short.
#[tactic(auto, unfolding(crate::specs::Line::last_line_of))]
pub fn last_line(bytes: &[u8]) -> Result<Said<'_>, LineFault>
    ensures { Says result (spec.last_line_of bytes.now) }
{
    if is_cut(bytes) {
        Err(LineFault {
            column: bytes.len() + 1,
            reason: Reason::Cut,
        })
    } else {
        line(bytes)
    }
}

#[tactic(auto, unfolding(crate::specs::Line::short_line))]
fn short_line(bytes: &[u8]) -> Result<Said<'_>, LineFault>
    requires { length bytes.now ≤ MAX_LINE }
    ensures { Says result (spec.short_line bytes.now) }
{
    match first_stamp(bytes) {
        Some(stamp) => event(bytes.len(), stamp),
        None => loss(bytes),
    }
}

/// A line that is too long is no event. Where it begins as one, it is refused.
#[tactic(auto, unfolding(crate::specs::Line::long_line))]
fn long_line(bytes: &[u8]) -> Result<Said<'_>, LineFault>
    requires { MAX_LINE < length bytes.now }
    ensures { Says result (spec.long_line bytes.now) }
{
    match first_stamp(&bytes[..MAX_LINE]) {
        Some(stamp) if Kind::of(stamp.word).matters() => Err(LineFault {
            column: MAX_LINE + 1,
            reason: Reason::Long,
        }),
        Some(_) | None => Ok(Said::Nothing),
    }
}

/// The event with this stamp, on a line of so many bytes.
#[tactic(auto, unfolding(crate::specs::Line::event_of))]
fn event(len: usize, stamp: Stamp<'_>) -> Result<Said<'_>, LineFault>
    requires { len ≤ MAX_LINE }
    ensures { Says result (spec.event_of len (stamp_read stamp.entry)) }
{
    let column = column_at(len, stamp.left);
    if stamp.processor > MAX_NUMBER {
        let reason = Reason::Processor;
        return Err(LineFault { column, reason });
    }
    let Some(time) = stamp.time() else {
        let reason = Reason::Time;
        return Err(LineFault { column, reason });
    };
    let text = skip_blanks(stamp.text);
    match happening(Kind::of(stamp.word), text) {
        Ok(happening) => Ok(Said::Event(Event {
            processor: stamp.processor,
            time,
            happening,
        })),
        Err(reason) => Err(LineFault {
            column: column_at(len, text.len()),
            reason,
        }),
    }
}

/// The column at which so many bytes are left of a line of `len` bytes.
fn column_at(len: usize, left: usize) -> usize
    requires { len ≤ MAX_LINE }
    ensures { result ≡ spec.column_at len left }
{
    (len + 1).saturating_sub(left)
}

/// What an event of this kind with this text is.
fn happening(kind: Kind, text: &[u8]) -> Result<Happening<'_>, Reason>
    ensures { Knows result (spec.happening_of kind text.now) }
{
    match kind {
        Kind::Switch => known(Reason::UnknownSwitch, switch_in(text)),
        Kind::Waking => known(Reason::UnknownWakeUp, wake_up_in(true, text)),
        Kind::Woken => known(Reason::UnknownWakeUp, wake_up_in(false, text)),
        Kind::Speed => known(Reason::UnknownSpeed, speed_in(text)),
        Kind::Loss => Ok(Happening::Loss),
        Kind::Marker => Ok(Happening::Marker),
        Kind::Other => Ok(Happening::Other),
    }
}

/// What was read, or the reason for which the text is refused.
fn known<'a>(reason: Reason, read: Option<Happening<'a>>) -> Result<Happening<'a>, Reason>
    ensures { (defined : Option spec_event.Happening) → Reads happening_read read.entry defined → Knows result (spec.known reason defined) }
{
    match read {
        Some(happening) => Ok(happening),
        None => Err(reason),
    }
}

/// Lost events, on a line without a stamp.
#[tactic(auto, unfolding(crate::specs::Line::loss_of))]
fn loss(bytes: &[u8]) -> Result<Said<'_>, LineFault>
    ensures { Says result (spec.loss_of bytes.now) }
{
    if let Some(processor) = dropped(bytes) {
        return lost_on(processor, Since::ItsLastLine);
    }
    match started(bytes) {
        Some(processor) => lost_on(processor, Since::TheBegin),
        None => Ok(Said::Nothing),
    }
}

fn lost_on<'a>(processor: u64, since: Since) -> Result<Said<'a>, LineFault>
    ensures { Says result (spec.lost_on processor since) }
{
    if processor <= MAX_NUMBER {
        Ok(Said::Lost { processor, since })
    } else {
        Err(LineFault {
            column: 1,
            reason: Reason::Processor,
        })
    }
}

/// `CPU:2 [LOST 12 EVENTS]` of the kernel, or `CPU:2 [12 EVENTS DROPPED]` of trace-cmd.
#[tactic(auto, unfolding(crate::specs::Line::dropped))]
fn dropped(bytes: &[u8]) -> Option<u64>
    ensures { Reads (λ processor. processor) result (spec.dropped bytes.now) }
{
    let rest = after(skip_blanks(bytes), b"CPU:")?;
    let (processor, rest) = number(rest)?;
    let rest = after(rest, b" [")?;
    let _ = loss_told(rest)?;
    Some(processor)
}

#[tactic(auto, unfolding(crate::specs::Line::tells_loss))]
fn loss_told(bytes: &[u8]) -> Option<&[u8]>
    ensures { Reads (λ rest. rest.now) result (spec.tells_loss bytes.now) }
{
    let rest = after(after_number(after_lost(bytes)), b"EVENTS")?;
    match after(rest, b"]") {
        Some(rest) => Some(rest),
        None => after(rest, b" DROPPED]"),
    }
}

#[tactic(auto, unfolding(crate::specs::Line::after_lost))]
fn after_lost(bytes: &[u8]) -> &[u8]
    ensures { result.now ≡ spec.after_lost bytes.now }
{
    match after(bytes, b"LOST ") {
        Some(rest) => rest,
        None => bytes,
    }
}

#[tactic(auto, unfolding(crate::specs::Line::after_number))]
fn after_number(bytes: &[u8]) -> &[u8]
    ensures { result.now ≡ spec.after_number bytes.now }
{
    match digits(bytes) {
        Some((_, rest)) => match after(rest, b" ") {
            Some(rest) => rest,
            None => rest,
        },
        None => bytes,
    }
}

/// `##### CPU 2 buffer started ####` of the kernel.
#[tactic(auto, unfolding(crate::specs::Line::started))]
fn started(bytes: &[u8]) -> Option<u64>
    ensures { Reads (λ processor. processor) result (spec.started bytes.now) }
{
    let rest = after(bytes, b"#")?;
    let rest = after(skip_hashes(rest), b" CPU ")?;
    let (processor, rest) = number(rest)?;
    let _ = after(rest, b" buffer started #")?;
    Some(processor)
}

/// What comes after the `#` at the front, if there are any.
fn skip_hashes(bytes: &[u8]) -> &[u8]
    ensures { result.now ≡ skip_hashes bytes.now }
{
    &bytes[hash_len(bytes)..]
}

/// How many `#` stand at the front.
fn hash_len(bytes: &[u8]) -> usize
    ensures value { result ≡ prefix_len is_hash bytes.now }
    ensures within { result ≤ length bytes.now }
{
    for (index, &byte) in bytes.iter().enumerate() {
        if byte != b'#' {
            return index;
        }
    }
    bytes.len()
}

/// Whether the line is cut short, within the limit of a line.
fn is_cut(bytes: &[u8]) -> bool
    ensures { result ≡ spec.is_cut bytes.now }
{
    bytes.len() <= MAX_LINE && ends_in_stamp(bytes)
}

/// Whether the line ends within its stamp: a processor stands in it, and no whole stamp with an event's name.
#[tactic(auto, unfolding(crate::specs::Line::ends_in_stamp))]
fn ends_in_stamp(bytes: &[u8]) -> bool
    ensures { result ≡ spec.ends_in_stamp bytes.now }
{
    match first_stamp(bytes) {
        Some(stamp) => is_half_name(stamp),
        None => opens_somewhere(bytes),
    }
}

fn is_half_name(stamp: Stamp<'_>) -> bool
    ensures { result ≡ spec.is_half_name (stamp_read stamp.entry) }
{
    stamp.text.is_empty()
        && (stamp.word == b"sched:".as_slice() || stamp.word == b"power:".as_slice())
}

fn opens_somewhere(bytes: &[u8]) -> bool
    ensures { result ≡ spec.opens_somewhere bytes.now }
{
    for place in 0..bytes.len() {
        if opens(&bytes[place..]) {
            return true;
        }
    }
    false
}

/// `[` and digits, with a bracket or nothing behind them.
#[tactic(auto, unfolding(crate::specs::Line::opens))]
fn opens(bytes: &[u8]) -> bool
    ensures { result ≡ spec.opens bytes.now }
{
    match after(bytes, b"[") {
        Some(inside) => closes(&inside[digit_len(inside)..]),
        None => false,
    }
}

fn closes(bytes: &[u8]) -> bool
    ensures { result ≡ spec.closes bytes.now }
{
    match bytes {
        [] => true,
        [byte, ..] => *byte == b']',
    }
}
