//! Where a line's stamp stands.
ghost use Rattle.std.specs.Prelude.{◌≡◌, ◌≤◌, ◌<◌, ◌==◌, ◌-◌, ◌*◌, ◌^◌, Some, length, take, drop, IfSome};
ghost use Rattle.std.specs.List.{list_all};
ghost use Rattle.yds_kernel.specs.Stamp as spec;
ghost use Rattle.yds_kernel.specs.Stamp.{is_word, is_word_byte, last_byte};
ghost use Rattle.yds_kernel.specs.Views.{Reads, stamp_read};

use crate::parts::{after, after_blanks, begins, field, first_place, number, spelled};
use crate::stamp::Stamp;

/// The stamp at the first place of the line at which one stands.
pub(crate) fn first_stamp(line: &[u8]) -> Option<Stamp<'_>>
    ensures { Reads stamp_read result (spec.first_stamp line.now) }
{
    let mut rest = line;
    while let Some(place) = first_place(b'[', rest) {
        if let Some(stamp) = stamp_at(&rest[place..]) {
            return Some(stamp);
        }
        rest = &rest[place + 1..];
    }
    None
}

/// `[CPU]`, perhaps a field of flags, the time and the event's name, at the front of these bytes.
#[inline(always)]
#[tactic(auto, unfolding(crate::specs::Stamp::stamp_at))]
fn stamp_at(bytes: &[u8]) -> Option<Stamp<'_>>
    ensures { Reads stamp_read result (spec.stamp_at bytes.now) }
{
    let inside = after(bytes, b"[")?;
    let (processor, rest) = number(inside)?;
    let behind = after(rest, b"]")?;
    let here = after_blanks(behind)?;
    match timed(processor, here) {
        Some(stamp) => Some(stamp),
        None => flagged(processor, here),
    }
}

/// A field of flags, and a time and a name behind it.
#[inline(always)]
#[tactic(auto, unfolding(crate::specs::Stamp::flagged))]
fn flagged(processor: u64, bytes: &[u8]) -> Option<Stamp<'_>>
    ensures { Reads stamp_read result (spec.flagged processor bytes.now) }
{
    let (_, rest) = field(bytes)?;
    let here = after_blanks(rest)?;
    timed(processor, here)
}

/// `SECONDS.FRACTION:` and the event's name.
#[inline(always)]
#[tactic(auto, unfolding(crate::specs::Stamp::timed))]
fn timed(processor: u64, bytes: &[u8]) -> Option<Stamp<'_>>
    ensures { Reads stamp_read result (spec.timed processor bytes.now) }
{
    let (seconds, rest) = number(bytes)?;
    let behind_point = after(rest, b".")?;
    let (parts, fraction, rest) = spelled(behind_point)?;
    let behind_colon = after(rest, b":")?;
    let here = after_blanks(behind_colon)?;
    let (word, text) = word_at(here)?;
    Some(Stamp {
        processor,
        left: bytes.len(),
        seconds,
        fraction,
        parts,
        word,
        text,
    })
}

/// The name of an event at the front.
#[inline(always)]
#[tactic(auto, unfolding(crate::specs::Stamp::word_at))]
fn word_at(bytes: &[u8]) -> Option<(&[u8], &[u8])>
    ensures { Reads (λ x. (x.0.now, x.1.now)) result (spec.word_at bytes.now) }
{
    if let Some(len) = common_len(bytes) {
        return Some(bytes.split_at(len));
    }
    let (word, rest) = field(bytes)?;
    if is_word(word) {
        Some((word, rest))
    } else {
        None
    }
}

/// How long the event's name at the front is, where it is one of the commonest.
#[inline(always)]
fn common_len(bytes: &[u8]) -> Option<usize>
    ensures { IfSome result (λ len. (len ≤ length bytes.now) × (spec.word_at bytes.now ≡ Some (take len bytes.now, drop len bytes.now))) }
{
    if begins(bytes, b"sched_switch: ") {
        return Some(13);
    }
    if begins(bytes, b"sched_waking: ") {
        return Some(13);
    }
    if begins(bytes, b"sched_wakeup: ") {
        return Some(13);
    }
    None
}

/// Whether it is the name of an event, which ends with a colon, or what perf writes of lost events.
fn is_word(text: &[u8]) -> bool
    ensures { result ≡ is_word text.now }
{
    ends_with_colon(text) && has_word_bytes(text) || text == b"PERF_RECORD_LOST".as_slice()
}

fn has_word_bytes(text: &[u8]) -> bool
    ensures { result ≡ list_all is_word_byte text.now }
{
    text.iter().all(|byte| is_word_byte(*byte))
}

fn ends_with_colon(text: &[u8]) -> bool
    ensures { result ≡ (last_byte text.now == 58) }
{
    !text.is_empty() && text[text.len() - 1] == b':'
}

/// Letters, digits, `_` and `:`.
fn is_word_byte(byte: u8) -> bool
    ensures { result ≡ is_word_byte byte }
{
    byte.is_ascii_alphabetic() || byte.is_ascii_digit() || byte == b'_' || byte == b':'
}

impl Stamp<'_> {
    /// The time in nanoseconds, where its fraction has at most nine digits and it takes at most 64 bits.
    pub(crate) fn time(&self) -> Option<u64>
        ensures { result ≡ spec.time_of (stamp_read self.now) }
    {
        let len = self.fraction.len();
        if len > 9 {
            return None;
        }
        let whole = self.seconds.checked_mul(1_000_000_000)?;
        whole.checked_add(nanoseconds(self.parts, len))
    }
}

/// The number that so many digits of a fraction spell, as nanoseconds.
#[inline(always)]
fn nanoseconds(parts: u64, len: usize) -> u64
    requires few { len ≤ 9 }
    requires below { parts < 10 ^ len }
    ensures { result ≡ parts * 10 ^ (9 - len) }
{
    match len {
        6 => parts * 1_000,
        9 => parts,
        _ => parts * 10_u64.pow(9 - len as u32),
    }
}
