//! A reader of a trace.
ghost use Rattle.std.specs.Prelude.{◌≡◌, ◌+◌, ◌-◌, ◌^◌, ◌<◌, ◌≤◌, [], length, take, drop, vec_len, nat_lt, true, IfOk};
ghost use Rattle.memchr.specs.Find.{IsFirstByte, Nowhere, Passes, is_byte};
ghost use Rattle.base.specs.Lines.{without_return};
ghost use Rattle.yds_kernel.specs.declared.limits.TheConstants.{MAX_LINE};
ghost use Rattle.yds_kernel.specs.Views.{Says};
ghost use Rattle.yds_kernel_text.specs.declared.limits.TheConstants.{ROOM};
ghost use Rattle.yds_kernel_text.specs.Reading.{said_by};
ghost use Rattle.yds_kernel_text.specs.Advancing.{Advances, Counts};
ghost use Rattle.yds_kernel_text.specs.Filling.{Fills, ReadsOn, Skips, TakesLine, TakesRest, TakesFront};

use crate::advance::Advance;
use crate::limits::ROOM;
use memchr::memchr;
use std::alloc::{AllocError, Global};
use std::marker::Model;
use yds_kernel::{LineFault, MAX_LINE, Said, last_line, line};
use yds_port::{Source, Taken};

/// The most bytes that are counted before another read.
const MOST_COUNTED: u64 = u64::MAX - ROOM as u64;

/// A reader of a trace. It gives one line after another, and holds the one that it gave last.
#[derive(Drop)]
pub struct TraceReader {
    buffer: Vec<u8>,
    // The line that was given last, and the bytes behind it that no line has yet.
    text_start: usize,
    text_end: usize,
    start: usize,
    filled: usize,
    ended: bool,
    number: u64,
    taken: u64,
}

impl Model for TraceReader {
    ghost use Rattle.std.specs.Prelude.{◌≡◌, ◌+◌, ◌-◌, ◌≤◌, take, drop, vec_len};
    ghost use Rattle.yds_kernel_text.specs.declared.limits.TheConstants.{ROOM};
    ghost use Rattle.yds_kernel_text.specs.Reading.{Reading};

    ghost Value = { Reading };

    ghost view = { λ reader. record {
      left = take (reader.filled - reader.start) (drop reader.start reader.buffer.items);
      text = take (reader.text_end - reader.text_start) (drop reader.text_start reader.buffer.items);
      ended = reader.ended;
      number = reader.number;
      taken = reader.taken;
    } };

    // Each line that was given has a byte that was taken.
    ghost invariant = { λ reader. (vec_len reader.buffer ≡ ROOM)
        × (reader.text_start ≤ reader.text_end) × (reader.text_end ≤ ROOM)
        × (reader.start ≤ reader.filled) × (reader.filled ≤ ROOM)
        × (reader.number + (reader.filled - reader.start) ≤ reader.taken) };
}

impl TraceReader {
    /// A reader that has given no line. It takes memory here and never again.
    pub fn new(alloc: Global) -> Result<TraceReader, AllocError>
        ensures { IfOk result (λ reader. reader ≡ record { left = []; text = []; ended = true; number = 0; taken = 0 }) }
    {
        Ok(TraceReader {
            buffer: vec![in alloc; 0; ROOM]?,
            text_start: 0,
            text_end: 0,
            start: 0,
            filled: 0,
            ended: true,
            number: 0,
            taken: 0,
        })
    }

    /// The number of the line that was given last, from 1.
    pub fn number(&self) -> u64
        ensures { result ≡ self.now.number }
    {
        self.number
    }

    /// What the line says that was given last, or why it is refused.
    pub fn said(&self) -> Result<Said<'_>, LineFault>
        ensures { Says result (said_by self.now) }
    {
        let text = &self.buffer[self.text_start..self.text_end];
        if self.ended {
            line(text)
        } else {
            last_line(text)
        }
    }

    /// Goes on to the next line, and reads on where that isn't whole in the buffer.
    pub fn advance<S: Source>(&mut self, source: &mut S) -> Advance
        ensures advances { Advances result self.old self.new (S.left source.old) (S.left source.new) (S.faults source.old) (S.faults source.new) }
        ensures counts { Counts (S.left source.old) (S.left source.new) self.old.taken self.new.taken }
    {
        while self.can_count() {
            if let Some(len) = self.feed() {
                self.take_line(len);
                return Advance::Line;
            }
            if self.left_len() > MAX_LINE + 1 {
                return self.take_long(source);
            }
            match self.fill(source) {
                Taken::Bytes(_) => {}
                Taken::End if self.left_len() == 0 => return Advance::End,
                Taken::End => {
                    self.take_rest();
                    return Advance::Line;
                }
                Taken::Failed => return Advance::Failed,
            }
        }
        Advance::TooLong
    }

    /// Whether the bytes of another read can be counted.
    fn can_count(&self) -> bool
        ensures { result ≡ nat_lt (self.now.taken + ROOM) (2 ^ 64) }
    {
        self.taken <= MOST_COUNTED
    }

    /// How many bytes no line has yet.
    fn left_len(&self) -> usize
        ensures { result ≡ length self.now.left }
    {
        self.filled - self.start
    }

    /// How many bytes stand before the next line feed.
    fn feed(&self) -> Option<usize>
        ensures { IsFirstByte (is_byte 10) self.now.left result }
    {
        memchr(b'\n', &self.buffer[self.start..self.filled])
    }

    /// Gives the bytes before the line feed as the next line.
    fn take_line(&mut self, len: usize)
        requires { len < length self.old.left }
        ensures { TakesLine len self.old self.new }
    {
        let text_len = trimmed_len(&self.buffer[self.start..self.start + len]);
        self.text_start = self.start;
        self.text_end = self.start + text_len;
        self.start += len + 1;
        self.ended = true;
        self.number += 1;
    }

    /// Gives all that is left as a last line that no line feed ends.
    fn take_rest(&mut self)
        requires { 0 < length self.old.left }
        ensures { TakesRest self.old self.new }
    {
        let text_len = trimmed_len(&self.buffer[self.start..self.filled]);
        self.text_start = self.start;
        self.text_end = self.start + text_len;
        self.start = self.filled;
        self.ended = false;
        self.number += 1;
    }

    /// Reads once behind the bytes that no line has yet. The line that was given last is given up for it.
    fn fill<S: Source>(&mut self, source: &mut S) -> Taken
        requires room { length self.old.left < ROOM }
        requires counted { self.old.taken + ROOM < 2 ^ 64 }
        ensures { Fills result self.old self.new (S.left source.old) (S.left source.new) (S.faults source.old) (S.faults source.new) }
    {
        move_down(&mut self.buffer, self.start, self.filled);
        self.filled -= self.start;
        self.start = 0;
        self.text_start = 0;
        self.text_end = 0;
        let taken = source.read(&mut self.buffer[self.filled..]);
        if let Taken::Bytes(count) = taken {
            self.filled += count;
            self.taken += count as u64;
        }
        taken
    }

    /// Gives a line that is too long by its front, and passes over the rest of it.
    fn take_long<S: Source>(&mut self, source: &mut S) -> Advance
        requires long { MAX_LINE + 1 < length self.old.left }
        requires no_feed { Nowhere (Passes (is_byte 10) self.old.left) 0 (length self.old.left) }
        ensures advances { Advances result self.old self.new (S.left source.old) (S.left source.new) (S.faults source.old) (S.faults source.new) }
        ensures counts { Counts (S.left source.old) (S.left source.new) self.old.taken self.new.taken }
    {
        self.take_front();
        while self.can_count() {
            match self.read_on(source) {
                Taken::Bytes(_) => {
                    if let Some(len) = self.feed() {
                        self.skip(len + 1);
                        return Advance::Line;
                    }
                }
                Taken::End => return Advance::Line,
                Taken::Failed => return Advance::Failed,
            }
        }
        Advance::TooLong
    }

    /// Gives so many bytes as the next line that a line takes at most, and one more.
    fn take_front(&mut self)
        requires { MAX_LINE + 1 < length self.old.left }
        ensures { TakesFront self.old self.new }
    {
        self.text_start = self.start;
        self.text_end = self.start + MAX_LINE + 1;
        self.start = self.filled;
        self.ended = true;
        self.number += 1;
    }

    /// Reads once behind the line that was given last, in the place of the bytes that no line has yet.
    fn read_on<S: Source>(&mut self, source: &mut S) -> Taken
        requires room { length self.old.text < ROOM }
        requires counted { self.old.taken + ROOM < 2 ^ 64 }
        ensures { ReadsOn result self.old self.new (S.left source.old) (S.left source.new) (S.faults source.old) (S.faults source.new) }
    {
        move_down(&mut self.buffer, self.text_start, self.text_end);
        self.text_end -= self.text_start;
        self.text_start = 0;
        self.start = self.text_end;
        self.filled = self.text_end;
        let taken = source.read(&mut self.buffer[self.start..]);
        if let Taken::Bytes(count) = taken {
            self.filled += count;
            self.taken += count as u64;
        }
        taken
    }

    /// Passes over so many of the bytes that no line has yet.
    fn skip(&mut self, count: usize)
        requires { count ≤ length self.old.left }
        ensures { Skips count self.old self.new }
    {
        self.start += count;
    }
}

/// Moves the bytes of this range to the front of the buffer.
fn move_down(buffer: &mut Vec<u8>, start: usize, end: usize)
    requires ordered { start ≤ end }
    requires within { end ≤ vec_len buffer.old }
    ensures moved { take (end - start) buffer.new.items ≡ take (end - start) (drop start buffer.old.items) }
    ensures len { vec_len buffer.new ≡ vec_len buffer.old }
{
    buffer.copy_within(start..end, 0);
}

/// How long the text is without a carriage return at its end.
fn trimmed_len(text: &[u8]) -> usize
    ensures value { take result text.now ≡ without_return text.now }
    ensures within { result ≤ length text.now }
{
    match text.split_last() {
        Some((last, front)) if *last == b'\r' => front.len(),
        Some(_) | None => text.len(),
    }
}
