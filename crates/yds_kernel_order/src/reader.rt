//! A reader of the lines of a trace in order of time.
ghost use Rattle.std.specs.Prelude.{◌≡◌, [], true, false, None, IfOk, MatchOption};
ghost use Rattle.yds_kernel.specs.Views.{said_read};
ghost use Rattle.yds_kernel_text.specs.Advancing.{Counts};
ghost use Rattle.yds_kernel_order.specs.Ordering.{number_now, said_now};
ghost use Rattle.yds_kernel_order.specs.Advancing.{Advances};
ghost use Rattle.yds_kernel_order.specs.Taking.{Takes, Puts, GivesNext, ReadsOn, IsNext, needs_more};

use crate::limits::MAX_PASSED;
use crate::ring::Ring;
use crate::step::Step;
use std::alloc::{AllocError, Global};
use std::marker::Model;
use yds_kernel::{LineFault, Said};
use yds_kernel_text::{Advance, TraceReader};
use yds_port::Source;

/// Where the reading of the text stopped.
#[derive(Clone, Copy)]
enum Stop {
    AtEnd,
    AtFault { number: u64, fault: LineFault },
}

/// A reader of the lines of a trace in order of time. It gives one after another, and holds the one that it gave last.
#[derive(Drop)]
pub struct OrderedReader {
    reader: TraceReader,
    ring: Ring,
    // How many lines were taken, each without a fault.
    lines: u64,
    stop: Option<Stop>,
}

impl Model for OrderedReader {
    ghost use Rattle.yds_kernel_order.specs.Ordering.{Ordering};

    ghost Value = { Ordering };

    ghost use Rattle.yds_kernel_order.specs.Stopping.{stop_of};

    ghost view = { λ ordered. record {
      reader = ordered.reader;
      lines = ordered.lines;
      waiting = ordered.ring.waiting;
      given = ordered.ring.given;
      stop = stop_of ordered.stop;
    } };
}

impl OrderedReader {
    /// A reader that has given no line. It takes memory here, and later for names that are longer than those before them.
    pub fn new(alloc: Global) -> Result<OrderedReader, AllocError>
        ensures { IfOk result (λ ordering. ordering ≡ record {
          reader = record { left = []; text = []; ended = true; number = 0; taken = 0 };
          lines = 0;
          waiting = [];
          given = None;
          stop = None;
        }) }
    {
        Ok(OrderedReader {
            reader: TraceReader::new(alloc)?,
            ring: Ring::new(alloc)?,
            lines: 0,
            stop: None,
        })
    }

    /// The number in the text of the line that was given last, from 1. Where none was given, that of the last line that was taken.
    pub fn number(&self) -> u64
        ensures { result ≡ number_now self.now }
    {
        match self.ring.given() {
            Some(slot) => slot.number(),
            None => self.lines,
        }
    }

    /// What the line says that was given last. Where none was given, it says nothing.
    pub fn said(&self) -> Said<'_>
        ensures { said_read result ≡ said_now self.now }
    {
        match self.ring.given() {
            Some(slot) => slot.said(),
            None => Said::Nothing,
        }
    }

    /// What the next line in order of time says, where the reading has gone on as far as its place needs. None where there is no other.
    pub fn next(&self) -> Option<Said<'_>>
        ensures { MatchOption result (self.now.waiting ≡ []) (λ said. IsNext (said_read said) self.now) }
    {
        match self.ring.next() {
            Some(slot) => Some(slot.said()),
            None => None,
        }
    }

    /// Goes on to the next line in order of time, and reads on as far as its place needs.
    pub fn advance<S: Source>(&mut self, source: &mut S) -> Step
        ensures advances { Advances result self.old self.new (S.left source.old) (S.left source.new) (S.faults source.old) (S.faults source.new) }
        ensures counts { Counts (S.left source.old) (S.left source.new) self.old.reader.taken self.new.reader.taken }
    {
        match self.read_on(source) {
            Ok(()) => self.give(),
            Err(step) => step,
        }
    }

    /// Reads on as far as the place of the next line needs, and gives none.
    pub fn read_on<S: Source>(&mut self, source: &mut S) -> Result<(), Step>
        ensures reads { ReadsOn result self.old self.new (S.left source.old) (S.left source.new) (S.faults source.old) (S.faults source.new) }
        ensures counts { Counts (S.left source.old) (S.left source.new) self.old.reader.taken self.new.reader.taken }
    {
        while self.needs_more() {
            self.take(source)?;
        }
        Ok(())
    }

    /// Whether a line may still come that is put before the next one.
    fn needs_more(&self) -> bool
        ensures { result ≡ needs_more self.now }
    {
        self.stop.is_none() && self.ring.waiting() <= MAX_PASSED
    }

    /// Takes the next line of the text.
    fn take<S: Source>(&mut self, source: &mut S) -> Result<(), Step>
        requires { needs_more self.old ≡ true }
        ensures takes { Takes result self.old self.new (S.left source.old) (S.left source.new) (S.faults source.old) (S.faults source.new) }
        ensures counts { Counts (S.left source.old) (S.left source.new) self.old.reader.taken self.new.reader.taken }
    {
        match self.reader.advance(source) {
            Advance::Line => self.put(),
            Advance::End => {
                self.stop = Some(Stop::AtEnd);
                Ok(())
            }
            Advance::Failed => Err(Step::Failed),
            Advance::TooLong => Err(Step::TooLong),
        }
    }

    /// Puts the line that was read among those that wait, or stops at it.
    fn put(&mut self) -> Result<(), Step>
        requires { needs_more self.old ≡ true }
        ensures { Puts result self.old self.new }
    {
        let number = self.reader.number();
        match self.reader.said() {
            Ok(said) => {
                if self.ring.place(number, &said).is_err() {
                    return Err(Step::Memory);
                }
                self.lines = number;
            }
            Err(fault) => self.stop = Some(Stop::AtFault { number, fault }),
        }
        Ok(())
    }

    /// Gives the first line that waits, or tells where the reading stopped.
    fn give(&mut self) -> Step
        requires { needs_more self.old ≡ false }
        ensures { GivesNext result self.old self.new }
    {
        if self.ring.give() {
            return Step::Line;
        }
        match self.stop {
            Some(Stop::AtFault { number, fault }) => Step::Refused { number, fault },
            Some(Stop::AtEnd) | None => Step::End,
        }
    }
}
