//! Files, read one behind the other.
ghost use Rattle.std.specs.Prelude.{◌≡◌, ◌≢◌, ◌<◌, ◌-◌, ℕ, List, [], Option, Some, map, length, IfSome, slice_index};
ghost use Rattle.std.specs.Io.KnownBytes.{IsAtEnd};
ghost use Rattle.yds_port.specs.Count.{Rose};
ghost use Rattle.yds_port.specs.Source.{Reads};
ghost use Rattle.yds_trace_files.specs.Unread.{unread_read, OfFile};
ghost use Rattle.yds_trace_files.specs.Joined.{failed_of, all_of, left_of, all_left, opened_of, ahead_of, last_of, faults_of, unread_of, ReadsOpened, StepsOn};

use crate::unread::{FileFault, Input, Unread};
use yds_port::{Source, Taken};

/// What opens files by their names.
pub trait Opens {
    /// A file that is open.
    type Opened: Source + Drop;

    // What the file of a name holds, where that is told.
    ghost holds: { Self → List ℕ → Option (List ℕ) };

    /// Opens the file of this name, at its begin. `None` where it can't be opened.
    fn open(&self, name: &str) -> Option<Self::Opened>
        ensures { IfSome result (λ opened. Self.Opened.left opened ≡ holds self.now name.now) };
}

/// Files, each opened where the one before it is read to its end. One is open at a time.
#[derive(Drop)]
pub struct Files<'a, O, S> {
    opens: O,
    /// How many files there are.
    count: usize,
    /// The names of those that aren't opened yet.
    ahead: &'a [&'a str],
    /// The name of the one that is open.
    name: &'a str,
    opened: Option<S>,
    /// The last byte that was read of it, or a line feed.
    last: u8,
    faults: u64,
    /// Why the read failed that failed last.
    fault: FileFault,
}

/// What became of the step to the next file.
#[derive(Clone, Copy, Debug, PartialEq, Eq)]
pub(crate) enum Step {
    /// It is open.
    Opened,
    /// There is none.
    None,
    /// It can't be opened, or the file before it ends within a line.
    Failed,
}

impl<'a, S: Source + Drop, O: Opens<Opened = S>> Files<'a, O, S> {
    /// The files of these names.
    pub fn new(opens: O, names: &'a [&'a str]) -> Files<'a, O, S>
        ensures left { ⟦<Files<'a, O, S> as Source>⟧.left result ≡ all_of (O.holds opens) (map (λ name. name.now) names.now) }
        ensures faults { ⟦<Files<'a, O, S> as Source>⟧.faults result ≡ 0 }
        ensures ahead { ahead_of result ≡ map (λ name. name.now) names.now }
        ensures last { last_of result ≡ 10 }
    {
        Files {
            opens,
            count: names.len(),
            ahead: names,
            name: "",
            opened: None,
            last: b'\n',
            faults: 0,
            fault: FileFault::NotRead,
        }
    }

    /// Reads the file that is open. Where none is, that is as at its end.
    fn read_opened(&mut self, into: &mut [u8]) -> Taken
        requires { 0 < length into.old }
        ensures reads { ReadsOpened result into.new (left_of S.left (opened_of self.new)) (all_left O.holds S.left self.old)
            (all_left O.holds S.left self.new) (faults_of self.old) (faults_of self.new) }
        ensures ahead { ahead_of self.new ≡ ahead_of self.old }
        ensures ends { (n : ℕ) → result ≡ Taken.Bytes n → last_of self.new ≡ slice_index into.new (n - 1) }
        ensures last { result ≡ Taken.End → last_of self.new ≡ last_of self.old }
    {
        let Some(opened) = &mut self.opened else {
            return Taken::End;
        };
        let taken = opened.read(into);
        match taken {
            Taken::Bytes(count) => self.last = into[count - 1],
            Taken::End => {}
            Taken::Failed => self.fail(FileFault::NotRead),
        }
        taken
    }

    /// Opens the next file, where the one before it is at its end.
    fn open_next(&mut self) -> Step
        requires { IsAtEnd (left_of S.left (opened_of self.old)) }
        ensures steps { StepsOn result (all_left O.holds S.left self.old) (all_left O.holds S.left self.new) (faults_of self.old) (faults_of self.new) }
        ensures opened { result ≡ Step.Opened → length (ahead_of self.new) < length (ahead_of self.old) }
        ensures none { result ≡ Step.None → ahead_of self.old ≡ [] }
        ensures whole { result ≡ Step.Opened → (last_of self.old ≡ 10) × (last_of self.new ≡ 10) }
        ensures stays { result ≢ Step.Opened → (ahead_of self.new ≡ ahead_of self.old) × (opened_of self.new ≡ opened_of self.old) }
    {
        let ahead = self.ahead;
        let [name, others @ ..] = ahead else {
            return Step::None;
        };
        if self.last != b'\n' {
            self.fail(FileFault::NoLineFeed);
            return Step::Failed;
        }
        match self.opens.open(*name) {
            Some(opened) => {
                self.opened = Some(opened);
                self.ahead = others;
                self.name = *name;
                Step::Opened
            }
            None => {
                self.fail(FileFault::NotOpened);
                Step::Failed
            }
        }
    }

    /// That the first of those ahead can't be opened.
    fn unopened(&self) -> Unread<'a>
        ensures { unread_read result ≡ failed_of FileFault.NotOpened self.now.count self.now.name.now (ahead_of self.now) }
    {
        match self.ahead.split_first() {
            Some((name, others)) => Unread::File {
                number: self.count.saturating_sub(others.len()),
                name,
                fault: FileFault::NotOpened,
            },
            None => Unread::Input,
        }
    }

    /// That the one that is open can't be read.
    fn of_opened(&self, fault: FileFault) -> Unread<'a>
        ensures { unread_read result ≡ OfFile (self.now.count - length (ahead_of self.now)) self.now.name.now fault }
    {
        Unread::File {
            number: self.count.saturating_sub(self.ahead.len()),
            name: self.name,
            fault,
        }
    }

    /// Counts a fault.
    fn fail(&mut self, fault: FileFault)
        ensures counted { Rose (faults_of self.old) (faults_of self.new) }
        ensures stays { self.new ≡ record self.old { faults = self.new.faults; fault = fault } }
    {
        self.faults = self.faults.saturating_add(1);
        self.fault = fault;
    }
}

impl<S: Source + Drop, O: Opens<Opened = S>> Source for Files<'_, O, S> {
    ghost left = { all_left O.holds S.left };

    ghost faults = { faults_of };

    fn read(&mut self, into: &mut [u8]) -> Taken
        requires { 0 < length into.old }
        ensures reads { Reads result into.new (all_left O.holds S.left self.old) (all_left O.holds S.left self.new) (faults_of self.old) (faults_of self.new) }

        // The last byte is kept, and behind one that is no line feed no other file is opened.
        ensures ends { (n : ℕ) → result ≡ Taken.Bytes n → last_of self.new ≡ slice_index into.new (n - 1) }
        ensures whole { last_of self.old ≢ 10 → ahead_of self.new ≡ ahead_of self.old }
    {
        let mut taken = self.read_opened(into);
        while taken == Taken::End {
            match self.open_next() {
                Step::Opened => taken = self.read_opened(into),
                Step::None => return Taken::End,
                Step::Failed => return Taken::Failed,
            }
        }
        taken
    }
}

impl<O, S: Source + Drop> Input for Files<'_, O, S>
where
    O: Opens<Opened = S>,
{
    ghost unread = { unread_of };

    fn unread(&self) -> Unread<'_> {
        match self.fault {
            FileFault::NotOpened => self.unopened(),
            FileFault::NotRead if self.name == "-" => Unread::Input,
            fault => self.of_opened(fault),
        }
    }
}
