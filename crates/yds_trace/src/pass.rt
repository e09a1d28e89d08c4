//! One pass over the lines of a trace.
ghost use Rattle.std.specs.Prelude.{◌≡◌, ℕ, ◌≤◌, List, [], ◌∷◌, None, IfOk, OnOk, IfErr};
ghost use Rattle.yds_kernel.specs.Event as trace;
ghost use Rattle.yds_kernel.specs.Views.{event_read, said_read};
ghost use Rattle.yds_trace.specs.Asked as asking;
ghost use Rattle.yds_trace.specs.Ended.{IsEnded};
ghost use Rattle.yds_trace.specs.Faults.{said_fault, whole_fault};
ghost use Rattle.yds_trace.specs.Kept.{IsAt, IsAtBehind, IsEnough, IsStanding, told_to_forget};
ghost use Rattle.yds_trace.specs.Parts.{part_fault};
ghost use Rattle.yds_trace.specs.Passing.{IsRefusedFor, fault_in};
ghost use Rattle.yds_trace.specs.Shown.{IsShown};
ghost use Rattle.yds_trace.specs.Views.{asked_read};

use crate::asked::Asked;
use crate::check::{check_event, check_parts, check_place, check_processor, check_whole};
use crate::counted::{Counted, end_others, forget_others, show_others};
use crate::cut::Cut;
use crate::ended::{Ended, close_each};
use crate::fault::Cause;
use crate::find::{find_first, find_second};
use crate::followed::{count_all_stretches, count_jobs, forget_each};
use crate::kept::Kept;
use crate::lines::Lines;
use crate::refused::Refused;
use crate::share::share_all;
use crate::shown::{Shown, show_each};
use crate::within::last_asked;
use base::Memory;
use std::alloc::Global;
use yds_kernel::{Event, Said, Since};

/// What is known of the tasks behind some lines of a trace.
#[derive(Debug, Drop)]
pub struct Pass {
    asked: Asked,
    lines: Lines,
    counted: Counted,
}

impl Pass {
    /// Before the first line.
    pub fn new(alloc: Global, asked: Asked) -> Result<Pass, Memory>
        ensures { IfOk result (λ pass. IsAt (asked_read asked) [] pass) }
    {
        let lines = Lines::new(alloc, &asked)?;
        let counted = Counted::new(alloc, &asked)?;
        Ok(Pass {
            asked,
            lines,
            counted,
        })
    }

    /// Takes what the next line says. After an answer other than `Ok` nothing is promised of the pass: a trace with a
    /// fault tells nothing.
    pub fn take(&mut self, alloc: Global, said: Said<'_>) -> Result<(), Refused>
        ensures taken { (asked : asking.Asked) (past : List trace.Said) (boundary : ℕ) → IsAtBehind asked past boundary self.old
            → OnOk result (said_fault asked past (said_read said.entry) ≡ None) }
        ensures stands { (asked : asking.Asked) (past : List trace.Said) (boundary : ℕ) → IsAtBehind asked past boundary self.old
            → OnOk result (IsAtBehind asked (said_read said.entry ∷ past) boundary self.new) }
        ensures refused { (asked : asking.Asked) (past : List trace.Said) (boundary : ℕ) → IsAtBehind asked past boundary self.old
            → IfErr result (IsRefusedFor (said_fault asked past (said_read said.entry))) }
        ensures forgets { OnOk result (told_to_forget self.new ≡ told_to_forget self.old) }
    {
        self.take_said(alloc, said)
    }

    /// Ends behind the last line: what is known of the tasks, or why the trace as a whole tells nothing of them.
    pub fn end(self, alloc: Global) -> Result<Ended, Refused>
        ensures whole { (asked : asking.Asked) (past : List trace.Said) → IsAt asked past self
            → OnOk result (whole_fault asked past ≡ None) }
        ensures ended { (asked : asking.Asked) (past : List trace.Said) → IsAt asked past self
            → IfOk result (IsEnded asked past) }
        ensures refused { (asked : asking.Asked) (past : List trace.Said) → IsAt asked past self
            → IfErr result (IsRefusedFor (whole_fault asked past)) }
    {
        let Pass {
            asked,
            lines,
            counted,
        } = self;
        check_whole(&asked, &lines)?;
        let Counted {
            past,
            tasks,
            touched: _,
            boundary: _,
            others,
        } = counted;
        let until = last_asked(asked.to, lines.past.last);
        let mut jobs = close_each(alloc, tasks, &past, until)?;
        share_all(&asked, &mut jobs);
        let others = end_others(alloc, asked.others, others, until)?;
        let tally = lines.tally(&asked);
        Ok(Ended {
            asked,
            jobs,
            others,
            first: lines.past.first.unwrap_or(0),
            last: lines.past.last,
            tally,
        })
    }

    /// What was asked for.
    pub fn asked(&self) -> &Asked
        ensures { (asked : asking.Asked) (past : List trace.Said) (boundary : ℕ) → IsAtBehind asked past boundary self.now → asked_read result.now ≡ asked }
    {
        &self.asked
    }

    /// What the next line is refused for where these parts are written.
    pub fn check_parts(&self, said: &Said<'_>, cut: Cut) -> Result<(), Cause>
        ensures { (asked : asking.Asked) (past : List trace.Said) → IsAtBehind asked past cut.boundary self.now
            → fault_in result ≡ part_fault asked past cut (said_read said.now) }
    {
        check_parts(&self.asked, &self.lines, &self.counted, said, cut)
    }

    /// What the trace as a whole is refused for, where it ends here.
    pub fn check_whole(&self) -> Result<(), Cause>
        ensures { (asked : asking.Asked) (past : List trace.Said) (boundary : ℕ) → IsAtBehind asked past boundary self.now
            → fault_in result ≡ whole_fault asked past }
    {
        check_whole(&self.asked, &self.lines)
    }

    /// At most so many jobs, stretches and spans wait, on whichever processor.
    pub fn kept(&self) -> Kept
        ensures { (asked : asking.Asked) (past : List trace.Said) (boundary processor : ℕ) → IsAtBehind asked past boundary self.now
            → IsEnough (asking.on processor asked) past boundary result }
    {
        Kept {
            jobs: count_jobs(&self.counted.tasks),
            stretches: count_all_stretches(&self.counted.tasks),
            others: self.counted.others.count(),
        }
    }

    /// What is known of the tasks now, of the jobs that aren't forgotten.
    pub fn shown(&self, alloc: Global) -> Result<Shown, Memory>
        ensures { (asked : asking.Asked) (past : List trace.Said) (boundary : ℕ) → IsAtBehind asked past boundary self.now → IfOk result (IsShown asked past boundary) }
    {
        let until = last_asked(self.asked.to, self.lines.past.last);
        let tasks = show_each(alloc, &self.counted.tasks, &self.counted.past, until)?;
        let others = show_others(alloc, self.asked.others, &self.counted.others, until)?;
        Ok(Shown {
            tasks,
            others,
            first: self.lines.past.first.unwrap_or(0),
            last: self.lines.past.last,
            tally: self.lines.tally(&self.asked),
        })
    }

    /// Forgets the jobs that begin before this time, but for each task's last one, and the first spans that end by it.
    pub fn forget(&mut self, boundary: u64)
        ensures stands { (asked : asking.Asked) (past : List trace.Said) (before : ℕ) → IsAtBehind asked past before self.old → before ≤ boundary
            → IsAtBehind asked past boundary self.new }
        ensures forgets { told_to_forget self.new ≡ boundary }
    {
        forget_each(&mut self.counted.tasks, boundary);
        forget_others(&mut self.counted.others, self.asked.others, boundary);
        self.counted.boundary = boundary;
    }

    /// Asks for another processor.
    pub fn turn_to(&mut self, processor: u64)
        ensures stands { (asked : asking.Asked) (past : List trace.Said) (boundary : ℕ) → IsAtBehind asked past boundary self.old
            → IsAtBehind (asking.on processor asked) past boundary self.new }
        ensures forgets { told_to_forget self.new ≡ told_to_forget self.old }
    {
        self.asked.processor = processor;
    }

    /// Takes what the next line says, and forgets no job.
    fn take_said(&mut self, alloc: Global, said: Said<'_>) -> Result<(), Refused>
        ensures taken { (asked : asking.Asked) (past : List trace.Said) → IsStanding asked past self.old
            → OnOk result (said_fault asked past (said_read said.entry) ≡ None) }
        ensures stands { (asked : asking.Asked) (past : List trace.Said) → IsStanding asked past self.old
            → OnOk result (IsStanding asked (said_read said.entry ∷ past) self.new) }
        ensures refused { (asked : asking.Asked) (past : List trace.Said) → IsStanding asked past self.old
            → IfErr result (IsRefusedFor (said_fault asked past (said_read said.entry))) }
        ensures boundary { OnOk result (self.new.counted.boundary ≡ self.old.counted.boundary) }
    {
        match said {
            Said::Event(event) => self.take_event(alloc, &event),
            Said::Lost { processor, since } => self.lose(processor, since),
            Said::Nothing => Ok(()),
        }
    }

    /// Takes an event.
    fn take_event(&mut self, alloc: Global, event: &Event<'_>) -> Result<(), Refused>
        ensures taken { (past : List trace.Said) → IsStanding (asked_read self.old.asked) past self.old
            → OnOk result (said_fault (asked_read self.old.asked) past (trace.Stamped (event_read event.now)) ≡ None) }
        ensures stands { (past : List trace.Said) → IsStanding (asked_read self.old.asked) past self.old
            → OnOk result (IsStanding (asked_read self.old.asked) (trace.Stamped (event_read event.now) ∷ past) self.new) }
        ensures refused { (past : List trace.Said) → IsStanding (asked_read self.old.asked) past self.old
            → IfErr result (IsRefusedFor (said_fault (asked_read self.old.asked) past (trace.Stamped (event_read event.now)))) }
        ensures boundary { OnOk result (self.new.counted.boundary ≡ self.old.counted.boundary) }
    {
        check_place(event)?;
        let first = find_first(&self.asked.tasks, &event.happening);
        let second = find_second(&self.asked.tasks, &event.happening);
        let missing = self.counted.missing_at(&self.asked, event, first, second);
        check_event(
            &self.asked,
            &self.lines,
            &self.counted,
            event,
            first,
            second,
            missing,
        )?;
        let (first, second) = (first.whose(), second.whose());
        self.counted
            .count(alloc, &self.asked, &self.lines, event, first, second)?;
        self.lines.take(&self.asked, event, first, second, missing)?;
        Ok(())
    }

    /// Takes a line without a stamp which says that events of the processor were lost.
    fn lose(&mut self, processor: u64, since: Since) -> Result<(), Refused>
        ensures taken { (past : List trace.Said) → IsStanding (asked_read self.old.asked) past self.old
            → OnOk result (said_fault (asked_read self.old.asked) past (trace.Lost processor since) ≡ None) }
        ensures stands { (past : List trace.Said) → IsStanding (asked_read self.old.asked) past self.old
            → OnOk result (IsStanding (asked_read self.old.asked) (trace.Lost processor since ∷ past) self.new) }
        ensures refused { (past : List trace.Said) → IsStanding (asked_read self.old.asked) past self.old
            → IfErr result (IsRefusedFor (said_fault (asked_read self.old.asked) past (trace.Lost processor since))) }
        ensures boundary { OnOk result (self.new.counted.boundary ≡ self.old.counted.boundary) }
    {
        check_processor(processor)?;
        self.counted
            .count_loss(&self.asked, &self.lines, processor, since)?;
        self.lines.lose(self.asked.to, processor, since);
        Ok(())
    }
}
