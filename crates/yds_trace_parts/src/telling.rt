//! What is kept while a trace is told in parts.
ghost use Rattle.std.specs.Prelude.{◌≡◌, ◌+◌, List, [], ◌∷◌, length, None, is_some, not, ◌&&◌, Bool, true, false, ℕ, IfOk, OnOk, IfErr};
ghost use Rattle.yds_kernel.specs.Event as trace;
ghost use Rattle.yds_kernel.specs.Parts.{or_else};
ghost use Rattle.yds_kernel.specs.Views.{said_read};
ghost use Rattle.yds_trace.specs.Asked as asking;
ghost use Rattle.yds_trace.specs.Faults.{said_fault, whole_fault};
ghost use Rattle.yds_trace.specs.Kept.{IsAtBehind, IsEnough, told_to_forget};
ghost use Rattle.yds_trace.specs.Others.{others_from};
ghost use Rattle.yds_trace.specs.Parts as parts;
ghost use Rattle.yds_trace.specs.Views.{asked_read};
ghost use Rattle.yds_trace_parts.specs.Plain.{HasRoom, IsPlainPass};
ghost use Rattle.yds_trace_parts.specs.Telling.{IsTelling, IsTaken, IsStill, IsHaltFor, IsEnd, Adds};
ghost use Rattle.yds_trace_parts.specs.Told.{told_after, at_line, last_piece};

use crate::halt::Halt;
use crate::processors::{
    Pieces, Processor, first_processor, grow, last_pieces, latest_of, least_boundary, next_pieces,
    processor_of, unseen_behind,
};
use base::Memory;
use std::alloc::Global;
use yds_kernel::Said;
use yds_trace::{
    Asked, Cut, Kept, LOOK_EVERY, NO_CUT, PART_JOBS, PART_OTHERS, PART_STRETCHES, Pass, Refused,
};
use yds_trace_document::DocumentFault;

/// What is known of the tasks behind some lines, and what was written of them.
#[derive(Debug, Drop)]
pub(crate) struct Telling {
    pub pass: Pass,
    /// The processors that have documents.
    pub processors: Vec<Processor>,
    /// What was written of each processor of which no line tells, where each has documents of its own.
    pub unseen: Option<Cut>,
    /// What changes a part of one of these changes one of this.
    pub latest: Cut,
    /// Whether no job may be left out for another reason than `from` and `to`.
    pub strict: bool,
}

impl Telling {
    /// Before the first line.
    pub(crate) fn new(alloc: Global, asked: Asked, strict: bool) -> Result<Telling, Memory>
        ensures { IfOk result (λ telling. IsTelling (asked_read asked) strict [] telling) }
    {
        let first = Processor {
            number: first_processor(&asked),
            cut: NO_CUT,
        };
        let unseen = if asked.everywhere { Some(NO_CUT) } else { None };
        Ok(Telling {
            pass: Pass::new(alloc, asked)?,
            processors: vec![in alloc; first]?,
            unseen,
            latest: NO_CUT,
            strict,
        })
    }

    /// Takes what the line of this number says. It gives the texts of the parts that are whole with it.
    pub(crate) fn take(
        &mut self,
        alloc: Global,
        number: u64,
        said: Said<'_>,
    ) -> Result<Vec<u8>, Halt>
        requires { HasRoom (told_to_forget self.old.pass) self.old.pass }
        ensures told { (asked : asking.Asked) (strict : Bool) (past : List trace.Said) → IsTelling asked strict past self.old → number ≡ length past + 1
            → OnOk result (IsTelling asked strict (said_read said.entry ∷ past) self.new) }
        ensures adds { (asked : asking.Asked) (strict : Bool) (past : List trace.Said) → IsTelling asked strict past self.old → number ≡ length past + 1
            → IfOk result (λ piece. Adds asked strict past (said_read said.entry ∷ past) piece.items) }
        ensures halts { (asked : asking.Asked) (strict : Bool) (past : List trace.Said) → IsTelling asked strict past self.old → number ≡ length past + 1
            → IfErr result (IsHaltFor (told_after asked strict (said_read said.entry ∷ past)).halt) }
    {
        self.take_said(alloc, number, said)?;
        if !looks(&self.pass, number) {
            return Ok(Vec::new(alloc));
        }
        self.write(alloc)
    }

    /// Takes what the line of this number says, and all processors up to the one of which it tells.
    fn take_said(&mut self, alloc: Global, number: u64, said: Said<'_>) -> Result<(), Halt>
        requires { HasRoom (told_to_forget self.old.pass) self.old.pass }
        ensures plain { OnOk result (IsPlainPass (told_to_forget self.new.pass) self.new.pass) }
        ensures taken { (asked : asking.Asked) (strict : Bool) (past : List trace.Said) → IsTelling asked strict past self.old → number ≡ length past + 1
            → OnOk result (IsTaken asked strict past (said_read said.entry) self.new) }
        ensures halts { (asked : asking.Asked) (strict : Bool) (past : List trace.Said) → IsTelling asked strict past self.old → number ≡ length past + 1
            → IfErr result (IsHaltFor (told_after asked strict (said_read said.entry ∷ past)).halt) }
    {
        let told = processor_of(&said);
        take_line(alloc, &mut self.pass, self.latest, number, said)?;
        grow(&mut self.processors, self.unseen, told)?;
        Ok(())
    }

    /// Writes the parts that are whole behind a line where it is looked for parts. It gives their texts.
    fn write(&mut self, alloc: Global) -> Result<Vec<u8>, Halt>
        requires { IsPlainPass (told_to_forget self.old.pass) self.old.pass }
        ensures told { (asked : asking.Asked) (strict : Bool) (past : List trace.Said) (said : trace.Said) → IsTaken asked strict past said self.old
            → parts.is_due (said ∷ past) ≡ true → OnOk result (IsTelling asked strict (said ∷ past) self.new) }
        ensures adds { (asked : asking.Asked) (strict : Bool) (past : List trace.Said) (said : trace.Said) → IsTaken asked strict past said self.old
            → parts.is_due (said ∷ past) ≡ true → IfOk result (λ piece. Adds asked strict past (said ∷ past) piece.items) }
        ensures halts { (asked : asking.Asked) (strict : Bool) (past : List trace.Said) (said : trace.Said) → IsTaken asked strict past said self.old
            → parts.is_due (said ∷ past) ≡ true → IfErr result (IsHaltFor (told_after asked strict (said ∷ past)).halt) }
    {
        let shown = self.pass.shown(alloc)?;
        let processor = self.pass.asked().processor;
        let pieces = next_pieces(alloc, &mut self.pass, &self.processors, &shown, self.strict)?;
        let next = pieces.processors.len() as u64;
        let unseen = unseen_behind(alloc, &mut self.pass, self.unseen, next, &shown)?;
        self.pass.turn_to(processor);
        let latest = latest_of(&pieces.processors, unseen);
        let least = least_boundary(&pieces.processors, unseen, latest.boundary);
        self.pass.forget(least);
        let Pieces { text, processors } = pieces;
        self.processors = processors;
        self.unseen = unseen;
        self.latest = latest;
        Ok(text)
    }

    /// Ends behind the last line, which has this number. It gives the texts of the last parts.
    pub(crate) fn end(&mut self, alloc: Global, number: u64) -> Result<Vec<u8>, Halt>
        requires { IsPlainPass (told_to_forget self.old.pass) self.old.pass }
        ensures told { (asked : asking.Asked) (strict : Bool) (past : List trace.Said) → IsTelling asked strict past self.old → number ≡ length past
            → IfOk result (λ text. IsEnd asked strict past text.items) }
        ensures sound { (asked : asking.Asked) (strict : Bool) (past : List trace.Said) → IsTelling asked strict past self.old → number ≡ length past
            → OnOk result (whole_fault asked past ≡ None) }
        ensures halts { (asked : asking.Asked) (strict : Bool) (past : List trace.Said) → IsTelling asked strict past self.old → number ≡ length past
            → IfErr result (IsHaltFor (or_else (at_line number (whole_fault asked past)) (last_piece asked strict past (parts.processors_of asked past)).halt)) }
    {
        match self.pass.check_whole() {
            Ok(()) => self.write_last(alloc),
            Err(cause) => Err(Halt::AtLine { number, cause }),
        }
    }

    /// Writes the last parts. It gives their texts.
    fn write_last(&mut self, alloc: Global) -> Result<Vec<u8>, Halt>
        requires { IsPlainPass (told_to_forget self.old.pass) self.old.pass }
        ensures told { (asked : asking.Asked) (strict : Bool) (past : List trace.Said) → IsTelling asked strict past self.old
            → IfOk result (λ text. IsEnd asked strict past text.items) }
        ensures halts { (asked : asking.Asked) (strict : Bool) (past : List trace.Said) → IsTelling asked strict past self.old
            → IfErr result (IsHaltFor (last_piece asked strict past (parts.processors_of asked past)).halt) }
    {
        let shown = self.pass.shown(alloc)?;
        let last = last_pieces(alloc, &mut self.pass, &self.processors, &shown, self.strict)?;
        if lacks_job(self.unseen, last.has_job) {
            return Err(Halt::Limit {
                processor: None,
                part: 1,
                fault: DocumentFault::NoJobAnywhere,
            });
        }
        Ok(last.text)
    }
}

/// Whether no document has a job, where each processor has documents of its own.
fn lacks_job(unseen: Option<Cut>, has_job: bool) -> bool
    ensures { result ≡ (is_some unseen && not has_job) }
{
    unseen.is_some() && !has_job
}

/// Whether it is looked for parts behind the line of this number: behind each so many lines, where so much is kept.
fn looks(pass: &Pass, number: u64) -> bool
    ensures due { (past : List trace.Said) → number ≡ length past → result ≡ true → parts.is_due past ≡ true }
    ensures still { (asked : asking.Asked) (past : List trace.Said) (boundary : ℕ) → IsAtBehind asked past boundary pass.now → number ≡ length past
        → result ≡ false → IsStill asked past boundary }
{
    number % LOOK_EVERY == 0 && !is_little(pass.kept())
}

/// Whether so little is kept that no part is to be written.
fn is_little(amount: Kept) -> bool
    ensures { (asked : asking.Asked) (past : List trace.Said) (boundary : ℕ) → IsEnough asked past boundary amount → result ≡ true
        → parts.is_much (parts.waiting_from asked past boundary) (others_from asked past boundary) ≡ false }
{
    amount.jobs <= PART_JOBS && amount.stretches <= PART_STRETCHES && amount.others <= PART_OTHERS
}

/// Takes what the line of this number says, behind the parts that were written.
fn take_line(
    alloc: Global,
    pass: &mut Pass,
    cut: Cut,
    number: u64,
    said: Said<'_>,
) -> Result<(), Halt>
    ensures stands { (asked : asking.Asked) (past : List trace.Said) (boundary : ℕ) → IsAtBehind asked past boundary pass.old
        → OnOk result (IsAtBehind asked (said_read said.entry ∷ past) boundary pass.new) }
    ensures taken { (asked : asking.Asked) (past : List trace.Said) (boundary : ℕ) → IsAtBehind asked past boundary pass.old
        → OnOk result (said_fault asked past (said_read said.entry) ≡ None) }
    ensures unchanged { (asked : asking.Asked) (past : List trace.Said) → IsAtBehind asked past cut.boundary pass.old
        → OnOk result (parts.part_fault asked past cut (said_read said.entry) ≡ None) }
    ensures halts { (asked : asking.Asked) (past : List trace.Said) → IsAtBehind asked past cut.boundary pass.old
        → IfErr result (IsHaltFor (at_line number (or_else (said_fault asked past (said_read said.entry)) (parts.part_fault asked past cut (said_read said.entry))))) }
    ensures forgets { OnOk result (told_to_forget pass.new ≡ told_to_forget pass.old) }
{
    let changes = pass.check_parts(&said, cut);
    match pass.take(alloc, said) {
        Ok(()) => {}
        Err(Refused::Fault(cause)) => return Err(Halt::AtLine { number, cause }),
        Err(Refused::Memory) => return Err(Halt::Memory),
    }
    match changes {
        Ok(()) => Ok(()),
        Err(cause) => Err(Halt::AtLine { number, cause }),
    }
}
