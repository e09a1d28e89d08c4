//! The tasks that are being read: what the lines said so far.
ghost use Rattle.std.specs.Prelude.{◌≡◌, ◌≤◌, ◌<◌, ◌∷◌, [], List, length, is_some, OnOk, IfOk, IfErr, IsTrue, IsFalse};
ghost use Rattle.base.specs.declared.limits.TheConstants.{MAX_TASKS, MAX_JOBS};
ghost use Rattle.yds_model.specs.TaskReading.{TaskEntry, TaskEntryOf, read_horizon, read_task, read_task_fields, is_task_name, count_of_all};
ghost use Rattle.yds_text.specs.Read.{field_read};
ghost use Rattle.yds_tasks.specs.Fields.{Gives, task_name_of, task_of, has_name};
ghost use Rattle.yds_tasks.specs.KeptTasks.{with_task};
ghost use Rattle.yds_tasks.specs.Lines.{IsDraft, Holds, Takes, Tells, TellsField};
ghost use Rattle.yds_tasks.specs.Read.{task_read};

use crate::field_fault::FieldFault;
use crate::fields::{number_in, task_name};
use crate::line_fault::LineFault;
use crate::line_kind::LineKind;
use crate::task::Task;
use crate::task_set::TaskSet;
use indexmap::IndexSet;
use std::alloc::Global;
use std::hash::RandomState;
use yds_model::TaskReason;
use yds_model::limits::{MAX_TASKS, MAX_TIME, MAX_WORK};
use yds_text::{Field, Fields, FiveFields, five_fields, one_field};

/// The horizon and the tasks of the lines that were read so far.
#[derive(Drop)]
pub(crate) struct Draft<'a> {
    pub(crate) set: TaskSet<'a>,
    // The names of the tasks, looked up by a digest with secret keys.
    pub(crate) names: IndexSet<&'a str, RandomState>,
}

impl<'a> Draft<'a> {
    /// That before any line, whose names will be looked up with these keys. Takes no memory.
    pub(crate) fn new(alloc: Global, keys: RandomState) -> Draft<'a>
        ensures kept { IsDraft result }
        ensures holds { Holds result [] }
    {
        Draft {
            set: TaskSet::new(alloc),
            names: IndexSet::with_hasher(alloc, keys),
        }
    }

    /// What a line adds, by its first field and the rest of them.
    pub(crate) fn read_fields(
        &mut self,
        first: Field<'a>,
        rest: Fields<'a>,
    ) -> Result<(), LineFault>
        requires kept { IsDraft self.old }
        ensures kept { OnOk result (IsDraft self.new) }
        ensures reads { (earlier : List TaskEntry) → Holds self.old earlier → Tells result (read_task_fields earlier (field_read first.entry ∷ rest.entry.fields)) self.new earlier }
    {
        match LineKind::of(first.text) {
            Some(LineKind::Horizon) => {
                self.read_horizon(first, rest)?;
                Ok(())
            }
            Some(LineKind::Task) => self.read_task(first, rest),
            None => Err(LineFault::at(first.column, TaskReason::UnknownKind)),
        }
    }

    /// Reads the line of the horizon, of which there is one at most.
    fn read_horizon(&mut self, first: Field<'a>, rest: Fields<'a>) -> Result<(), FieldFault>
        requires kept { IsDraft self.old }
        ensures kept { OnOk result (IsDraft self.new) }
        ensures reads { (earlier : List TaskEntry) → Holds self.old earlier → TellsField result (read_horizon earlier (field_read first.entry ∷ rest.entry.fields)) self.new earlier }
    {
        if self.set.has_horizon() {
            return Err(FieldFault::at(first.column, TaskReason::Misplaced));
        }
        let field = one_field(first, rest)?;
        let horizon = number_in(field, 1, MAX_TIME)?;
        self.set.begin(horizon);
        Ok(())
    }

    /// Reads the line of a task, which stands after the horizon.
    fn read_task(&mut self, first: Field<'a>, rest: Fields<'a>) -> Result<(), LineFault>
        requires kept { IsDraft self.old }
        ensures kept { OnOk result (IsDraft self.new) }
        ensures reads { (earlier : List TaskEntry) → Holds self.old earlier → Tells result (read_task earlier (field_read first.entry ∷ rest.entry.fields)) self.new earlier }
    {
        if !self.set.has_horizon() {
            return Err(LineFault::at(first.column, TaskReason::Misplaced));
        }
        if self.set.tasks().len() >= MAX_TASKS {
            return Err(LineFault::at(first.column, TaskReason::TooMany));
        }
        let fields = five_fields(first, rest)?;
        let task = self.task_in(fields)?;
        self.add(task)
    }

    /// What the fields say.
    fn task_in(&self, fields: FiveFields<'a>) -> Result<Task<'a>, FieldFault>
        requires kept { IsDraft self.now }
        requires horizon { IsTrue (is_some self.now.set.horizon) }
        ensures gives { Gives task_read result (task_of self.now.set (field_read fields.entry.0) (field_read fields.entry.1) (field_read fields.entry.2) (field_read fields.entry.3) (field_read fields.entry.4)) }
        ensures new { IfOk result (λ task. IsFalse (has_name self.now.set task.name.now)) }
        ensures room { IfOk result (λ task. count_of_all (with_task self.now.set (task_read task)) ≤ MAX_JOBS) }
    {
        let (name, offset, period, deadline, work) = fields;
        let period_column = period.column;
        let name = self.new_name(name)?;
        let offset = number_in(offset, 0, MAX_TIME)?;
        let period = number_in(period, 1, MAX_TIME)?;
        let deadline = number_in(deadline, 1, MAX_TIME)?;
        let work = number_in(work, 0, MAX_WORK)?;
        let task = Task {
            name,
            offset,
            period,
            deadline,
            work,
        };
        if self.set.has_room_for(&task) {
            Ok(task)
        } else {
            Err(FieldFault::at(period_column, TaskReason::TooManyJobs))
        }
    }

    /// A name that no task has yet.
    fn new_name(&self, field: Field<'a>) -> Result<&'a str, FieldFault>
        requires kept { IsDraft self.now }
        ensures gives { Gives (λ name. name.now) result (task_name_of self.now.set (field_read field.entry)) }
        ensures named { IfOk result (λ name. IsTrue (is_task_name name.now)) }
        ensures new { IfOk result (λ name. IsFalse (has_name self.now.set name.now)) }
    {
        let Some(name) = task_name(field) else {
            return Err(FieldFault::at(field.column, TaskReason::BadName));
        };
        if self.names.contains(name) {
            Err(FieldFault::at(field.column, TaskReason::DuplicateName))
        } else {
            Ok(name)
        }
    }

    /// Adds a task of a new name after the others; there is room for its jobs.
    fn add(&mut self, task: Task<'a>) -> Result<(), LineFault>
        requires kept { IsDraft self.old }
        requires horizon { IsTrue (is_some self.old.set.horizon) }
        requires few { length self.old.set.tasks < MAX_TASKS }
        requires new { IsFalse (has_name self.old.set task.name.now) }
        requires room { count_of_all (with_task self.old.set (task_read task)) ≤ MAX_JOBS }
        ensures kept { OnOk result (IsDraft self.new) }
        ensures takes { OnOk result (Takes self.old self.new (TaskEntryOf (task_read task.entry))) }
        ensures memory { IfErr result (λ fault. fault ≡ LineFault.Memory) }
    {
        self.names.insert(task.name)?;
        self.set.add(task)?;
        Ok(())
    }
}
