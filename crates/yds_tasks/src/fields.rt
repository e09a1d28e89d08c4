//! What a field of a task's line is tried for: a number, the name of a new task.
ghost use Rattle.std.specs.Prelude.{◌≡◌, ◌≤◌, IfOk, IfSome, IfNone, IsTrue, IsFalse};
ghost use Rattle.yds_model.specs.TaskReading.{task_number_in, is_task_name};
ghost use Rattle.yds_text.specs.Read.{field_read};
ghost use Rattle.yds_tasks.specs.Fields.{Gives};

use crate::field_fault::FieldFault;
use yds_model::TaskReason;
use yds_model::limits::MAX_TASK_NAME;
use yds_text::{Field, name, number_from};

/// The number of 32 bits that the field spells.
pub(crate) fn number_in(field: Field<'_>, least: u32, most: u32) -> Result<u32, FieldFault>
    ensures gives { Gives (λ n. n) result (task_number_in least most (field_read field.entry)) }
    ensures within { IfOk result (λ n. (least ≤ n) × (n ≤ most)) }
{
    match number_from(field, u64::from(least), u64::from(most)) {
        Ok(number) => Ok(number as u32),
        Err(fault) => Err(FieldFault::of_number(field.column, fault)),
    }
}

/// The name that the field is, if it is short enough for a dot and a job's number after it.
pub(crate) fn task_name<'a>(field: Field<'a>) -> Option<&'a str>
    ensures none { IfNone result (IsFalse (is_task_name field.entry.text.now)) }
    ensures some { IfSome result (λ name. IsTrue (is_task_name name.now)) }
    ensures same { IfSome result (λ name. name.now ≡ field.entry.text.now) }
{
    let name = name(field)?;
    if name.len() <= MAX_TASK_NAME {
        Some(name)
    } else {
        None
    }
}
