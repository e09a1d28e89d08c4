ghost use Rattle.std.specs.Prelude.{◌≡◌, ◌≤◌, ℕ, List, length, OnOk, IfOk};
ghost use Rattle.base.specs.declared.limits.TheConstants.{MAX_BYTES};
ghost use Rattle.yds_model.specs.TaskReading.{TaskEntry, task_reading};
ghost use Rattle.yds_tasks.specs.KeptTasks.{IsTaskSet};
ghost use Rattle.yds_tasks.specs.Lines.{IsDraft, Holds, GivesTasks, TellsTaskLine};

use crate::draft::Draft;
use crate::fault::TaskFault;
use crate::line_fault::LineFault;
use crate::task_set::TaskSet;
use std::alloc::Global;
use std::hash::RandomState;
use yds_text::{Line, lines};

/// Reads the tasks that the bytes are, line by line. Names are looked up with the keys, on which no answer depends.
///
/// Fails as `At` exactly where a line has a fault, with the first fault of the first such line, or as
/// `Memory` for want of memory.
pub fn read_tasks<'a>(
    alloc: Global,
    keys: RandomState,
    bytes: &'a [u8],
) -> Result<TaskSet<'a>, TaskFault>
    requires { length bytes.now ≤ MAX_BYTES }
    ensures exact { GivesTasks result (task_reading bytes.now) }
    ensures possible { IfOk result IsTaskSet }
{
    let mut draft = Draft::new(alloc, keys);
    for line in lines(bytes) {
        draft.read_line(line)?;
    }
    // Reading the jobs shows that the tasks are within their limits.
    let _tasks = draft.set.tasks();
    Ok(draft.set)
}

impl<'a> Draft<'a> {
    /// What a line adds: nothing, where it has no field or begins with `#`.
    fn read_line(&mut self, line: Line<'a>) -> Result<(), TaskFault>
        requires kept { IsDraft self.old }
        ensures kept { OnOk result (IsDraft self.new) }
        ensures tells { (start : ℕ) (earlier : List TaskEntry) → Holds self.old earlier
            → TellsTaskLine result (record { number = line.entry.number; start = start; text = line.entry.text.now }) earlier self.new }
    {
        let mut fields = line.fields();
        let Some(first) = fields.next() else {
            return Ok(());
        };
        if first.text.first() == Some(&b'#') {
            return Ok(());
        }
        match self.read_fields(first, fields) {
            Ok(()) => Ok(()),
            Err(LineFault::At { column, reason }) => Err(TaskFault::At {
                line: line.number,
                column,
                reason,
            }),
            Err(LineFault::Memory) => Err(TaskFault::Memory),
        }
    }
}
