//! Periodic tasks: each asks for a job at its offset and again after each period, as long as the job's
//! deadline comes by a horizon. Tasks are read from bytes, and their jobs printed as the text of a document.
//!
//! It stands on `yds_model`, which defines the tasks and their jobs, on `yds_text` for the fields of a line and
//! on `yds_port` for the sink. It carries the promise that tasks are read exactly as the definition says, faults
//! with their places among it, that never more jobs are asked for than a document may have, and that what is
//! printed is the text of just these jobs, or after a fault of the sink a front of it. A line is made on the
//! stack, so printing takes no memory, and neither do the getters.
#![tactic(auto)]

mod draft;
mod fault;
mod field_fault;
mod fields;
mod job_line;
mod line_fault;
mod line_kind;
mod printing;
mod reader;
mod task;
mod task_jobs;
mod task_set;

pub use fault::TaskFault;
pub use printing::print_jobs;
pub use reader::read_tasks;
pub use task::Task;
pub use task_set::TaskSet;
pub use yds_model::TaskReason;

#[cfg(test)]
mod tests;
