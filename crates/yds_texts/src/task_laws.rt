//! The laws of periodic tasks, each as the contract of a call that does nothing.
ghost use Rattle.yds_texts.specs.TaskLaws.{TaskJobsEndInTime, ExpansionsAreRead, OneLevelIsPlanned};

/// A task has just those jobs whose deadlines come by the horizon.
#[tactic(auto, using(crate::proofs::TaskCounts::task_jobs_end_in_time))]
pub fn task_jobs_end_in_time()
    ensures { TaskJobsEndInTime }
{}

/// The text that `expand` writes is read as a document with just the jobs of the tasks, in their order and
/// under different names, and it isn't too long to be read.
#[tactic(auto, using(crate::proofs::TaskTexts::expansions_are_read))]
pub fn expansions_are_read()
    ensures { ExpansionsAreRead }
{}

/// Where one level is told of tasks that were read, every plan of their jobs has just this one level.
#[tactic(auto, using(crate::proofs::TaskTexts::one_level_is_planned))]
pub fn one_level_is_planned()
    ensures { OneLevelIsPlanned }
{}
