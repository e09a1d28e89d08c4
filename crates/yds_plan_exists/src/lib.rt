//! That there is a plan: the textbook's stages exist, and a plan is laid from them.
//!
//! It stands on `yds_model`, whose definitions the law speaks of; on `yds_textbook`, by whose theorem stages make a plan; and on `yds_critical`,
//! `yds_edf` and `yds_contract` for what a stage has.
//! It carries the promise that jobs within the limits have a plan. The calls that answer plans may answer lack of memory in its place; that there is one
//! doesn't rest on them.
#![tactic(auto)]

ghost use Rattle.yds_plan_exists.specs.Exists.{StagesExist, PlansExist};

use std::alloc::Global;

/// Jobs within the limits have the textbook's stages (Yao, Demers and Shenker, FOCS 1995): critical interval after critical interval, whose jobs
/// are all served in time. A stage keeps its lists in an allocator's memory, so the law is given one; nothing is taken of it.
pub fn stages_exist(_alloc: Global)
    ensures { StagesExist }
{}

/// So they have a plan.
pub fn plans_exist(_alloc: Global)
    ensures { PlansExist }
{}
