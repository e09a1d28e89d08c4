//! A second opinion of the planner: the plan as Yao, Demers and Shenker tell it (FOCS 1995). Critical interval after critical
//! interval, the jobs inside it are served at its intensity, earliest deadline first, and its time is taken away.
//!
//! It stands on `yds_critical` and `yds_contract`, on `yds_edf` for the filling, and on `yds_plan` for the layout. It carries their
//! theorem: by the law `stages_make_a_plan` what is laid from the textbook's stages is a plan by the model's definition. `stages`
//! promises that each stage is that of the critical interval of the jobs that wait, in the time that is left, and `textbook` that
//! its slots and levels are laid from such stages.
#![tactic(auto)]

mod laws;
mod planning;
mod serving;
mod stage;
mod together;
mod waiting;
mod window;

pub use laws::stages_make_a_plan;
pub use planning::{stages, textbook};
pub use stage::Stage;
pub use window::{have_work, is_within};
