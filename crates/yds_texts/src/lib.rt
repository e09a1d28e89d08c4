//! What the program's texts are worth to their readers: the laws of documents and of the answers that are written. Each is
//! the contract of a call of no parameters that does nothing.
//!
//! It stands on `yds_laws` and `yds_energy`. It carries the promises that a document's text is read back as that document, and
//! that the texts which the program writes hold what their readers expect and are answered as their readers expect.
#![tactic(auto)]

mod admission_laws;
mod comparison_laws;
mod curve_laws;
mod judging_laws;
mod plan_laws;
mod reading_laws;
mod rounding_laws;
mod run_laws;
mod task_laws;
mod text_laws;

pub use admission_laws::{admission_texts_are_feasible, admissions_are_read};
pub use comparison_laws::{compared_as_rounded, compared_is_too_slow, compared_plan_is_cheapest};
pub use curve_laws::curves_are_least;
pub use judging_laws::{judgements_tell_proper, verdicts_tell_feasible};
pub use plan_laws::{plan_texts_are_accepted, plan_texts_are_feasible, plans_hold_the_headline};
pub use reading_laws::{
    canonical_text_is_read, jobs_and_slots_are_read, lines_are_short, printed_is_read,
    read_is_within_limits, text_is_short,
};
pub use rounding_laws::{refused_is_too_slow, rounded_holds_least_energy, rounded_is_audited};
pub use run_laws::{runs_are_feasible, runs_are_read};
pub use task_laws::{expansions_are_read, one_level_is_planned, task_jobs_end_in_time};
pub use text_laws::{fields_are_slices, lines_are_slices};
