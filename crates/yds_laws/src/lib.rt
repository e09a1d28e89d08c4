//! The laws of the definitions: what follows from them, whatever program has them. Each is the contract of a call of no
//! parameters that does nothing.
//!
//! It stands on `yds_model`, whose definitions the laws speak of, and on `yds_events` for what it proves of stretches.
//! It carries the promises that a proper certificate explains its slots and what is explained is least, that one scale
//! decides, and that admission and the curve of least excess are what their definitions say. What schedules spend is in
//! `yds_energy`, what the written texts are worth in `yds_texts`, and worked examples are in `yds_examples`.
#![tactic(auto)]

mod admission_laws;
mod curve_laws;
mod divisor_laws;
mod judging_laws;
mod laws;
mod plan_laws;
mod run_laws;
mod scale_laws;

pub use admission_laws::{
    admitted_runs_are_within_the_top, refusals_are_forced,
    served_exactly_where_no_interval_is_overfull,
};
pub use curve_laws::{curve_is_straight, levels_tell_least_excess};
pub use divisor_laws::{divisor_is_greatest, lowest_terms_are_one, multiple_is_least};
pub use judging_laws::{
    audit_and_check_answer_once, judgement_is_exact, judgement_is_unique, table_verdict_is_exact,
    verdict_is_exact, verdict_is_unique,
};
pub use laws::{
    confinement_bound, explained_is_least, least_among_written, proper_explains, served_at_speed,
};
pub use plan_laws::{plans_are_least, plans_have_the_same_levels, plans_serve_work};
pub use run_laws::{average_rate_is_exact, optimal_available_is_exact};
pub use scale_laws::{
    equality_is_of_values, equality_is_transitive, multiple_is_of_values, one_scale_decides,
    order_agrees_with_equality, order_is_of_values, order_is_transitive, scale_exists,
    scale_keeps_feasible, scale_multiplies_excess, sum_is_of_values,
};
