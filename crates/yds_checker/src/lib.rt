//! The checker of certificates: whether levels show that a schedule is least, and if not, the first condition that fails.
//!
//! It stands on `yds_model`, `yds_laws`, `yds_fraction`, `yds_slots`, `yds_certificate` and `yds_audit`. Its promise is that the
//! judgement is `Accepted` exactly where the certificate is proper for the jobs and the slots, so that an accepted
//! schedule is least: above no speed does it do more work than any feasible schedule. Foreign levels and slots may be
//! checked. `is_shown_least` of `yds_callers` shows how it is called.
#![tactic(auto)]

mod checker;
mod falling;
mod heights;
mod home;
mod judgement;
mod member;
mod pieces;
mod pieces_in_turn;
mod placed;
mod speeds;
mod sums;
mod windows;

pub use checker::check;
pub use judgement::Judgement;
