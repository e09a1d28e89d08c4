//! Certificates: the levels of a plan, each with the pieces of time in which it is served and the jobs
//! that are its members.
//!
//! It stands on `yds_model` and `yds_fraction`. Contracts see a certificate as the list of its levels, of
//! which each has a work and a length of at least 1. Whether a certificate is proper isn't kept, since
//! foreign ones are read too. Its promise is that each call does what it says with that list, and that
//! `prefix` lends just the first levels that are faster than a speed.
#![tactic(auto)]

mod certificate;
mod level;
mod merging;
mod piece;

pub use certificate::Certificate;
pub use level::Level;
pub use piece::Piece;
