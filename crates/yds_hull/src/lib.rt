//! Operating points of a processor, and their lower hull: the points that least energy uses.
//!
//! A table may have any powers. Between two neighbours of its lower hull a processor that alternates
//! spends least, and a point above the line between its neighbours is never worth running at.
//!
//! It stands on `yds_model`, whose `IsHullOf` says what the lower hull of a list of points is. That no
//! line between two points runs below it is the law `hull_is_lowest` of `yds_energy`. With it this crate
//! carries the part of least energy that speaks of tables.
#![tactic(auto)]

mod lower_hull;
mod operating_point;

pub use lower_hull::hull;
pub use operating_point::Point;
