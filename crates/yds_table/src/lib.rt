//! Tables of operating points: the speeds that a processor has, and its power at each.
//!
//! It stands on `yds_model`, `yds_fraction` and `yds_hull`. Contracts see a table as the list of its points. A
//! table keeps their lower hull, and that the gaps between the speeds of the hull have a least common multiple
//! of at most `MAX_GAPS`, so that an energy is one exact fraction. It carries the part of the operators'
//! promise that speaks of tables: `hull` is the lower hull, and `around` gives the hull's points around a
//! speed.
#![tactic(auto)]

mod fault;
mod gaps;
mod table;

pub use fault::TableFault;
pub use table::Table;
pub use yds_hull::Point;
