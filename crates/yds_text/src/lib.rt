//! Borrowed lines and fields of a text, and the numbers, fractions and names that fields spell.
//!
//! It stands on `base`, which defines what the lines of bytes, the fields of a line and the spellings of
//! numbers and names are, and on `yds_model` and `yds_fraction` for the fractions. It keeps the promise that reading goes by
//! those definitions: no byte is lost, each place is told right, and each fault comes exactly where
//! it is one. No call takes memory, and every part is a slice of the input.
#![tactic(auto)]

mod count;
mod field;
mod fraction;
mod line;
mod plain;
mod spelling;

pub use count::{FieldCount, FiveFields, five_fields, four_fields, one_field, two_fields};
pub use field::{Field, Fields};
pub use fraction::mixed;
pub use line::{Line, LineIter, lines};
pub use spelling::{name, number, number_from, number_of};
pub use yds_model::NumberFault;
