//! Exact fractions: quotients of two bounded numbers, and written fractions with a whole part.
//!
//! It stands on `yds_model`. Its promise: each operator is that of the values. Equality and order go by cross
//! products, and sums, differences, products and lowest terms are exact. No call takes memory.
#![tactic(auto)]

mod divisors;
mod laws;
mod lowest_terms;
mod mixed;
mod moments;
mod ratio;

pub use divisors::{gcd, lcm_within};
pub use laws::{multiple_carries_factor, order_of_fractions, order_of_quotients, sum_carries_one};
pub use lowest_terms::in_lowest_terms;
pub use mixed::{Amount, Mixed, Moment};
pub use moments::is_before;
pub use ratio::{Ratio, Speed};
