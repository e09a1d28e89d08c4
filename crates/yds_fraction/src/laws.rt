//! Laws of the words of this crate's contracts. Each is a call of no parameters that does nothing.

ghost use Rattle.yds_fraction.specs.ValueOrder.{OrderOfFractions, OrderOfQuotients};
ghost use Rattle.yds_fraction.specs.Mixed.{SumCarriesOne, MultipleCarriesFactor};

/// What `cmp` answers of two fractions, also by a key as in sorting, says how their values stand.
#[tactic(auto, using(crate::proofs::WholeFirst::order_of_fractions))]
pub fn order_of_fractions()
    ensures { OrderOfFractions }
{}

/// What `cmp` answers of two quotients, also by a key as in sorting, says how their values stand.
#[tactic(auto, using(crate::proofs::WholeFirst::order_of_quotients))]
pub fn order_of_quotients()
    ensures { OrderOfQuotients }
{}

/// The whole part of a sum is at most one more than the whole parts together.
#[tactic(auto, using(crate::proofs::Values::sum_carries_one))]
pub fn sum_carries_one()
    ensures { SumCarriesOne }
{}

/// The whole part of k times a fraction is at most k times one more than its whole part.
#[tactic(auto, using(crate::proofs::Values::multiple_carries_factor))]
pub fn multiple_carries_factor()
    ensures { MultipleCarriesFactor }
{}
