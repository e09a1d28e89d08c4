//! The laws of fractions and of scale. Each is a call of no parameters that does nothing: its contract is the law, and
//! a proof of a crate above cites it by such a call.
ghost use Rattle.yds_model.specs.ScaleLaws.{OrderIsOfValues, EqualityIsOfValues, SumIsOfValues, MultipleIsOfValues, OrderIsTransitive, EqualityIsTransitive, OrderAgreesWithEquality, ScaleExists, ScaleKeepsFeasible, ScaleMultipliesExcess, OneScaleDecides};

/// One fraction is less than another, by cross products, where its value is less at each common scale.
#[tactic(auto, using(fraction_lemmas::proofs::Fractions::order_of_values))]
pub fn order_is_of_values()
    ensures { OrderIsOfValues }
{}

/// Two fractions are the same, by cross products, where their values are equal at each common scale.
#[tactic(auto, using(fraction_lemmas::proofs::Fractions::equality_of_values))]
pub fn equality_is_of_values()
    ensures { EqualityIsOfValues }
{}

/// A fraction is the sum of two others where its value is the sum of theirs at each common scale.
#[tactic(auto, using(fraction_lemmas::proofs::Fractions::sum_of_values))]
pub fn sum_is_of_values()
    ensures { SumIsOfValues }
{}

/// A fraction is a multiple of another where its value is that multiple of the other's at each common scale.
pub fn multiple_is_of_values()
    ensures { MultipleIsOfValues }
{}

/// What is less than a fraction that is less than a third is less than the third.
#[tactic(auto, using(fraction_lemmas::proofs::Fractions::order_transitive))]
pub fn order_is_transitive()
    ensures { OrderIsTransitive }
{}

/// Fractions that are the same as one fraction are the same.
#[tactic(auto, using(fraction_lemmas::proofs::Fractions::equality_transitive))]
pub fn equality_is_transitive()
    ensures { EqualityIsTransitive }
{}

/// Fractions that are the same stand in the same order to each other fraction.
#[tactic(auto, using(fraction_lemmas::proofs::Fractions::order_agrees))]
pub fn order_agrees_with_equality()
    ensures { OrderAgreesWithEquality }
{}

/// A written schedule whose denominators are at least 1 has a scale.
#[tactic(auto, using(model_lemmas::proofs::Scale::scale_exists))]
pub fn scale_exists()
    ensures { ScaleExists }
{}

/// A written schedule is feasible at a scale exactly where it is at a multiple of it.
pub fn scale_keeps_feasible()
    ensures { ScaleKeepsFeasible }
{}

/// At k times a scale each excess is k times as great.
#[tactic(auto, using(model_lemmas::proofs::Scale::excess_scaled))]
pub fn scale_multiplies_excess()
    ensures { ScaleMultipliesExcess }
{}

/// A written schedule that is feasible at one of its scales is so at each.
pub fn one_scale_decides()
    ensures { OneScaleDecides }
{}
