//! The laws of the greatest common divisor and the least common multiple, each as the contract of a call that does
//! nothing.
ghost use Rattle.yds_model.specs.DivisorLaws.{DivisorIsGreatest, MultipleIsLeast, LowestTermsAreOne};

/// The greatest common divisor of two numbers divides both, and each number that divides both divides it.
pub fn divisor_is_greatest()
    ensures { DivisorIsGreatest }
{}

/// The least common multiple of two numbers is a multiple of both, and divides each number that is.
pub fn multiple_is_least()
    ensures { MultipleIsLeast }
{}

/// Equal quotients have the same lowest terms.
pub fn lowest_terms_are_one()
    ensures { LowestTermsAreOne }
{}
