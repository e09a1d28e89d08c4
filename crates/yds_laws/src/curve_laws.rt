//! The laws of the curve of least excess, each as the contract of a call that does nothing.
ghost use Rattle.yds_laws.specs.CurveLaws.{LevelsTellLeastExcess, CurveIsStraight};

/// What a plan's levels do above a speed is the least excess of all feasible schedules above it, and a schedule
/// attains it.
pub fn levels_tell_least_excess()
    ensures { LevelsTellLeastExcess }
{}

/// Between two neighbouring breaks the least excess is that on the line between them, and above the last break it
/// is 0.
#[tactic(auto, using(crate::proofs::CurveLine::curve_is_straight))]
pub fn curve_is_straight()
    ensures { CurveIsStraight }
{}
