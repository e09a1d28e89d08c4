//! The law of stretches that are split between two operating points, as the contract of a call that does nothing.
ghost use Rattle.yds_energy.specs.SplitLaws.{OneScaleDecidesSplit};

/// Written slots that split a stretch between two points at one scale do so at each.
pub fn one_scale_decides_split()
    ensures { OneScaleDecidesSplit }
{}
