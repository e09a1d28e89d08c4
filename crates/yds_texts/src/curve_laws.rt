//! The law of the curve's text, as the contract of a call that does nothing.
ghost use Rattle.yds_texts.specs.CurveText.{CurvesAreLeast};

/// The text that `curve` writes tells at rising speeds, from 0 on, the least excess of the document's jobs: between two of these
/// speeds it goes in a straight line, and above the last one it is 0.
#[tactic(auto, using(crate::proofs::CurveText::curves_are_least))]
pub fn curves_are_least()
    ensures { CurvesAreLeast }
{}
