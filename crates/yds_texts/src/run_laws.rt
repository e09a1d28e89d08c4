//! The laws of the policies' runs, each as the contract of a call that does nothing.
ghost use Rattle.yds_texts.specs.RunText.{RunsAreFeasible, RunsAreRead};

/// The texts of `avr` and `oa` are short enough to be read, and are read again as the document with the run.
#[tactic(auto, using(crate::proofs::RunText::runs_are_read))]
pub fn runs_are_read()
    ensures { RunsAreRead }
{}

/// `audit` answers the texts of `avr` and `oa` with 'feasible'.
#[tactic(auto, using(crate::proofs::RunText::runs_are_feasible))]
pub fn runs_are_feasible()
    ensures { RunsAreFeasible }
{}
