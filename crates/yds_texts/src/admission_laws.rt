//! The laws of admission, each as the contract of a call that does nothing.
ghost use Rattle.yds_texts.specs.AdmitText.{AdmissionsAreRead, AdmissionsAreFeasible};

/// The text that `admit` writes is short enough to be read, and is read again as a document of the admitted jobs with
/// their slots, which are feasible and nowhere faster than the top speed.
pub fn admissions_are_read()
    ensures { AdmissionsAreRead }
{}

/// `audit` answers the text that `admit` writes with `feasible`.
pub fn admission_texts_are_feasible()
    ensures { AdmissionsAreFeasible }
{}
