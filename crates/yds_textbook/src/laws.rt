ghost use Rattle.yds_textbook.specs.Theorem.{StagesMakeAPlan};

/// The theorem of Yao, Demers and Shenker (FOCS 1995): the slots and levels that are laid from the textbook's stages, critical interval
/// after critical interval, are a plan.
pub fn stages_make_a_plan()
    ensures { StagesMakeAPlan }
{}
