//! The laws of the auditor's verdicts and the checker's judgements, each as the contract of a call that does nothing.
ghost use Rattle.yds_model.specs.AuditLaws.{VerdictIsExact, TableVerdictIsExact, VerdictIsUnique};
ghost use Rattle.yds_laws.specs.AnswerLaws.{AuditAndCheckAnswerOnce};
ghost use Rattle.yds_laws.specs.Laws.{JudgementIsExact, JudgementIsUnique};

/// The verdict is 'feasible' exactly where the schedule is feasible.
pub fn verdict_is_exact()
    ensures { VerdictIsExact }
{}

/// With a table of operating points the verdict is 'feasible' exactly where besides each slot runs at the speed
/// of one of them.
pub fn table_verdict_is_exact()
    ensures { TableVerdictIsExact }
{}

/// The judgement is 'accepted' exactly where the certificate is proper for the jobs and the slots.
pub fn judgement_is_exact()
    ensures { JudgementIsExact }
{}

/// Two verdicts of the same jobs, table and slots are one.
#[tactic(auto, using(model_lemmas::proofs::OneVerdict::verdict_is_unique))]
pub fn verdict_is_unique()
    ensures { VerdictIsUnique }
{}

/// Two judgements of the same jobs, slots and levels are one.
#[tactic(auto, using(crate::proofs::OneJudgement::judgement_is_unique))]
pub fn judgement_is_unique()
    ensures { JudgementIsUnique }
{}

/// `audit`, with or without `--points`, and `check` have one answer to each input.
#[tactic(auto, using(crate::proofs::AnsweredOnce::audit_and_check_answer_once))]
pub fn audit_and_check_answer_once()
    ensures { AuditAndCheckAnswerOnce }
{}
