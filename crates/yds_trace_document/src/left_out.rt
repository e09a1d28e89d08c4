//! Why most jobs aren't written, where none is.
ghost use Rattle.std.specs.Prelude.{◌≡◌, count_by, nat_le};
ghost use Rattle.std.specs.List.{list_all};
ghost use Rattle.yds_trace_document.specs.LeftOut as spec;
ghost use Rattle.yds_trace_document.specs.Views.{judged_read, judged_list, count_in};

use crate::fault::LeftOut;
use crate::judged::Judged;
use yds_trace::Reason;

/// How many jobs have each reason.
#[derive(Clone, Copy, Debug)]
struct Counts {
    before_from: usize,
    after_to: usize,
    not_ended: usize,
    events_lost: usize,
    switch_missing: usize,
    begin_unseen: usize,
    due_before: usize,
    moved: usize,
    speed_unknown: usize,
}

impl Counts {
    /// Of these jobs.
    fn new(judged: &[Judged<'_>]) -> Counts
        ensures { count_in result ≡ spec.count_for (judged_list judged.now) }
    {
        Counts {
            before_from: count_for(judged, Reason::BeforeFrom),
            after_to: count_for(judged, Reason::AfterTo),
            not_ended: count_for(judged, Reason::NotEnded),
            events_lost: count_for(judged, Reason::EventsLost),
            switch_missing: count_for(judged, Reason::SwitchMissing),
            begin_unseen: count_for(judged, Reason::BeginUnseen),
            due_before: count_for(judged, Reason::DueBefore),
            moved: count_for(judged, Reason::Moved),
            speed_unknown: count_for(judged, Reason::SpeedUnknown),
        }
    }

    /// How many have this reason.
    fn of(&self, reason: Reason) -> usize
        ensures { result ≡ count_in self.now reason }
    {
        match reason {
            Reason::BeforeFrom => self.before_from,
            Reason::AfterTo => self.after_to,
            Reason::NotEnded => self.not_ended,
            Reason::EventsLost => self.events_lost,
            Reason::SwitchMissing => self.switch_missing,
            Reason::BeginUnseen => self.begin_unseen,
            Reason::DueBefore => self.due_before,
            Reason::Moved => self.moved,
            Reason::SpeedUnknown => self.speed_unknown,
        }
    }

    /// Whether no reason is that of more than so many jobs.
    fn is_most(&self, count: usize) -> bool
        ensures { result ≡ list_all (λ other. nat_le (count_in self.now other) count) spec.every_reason }
    {
        self.before_from <= count
            && self.after_to <= count
            && self.not_ended <= count
            && self.events_lost <= count
            && self.switch_missing <= count
            && self.begin_unseen <= count
            && self.due_before <= count
            && self.moved <= count
            && self.speed_unknown <= count
    }
}

/// Whether a job has this reason.
fn is_for(reason: Reason, judged: &Judged<'_>) -> bool
    ensures { result ≡ spec.is_for reason (judged_read judged.now).reason }
{
    judged.reason == Some(reason)
}

/// How many of these jobs have this reason.
fn count_for(judged: &[Judged<'_>], reason: Reason) -> usize
    ensures { result ≡ count_by (λ one. spec.is_for reason (judged_read one).reason) judged.now }
{
    judged.iter().filter(|one| is_for(reason, one)).count()
}

/// Of the most frequent reasons that of the first of these jobs that has one.
fn first_frequent(counts: &Counts, judged: &[Judged<'_>]) -> Option<Reason>
    ensures { result ≡ spec.first_frequent (count_in counts.now) (judged_list judged.now) }
{
    for one in judged {
        if let Some(reason) = one.reason {
            if counts.is_most(counts.of(reason)) {
                return Some(reason);
            }
        }
    }
    None
}

/// Why most of these jobs aren't written. It takes no memory.
pub(crate) fn most_left_out(judged: &[Judged<'_>]) -> Option<LeftOut>
    ensures { result ≡ spec.most_left_out (judged_list judged.now) }
{
    let counts = Counts::new(judged);
    match first_frequent(&counts, judged) {
        Some(reason) => Some(LeftOut {
            reason,
            count: counts.of(reason),
            all: judged.len(),
        }),
        None => None,
    }
}
