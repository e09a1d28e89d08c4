//! `trial`: jobs that are drawn from a seed, planned, and their plan checked; its numbers are told.
ghost use Rattle.std.specs.Prelude.{◌≡◌, ◌<◌, ◌≤◌, ◌∷◌, [], length, decimal, IfOk};
ghost use Rattle.base.specs.declared.limits.TheConstants.{MAX_TRIAL_JOBS};
ghost use Rattle.base.specs.Lines.{line};
ghost use Rattle.yds_model.specs.TrialAnswer.{next_state, draw, drawn_job, drawn_jobs, peak_words, TrialAnswer};
ghost use Rattle.yds_port.specs.Sink.{Puts};
ghost use Rattle.yds_answer.specs.Endings.{Replies};
ghost use Rattle.yds_answer_verdicts.specs.Trial.{tried_text, counts_text};

use crate::check::is_accepted;
use std::alloc::Global;
use text_line::LineBuffer;
use yds_answer::{Answer, reply};
use yds_certificate::Level;
use yds_checker::check;
use yds_model::{JobRow, Memory, Status};
use yds_plan::{Planned, plan};
use yds_port::{Sink, WriteFault, write_all};

/// A plan of drawn jobs, whose numbers are told.
#[derive(Drop)]
pub struct Tried {
    /// How many jobs were drawn.
    jobs: u32,
    /// Their plan.
    planned: Planned,
}

impl Answer for Tried {
    ghost use Rattle.base.specs.declared.status.Status.TheVariants as statuses;
    ghost use Rattle.yds_answer_verdicts.specs.Trial.{tried_text};

    ghost text = { tried_text };

    ghost ends = { λ _. statuses.Done };

    fn status(&self) -> Status {
        Status::Done
    }

    fn write<K: Sink>(&self, sink: &mut K) -> Result<(), WriteFault> {
        write_counts(self, sink)?;
        write_all(
            sink,
            peak_line(self.planned.certificate.levels()).as_bytes(),
        )?;
        write_all(sink, b"accepted\n")
    }
}

/// Appends the lines of a trial's counts.
fn write_counts<K: Sink>(tried: &Tried, sink: &mut K) -> Result<(), WriteFault>
    ensures { Puts K.written K.flushed K.flushes K.faults result (counts_text tried.now) sink.old sink.new }
{
    let levels = tried.planned.certificate.levels();
    let slots = tried.planned.schedule.slots();
    write_all(sink, count_line("jobs", tried.jobs as usize).as_bytes())?;
    write_all(sink, count_line("levels", levels.len()).as_bytes())?;
    write_all(sink, count_line("slots", slots.len()).as_bytes())
}

/// The line of a count.
fn count_line(what: &str, count: usize) -> LineBuffer
    requires { length what.now ≤ 6 }
    ensures { result ≡ line (what.now ∷ decimal count ∷ []) }
{
    LineBuffer::new(what).number(count as u64).end()
}

/// The line of the fastest level's work and length, in units of work and of time.
fn peak_line(levels: &[Level]) -> LineBuffer
    ensures { result ≡ line (peak_words levels.now) }
{
    match levels.first() {
        Some(level) => LineBuffer::new("peak")
            .number(level.work)
            .number(level.length)
            .end(),
        None => LineBuffer::new("peak").field("none").end(),
    }
}

/// Answers with the numbers of a plan of so many jobs drawn from the seed.
pub fn answer_trial<K: Sink>(alloc: Global, seed: u32, jobs: u32, sink: &mut K) -> Status
    requires { jobs ≤ MAX_TRIAL_JOBS }
    ensures { Replies K.written K.flushed K.flushes K.faults (TrialAnswer seed jobs) result sink.old sink.new }
{
    reply(try_plan(alloc, seed, jobs), sink)
}

/// Plans the jobs drawn from the seed, and checks the plan. That the checker accepts it is proved.
fn try_plan(alloc: Global, seed: u32, jobs: u32) -> Result<Tried, Memory>
    requires { jobs ≤ MAX_TRIAL_JOBS }
    ensures { IfOk result (λ tried. TrialAnswer seed jobs (tried_text tried) Status.Done) }
{
    let rows = sample_rows(alloc, seed, jobs)?;
    let planned = plan(alloc, &rows)?;
    match check(alloc, &rows, &planned.schedule, &planned.certificate) {
        Ok(judgement) => {
            let accepted = is_accepted(&judgement);
            prove!(accepted);
            Ok(Tried { jobs, planned })
        }
        Err(error) => Err(error),
    }
}

/// So many jobs, drawn from the seed.
fn sample_rows(alloc: Global, seed: u32, jobs: u32) -> Result<Vec<JobRow>, Memory>
    requires { jobs ≤ MAX_TRIAL_JOBS }
    ensures { IfOk result (λ rows. rows.items ≡ drawn_jobs jobs seed) }
{
    let mut generator = Generator { state: seed };
    let mut rows = Vec::new(alloc);
    for _ in 0..jobs {
        rows.push(generator.job())?;
    }
    Ok(rows)
}

/// A linear congruential generator, with the constants of Numerical Recipes. It gives numbers below 65,536,
/// the upper halves of its states.
#[derive(Drop)]
struct Generator {
    state: u32,
}

impl Generator {
    /// The next number.
    fn draw(&mut self) -> u32
        ensures state { self.new.state ≡ next_state self.old.state }
        ensures number { result ≡ draw (next_state self.old.state) }
        ensures short { result < 65536 }
    {
        let next = (1_664_525 * u64::from(self.state) + 1_013_904_223) % 4_294_967_296;
        self.state = next as u32;
        self.state / 65_536
    }

    /// The next job. Its release, its window and its work are drawn in this order.
    fn job(&mut self) -> JobRow
        ensures state { self.new.state ≡ next_state (next_state (next_state self.old.state)) }
        ensures job { result ≡ drawn_job self.old.state }
    {
        let release = 10 * self.draw();
        let deadline = release + 1 + self.draw();
        let work = 1 + self.draw();
        JobRow::new(release, deadline, work)
    }
}
