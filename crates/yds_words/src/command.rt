ghost use Rattle.std.specs.Prelude.{◌≡◌, ◌≤◌, option_map, IfSome};
ghost use Rattle.std.specs.Result.{result_ok};
ghost use Rattle.base.specs.Spelling.{number_at};
ghost use Rattle.base.specs.declared.limits.TheConstants.{MAX_GRID, MAX_SEED, MAX_TRIAL_JOBS};
ghost use Rattle.yds_model.specs.Request.{request_of_word, request_of_two, request_of_three, request_of_trial, request_of_grid};
ghost use Rattle.yds_words.specs.Words.{words_of, asked, request_view, IsWithinLimits};

use yds_model::limits::{MAX_GRID, MAX_SEED, MAX_TOP, MAX_TRIAL_JOBS};
use yds_text::number_of;

/// What is asked of a document.
#[derive(Clone, Copy, Debug, PartialEq, Eq)]
pub enum Question {
    /// The plan of the document's jobs, with its certificate.
    Plan,
    /// The plan of the document's jobs on its operating points, with the energy.
    Round,
    /// The run of Average Rate on a grid.
    AverageRate {
        /// The works of the run are multiples of one part in so many.
        grid: u32,
    },
    /// The run of Optimal Available on a grid.
    OptimalAvailable {
        /// The works of the run are multiples of one part in so many.
        grid: u32,
    },
    /// Whether the document's levels show that its slots are least.
    Check,
    /// Whether the document's slots are feasible for its jobs.
    Audit {
        /// Whether each slot has also to run at the speed of one of the document's operating points.
        points: bool,
    },
    /// The levels of a plan of the document's jobs.
    Report {
        /// Whether as a line of JSON, in place of a table.
        json: bool,
    },
    /// The curve of least excess of the document's jobs.
    Curve,
    /// What the plan and the runs of both policies on a grid spend on the document's operating points.
    Compare {
        /// The works of the runs are multiples of one part in so many.
        grid: u32,
    },
    /// The jobs that a processor of this top speed can serve, in work per time unit.
    Admit {
        /// The top speed, from 1 to `MAX_TOP`.
        top: u32,
    },
}

/// What the words of the command line ask for.
#[derive(Clone, Copy, Debug, PartialEq, Eq)]
pub enum Command {
    /// The answer to a question about the document in the input.
    Document(Question),
    /// The jobs of the periodic tasks in the input.
    Expand,
    /// The numbers of a plan of drawn jobs, for which nothing is read.
    Trial {
        /// The number from which the jobs are drawn.
        seed: u32,
        /// How many jobs are drawn.
        jobs: u32,
    },
}

impl Command {
    /// The command that the words name, without the program's name among them. None where they name no
    /// command. It takes no memory.
    pub fn of(words: &[String]) -> Option<Command>
        ensures asked { option_map request_view result ≡ asked (words_of words.now) }
        ensures within { IfSome result IsWithinLimits }
    {
        match words {
            [word] => of_word(word.as_str()),
            [word, next] => of_two(word.as_str(), next.as_str()),
            [word, next, last] => of_three(word.as_str(), next.as_str(), last.as_str()),
            _ => None,
        }
    }
}

/// The command of one word.
fn of_word(word: &str) -> Option<Command>
    ensures asked { option_map request_view result ≡ request_of_word word.now }
    ensures within { IfSome result IsWithinLimits }
{
    match word {
        "plan" => Some(Command::Document(Question::Plan)),
        "round" => Some(Command::Document(Question::Round)),
        "check" => Some(Command::Document(Question::Check)),
        "audit" => Some(Command::Document(Question::Audit { points: false })),
        "report" => Some(Command::Document(Question::Report { json: false })),
        "curve" => Some(Command::Document(Question::Curve)),
        "expand" => Some(Command::Expand),
        _ => None,
    }
}

/// The command of a word and what follows it.
fn of_two(word: &str, next: &str) -> Option<Command>
    ensures asked { option_map request_view result ≡ request_of_two word.now next.now }
    ensures within { IfSome result IsWithinLimits }
{
    match (word, next) {
        ("audit", "--points") => Some(Command::Document(Question::Audit { points: true })),
        ("report", "--json") => Some(Command::Document(Question::Report { json: true })),
        ("admit", _) => {
            let top = number_in(next, 1, MAX_TOP)?;
            Some(Command::Document(Question::Admit { top }))
        }
        _ => None,
    }
}

/// The command of three words: a trial, with its seed and its number of jobs, or a command of the policies with its grid.
fn of_three(word: &str, next: &str, last: &str) -> Option<Command>
    ensures asked { option_map request_view result ≡ request_of_three word.now next.now last.now }
    ensures within { IfSome result IsWithinLimits }
{
    match (word, next) {
        ("trial", _) => of_trial(next, last),
        (_, "--grid") => of_grid(word, last),
        _ => None,
    }
}

/// A trial of this seed and number of jobs.
fn of_trial(seed: &str, jobs: &str) -> Option<Command>
    ensures asked { option_map request_view result ≡ request_of_trial (number_at 0 MAX_SEED seed.now) (number_at 0 MAX_TRIAL_JOBS jobs.now) }
    ensures within { IfSome result IsWithinLimits }
{
    let seed = number_in(seed, 0, MAX_SEED)?;
    let jobs = number_in(jobs, 0, MAX_TRIAL_JOBS)?;
    Some(Command::Trial { seed, jobs })
}

/// The command of a word that a grid follows.
fn of_grid(word: &str, grid: &str) -> Option<Command>
    ensures asked { option_map request_view result ≡ request_of_grid word.now (number_at 1 MAX_GRID grid.now) }
    ensures within { IfSome result IsWithinLimits }
{
    let grid = number_in(grid, 1, MAX_GRID)?;
    match word {
        "avr" => Some(Command::Document(Question::AverageRate { grid })),
        "oa" => Some(Command::Document(Question::OptimalAvailable { grid })),
        "compare" => Some(Command::Document(Question::Compare { grid })),
        _ => None,
    }
}

/// The number that a word spells, at least `least` and at most `most`.
fn number_in(word: &str, least: u32, most: u32) -> Option<u32>
    ensures number { result ≡ result_ok (number_at least most word.now) }
    ensures within { IfSome result (λ number. (least ≤ number) × (number ≤ most)) }
{
    let number = number_of(word.as_bytes(), u64::from(least), u64::from(most)).ok()?;
    Some(number as u32)
}
