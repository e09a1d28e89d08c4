ghost use Rattle.std.specs.Prelude.{◌≡◌, ◌+◌, ◌<◌, Some, length};
ghost use Rattle.yds_model.specs.Event.{stretches, stretch_at};
ghost use Rattle.yds_edf.specs.Queue.{pending_in};

use crate::queue::Queue;
use yds_events::Stretch;

/// What a policy sets for a stretch.
#[derive(Clone, Copy, Debug, PartialEq, Eq)]
pub struct Setting {
    /// The units that the stretch serves, where so many are pending.
    pub units: u64,
    /// Whether they were rounded up.
    pub rounds: bool,
}

/// A policy on a grid: at each event point it sets, from the jobs, the grid and the units that are pending of each
/// job, how much is served until the next one.
pub trait Policy {
    ghost use Rattle.std.specs.Prelude.{ℕ, Bool, List};
    ghost use Rattle.yds_model.specs.Job.{Job};
    ghost use Rattle.yds_model.specs.Piece.{Piece};

    // The units that a stretch of these jobs serves on this grid, where so many units of each job are pending.
    ghost units: { Self → List Job → ℕ → (ℕ → ℕ) → Piece → ℕ };

    // Whether they are rounded up.
    ghost rounds: { Self → List Job → ℕ → (ℕ → ℕ) → Piece → Bool };

    // What the policy keeps of the jobs, before the stretch with this number.
    ghost keeps: { Self → List Job → ℕ → Type 0 };

    /// What it sets for the stretch with this number, from 0, at whose start the jobs that are released by then have arrived.
    /// It is asked for each stretch once, in order.
    fn set(&mut self, number: u32, queue: &Queue, stretch: Stretch) -> Setting
        requires keeps { keeps self.old queue.now.jobs number }
        requires known { number < length (stretches queue.now.jobs) }
        requires nth { stretch ≡ stretch_at queue.now.jobs number }
        requires arrived { queue.now.time ≡ Some stretch.from }
        ensures units { result.units ≡ units self.old queue.now.jobs queue.now.grain (pending_in queue.now) stretch }
        ensures rounds { result.rounds ≡ rounds self.old queue.now.jobs queue.now.grain (pending_in queue.now) stretch }
        ensures keeps { keeps self.new queue.now.jobs (number + 1) }
        ensures units_stay { units self.new ≡ units self.old }
        ensures rounds_stay { rounds self.new ≡ rounds self.old };
}
