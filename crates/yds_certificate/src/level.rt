ghost use Rattle.std.specs.Prelude.{◌≡◌, ◌+◌, ◌*◌, ◌<◌, ◌≤◌, ◌↔◌, length, IsTrue, IfOk};
ghost use Rattle.yds_certificate.specs.Merging.{IsOrderly, IsNewTo, FitsBeside, AreTogether};

use crate::merging::{by_start, in_order, join_touching};
use crate::piece::Piece;
use std::alloc::Global;
use std::marker::Model;
use yds_fraction::Speed;
use yds_model::Memory;

/// A level of a certificate: its members have so much work together, and are served at one speed, the work
/// over the length, in pieces of time of that length together.
///
/// The work is from 1 to `MAX_LEVEL_WORK` and the length from 1 to `MAX_LEVEL_LENGTH`. That they are those
/// of the members and the pieces isn't kept, since foreign levels are read too.
#[derive(Debug, Drop)]
pub struct Level {
    /// The work of the members together, in units of work.
    pub work: u64,
    /// The length of the pieces together, in time units.
    pub length: u64,
    /// The time in which the members are served.
    pub pieces: Vec<Piece>,
    /// The numbers of the members' jobs, from 0.
    pub members: Vec<u32>,
}

impl Model for Level {
    ghost use Rattle.yds_model.specs.Level.{Level as LevelOfPlan};
    ghost use Rattle.yds_model.specs.Within.{IsLevel};

    ghost Value = { LevelOfPlan };

    ghost view = { λ l. record { work = l.work; length = l.length; pieces = l.pieces.items; members = l.members.items } };

    ghost invariant = { λ l. IsLevel (record { work = l.work; length = l.length; pieces = l.pieces.items; members = l.members.items }) };
}

impl Level {
    /// The speed at which the members are served.
    pub fn speed(&self) -> Speed
        ensures { result ≡ record { num = self.now.work; den = self.now.length } }
    {
        Speed::new(self.work, self.length)
    }

    /// Whether that speed is greater than this one.
    pub(crate) fn is_above(&self, speed: Speed) -> bool
        ensures { IsTrue result ↔ (speed.num * self.now.length < self.now.work * speed.den) }
    {
        speed < self.speed()
    }
    /// The two levels together, served at once: works and lengths added, the pieces of both with touching ones
    /// joined, and the members of both.
    pub(crate) fn with(&self, alloc: Global, other: &Level) -> Result<Level, Memory>
        requires orderly { IsOrderly self.now }
        requires other_orderly { IsOrderly other.now }
        requires apart { IsNewTo other.now self.now.pieces self.now.members }
        requires fits { FitsBeside self.now other.now }
        ensures together { IfOk result (AreTogether self.now other.now) }
        ensures few_pieces { IfOk result (λ both. length both.pieces ≤ length self.now.pieces + length other.now.pieces) }
    {
        let pieces = by_start(alloc, &self.pieces, &other.pieces)?;
        Ok(Level {
            work: self.work + other.work,
            length: self.length + other.length,
            pieces: join_touching(alloc, &pieces)?,
            members: in_order(alloc, &self.members, &other.members)?,
        })
    }
}
