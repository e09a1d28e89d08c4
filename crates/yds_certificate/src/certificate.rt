ghost use Rattle.std.specs.Prelude.{◌≡◌, ◌+◌, ◌<◌, ◌≤◌, [], ◌∷◌, ◌++◌, ◌↔◌, length, IsTrue, OnOk, OnErr};
ghost use Rattle.std.specs.List.{All};
ghost use Rattle.base.specs.declared.limits.TheConstants.{MAX_LEVELS, MAX_PIECES, MAX_MEMBERS};
ghost use Rattle.yds_model.specs.Level.{all_members, all_pieces, levels_above};
ghost use Rattle.yds_model.specs.Within.{IsLevel};
ghost use Rattle.yds_certificate.specs.Level.{with_piece, with_member};
ghost use Rattle.yds_certificate.specs.Certificate.{IsCertificate, with_last};
ghost use Rattle.yds_certificate.specs.Merging.{IsOrderly, IsNewTo, CanFollow, HasSpeedOfLast, JoinsLast, last_level};

use crate::level::Level;
use crate::piece::Piece;
use std::alloc::Global;
use std::marker::Model;
use yds_fraction::Speed;
use yds_model::Memory;

/// A certificate: levels, in their order.
///
/// It has at most `MAX_LEVELS` levels, and in all at most `MAX_PIECES` pieces and `MAX_MEMBERS` members.
#[derive(Drop)]
pub struct Certificate {
    levels: Vec<Level>,
}

impl Model for Certificate {
    ghost use Rattle.std.specs.Prelude.{List};
    ghost use Rattle.yds_model.specs.Level.{Level as LevelOfPlan};
    ghost use Rattle.yds_certificate.specs.Certificate.{IsCertificate};

    ghost Value = { List LevelOfPlan };

    ghost view = { λ c. c.levels.items };

    ghost invariant = { λ c. IsCertificate c.levels.items };
}

/// Whether there is a last level, and it has the speed of this one.
fn has_speed_of_last(levels: &[Level], level: &Level) -> bool
    ensures { IsTrue result ↔ HasSpeedOfLast levels.now level.now }
{
    match levels {
        [.., last] => last.speed() == level.speed(),
        [] => false,
    }
}

/// Shows that each level is within its limits, which is what a level keeps: reading it shows so.
fn read_levels(levels: &[Level])
    ensures { All IsLevel levels.now }
{
    for level in levels {
        let _work = level.work;
    }
}

impl Certificate {
    /// No levels.
    pub fn new(alloc: Global) -> Certificate
        ensures { result ≡ [] }
    {
        Certificate {
            levels: Vec::new(alloc),
        }
    }

    /// These levels, in their order.
    pub fn from_levels(levels: Vec<Level>) -> Certificate
        requires few { length levels.items ≤ MAX_LEVELS }
        requires few_pieces { length (all_pieces levels.items) ≤ MAX_PIECES }
        requires few_members { length (all_members levels.items) ≤ MAX_MEMBERS }
        ensures { result ≡ levels.items }
    {
        read_levels(&levels);
        Certificate { levels }
    }

    /// The levels, in their order.
    pub fn levels(&self) -> &[Level]
        ensures value { result.now ≡ self.now }
        ensures kept { IsCertificate self.now }
    {
        self.levels.as_slice()
    }

    /// Puts the level last.
    pub fn push(&mut self, level: Level) -> Result<(), Memory>
        requires room { length self.old < MAX_LEVELS }
        requires room_for_pieces { length (all_pieces self.old) + length level.pieces ≤ MAX_PIECES }
        requires room_for_members { length (all_members self.old) + length level.members ≤ MAX_MEMBERS }
        ensures ok { OnOk result (self.new ≡ self.old ++ level ∷ []) }
        ensures err { OnErr result (self.new ≡ self.old) }
    {
        // Reading a field shows that the level is within its limits.
        let _work = level.work;
        self.levels.push(level)?;
        Ok(())
    }

    /// Puts the level last, or joins it to the last one where both have the same speed.
    ///
    /// Joined, their works and lengths are added, their pieces rise and don't touch, and their members rise.
    pub fn push_merging(&mut self, level: Level) -> Result<(), Memory>
        requires room { length self.old < MAX_LEVELS }
        requires room_for_pieces { length (all_pieces self.old) + length level.pieces ≤ MAX_PIECES }
        requires room_for_members { length (all_members self.old) + length level.members ≤ MAX_MEMBERS }
        requires orderly { IsOrderly level }
        requires new { IsNewTo level (all_pieces self.old) (all_members self.old) }
        requires follows { 1 ≤ length self.old → CanFollow (last_level self.old) level }

        ensures same_speed { OnOk result (HasSpeedOfLast self.old level → JoinsLast self.old level self.new) }
        ensures other_speed { OnOk result (¬ (HasSpeedOfLast self.old level) → self.new ≡ self.old ++ level ∷ []) }
        ensures err { OnErr result (self.new ≡ self.old) }
    {
        if !has_speed_of_last(&self.levels, &level) {
            return self.push(level);
        }
        let place = self.levels.len() - 1;
        let both = self.levels[place].with(*self.levels.allocator(), &level)?;
        // Reading a field shows that the level is within its limits.
        let _work = both.work;
        self.levels[place] = both;
        Ok(())
    }

    /// Puts the piece last in the last level.
    pub fn piece(&mut self, piece: Piece) -> Result<(), Memory>
        requires some { 1 ≤ length self.old }
        requires room { length (all_pieces self.old) < MAX_PIECES }
        ensures ok { OnOk result (self.new ≡ with_last (with_piece piece) self.old) }
        ensures err { OnErr result (self.new ≡ self.old) }
    {
        let _from = piece.from;
        let last = self.levels.len() - 1;
        let level = &mut self.levels[last];
        level.pieces.push(piece)?;
        Ok(())
    }

    /// Puts the job last among the members of the last level.
    pub fn member(&mut self, job: u32) -> Result<(), Memory>
        requires some { 1 ≤ length self.old }
        requires room { length (all_members self.old) < MAX_MEMBERS }
        ensures ok { OnOk result (self.new ≡ with_last (with_member job) self.old) }
        ensures err { OnErr result (self.new ≡ self.old) }
    {
        let last = self.levels.len() - 1;
        let level = &mut self.levels[last];
        level.members.push(job)?;
        Ok(())
    }

    /// The first levels, as long as their speeds exceed the threshold.
    pub fn prefix(&self, threshold: Speed) -> &[Level]
        ensures { result.now ≡ levels_above threshold.num threshold.den self.now }
    {
        let mut end = 0;
        for level in &self.levels {
            if !level.is_above(threshold) {
                break;
            }
            end += 1;
        }
        &self.levels[..end]
    }
}
