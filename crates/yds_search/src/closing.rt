ghost use Rattle.std.specs.Prelude.{◌≡◌, ℕ, ◌*◌, ◌^◌, ◌<◌, ◌≤◌, length, OnOk};
ghost use Rattle.std.specs.List.{All};
ghost use Rattle.base.specs.declared.limits.TheConstants.{MAX_JOBS};
ghost use Rattle.yds_search.specs.Cells.{lates_of, shared_of};
ghost use Rattle.yds_search.specs.Closure.{AreMarksOf, AreRanks};

use crate::filling::Cell;
use std::alloc::Global;
use yds_model::Memory;

/// What the late jobs of a group close upon. Stretches go by their places in the group.
#[derive(Debug, Drop)]
pub(crate) struct Closing {
    /// For each stretch 1 where late jobs close upon it, directly or through shares, and 0 elsewhere.
    pub marks: Vec<u32>,
    /// For each place how many of the stretches before it are closed upon. There is one more place after the last stretch.
    pub ranks: Vec<u32>,
}

/// Which stretches are closed upon: those that late jobs reach from the right, directly or through shares.
fn set_marks(cells: &[Cell], marks: &mut [u32])
    requires count { length marks.old ≡ length cells.now }
    requires fits { length marks.old < 2 ^ 32 }
    ensures { AreMarksOf (lates_of cells.now) (shared_of cells.now) (length marks.old) marks.new }
{
    let mut least = marks.len() as u32;
    for place in (0..marks.len()).rev() {
        let stretch = place as u32;
        let cell = cells[place];
        least = least.min(cell.late);
        marks[place] = 0;
        if least <= stretch {
            least = least.min(cell.shared);
            marks[place] = 1;
        }
    }
}

/// For each place the sum of the marks before it.
pub(crate) fn rank(marks: &[u32], ranks: &mut Vec<u32>) -> Result<(), Memory>
    requires few { length marks.now ≤ 2 * MAX_JOBS }
    requires marks { All (λ mark. mark ≤ 1) marks.now }
    ensures { OnOk result (AreRanks marks.now ranks.new.items) }
{
    ranks.clear();
    ranks.resize(marks.len() + 1, 0)?;
    let mut count = 0;
    for (place, mark) in marks.iter().enumerate() {
        count += *mark;
        ranks[place + 1] = count;
    }
    Ok(())
}

impl Closing {
    /// Nothing is closed upon yet, and there is room for so many stretches.
    pub(crate) fn new(alloc: Global, stretches: usize) -> Result<Closing, Memory>
        requires { stretches ≤ 2 * MAX_JOBS }
    {
        Ok(Closing {
            marks: Vec::with_capacity(alloc, stretches)?,
            ranks: Vec::with_capacity(alloc, stretches + 1)?,
        })
    }

    /// The marks and ranks of the stretches, after a fill.
    pub(crate) fn close(&mut self, cells: &[Cell]) -> Result<(), Memory>
        requires few { length cells.now ≤ 2 * MAX_JOBS }
        ensures closed { OnOk result (AreMarksOf (lates_of cells.now) (shared_of cells.now) (length cells.now) self.new.marks.items) }
        ensures marks { OnOk result (All (λ mark. mark ≤ 1) self.new.marks.items) }
        ensures count { OnOk result (length self.new.marks.items ≡ length cells.now) }
        ensures ranks { OnOk result (AreRanks self.new.marks.items self.new.ranks.items) }
    {
        self.marks.clear();
        self.marks.resize(cells.len(), 0)?;
        set_marks(cells, &mut self.marks);
        rank(&self.marks, &mut self.ranks)
    }
}
