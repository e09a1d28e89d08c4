//! The grid of a policy run.

ghost use Rattle.std.specs.Prelude.{MatchOption};
ghost use Rattle.yds_model.specs.Within.{IsGrid};

use std::marker::Model;

/// The grid of a policy run, and at how many event points the run rounded.
///
/// The grid is from 1 to `MAX_GRID`, and the count at most `MAX_ROUNDED`.
#[derive(Clone, Copy, Debug, PartialEq, Eq)]
pub struct Grid {
    /// The works of the run are multiples of one part in so many.
    pub grid: u32,
    /// At how many event points the run rounded.
    pub rounded: u32,
}

impl Model for Grid {
    ghost use Rattle.yds_model.specs.Document.{Grid as GridOfRun};
    ghost use Rattle.yds_model.specs.Within.{IsGrid};

    ghost Value = { GridOfRun };

    ghost view = { λ g. record { grid = g.grid; rounded = g.rounded } };

    ghost invariant = { λ g. IsGrid (record { grid = g.grid; rounded = g.rounded }) };

    ghost inverse = { λ g. record { grid = g.grid; rounded = g.rounded } };
}

/// Reading a grid shows that it is within its limits.
pub(crate) fn show_limits(grid: Option<Grid>)
    ensures { MatchOption grid (Unit {0}) IsGrid }
{
    if let Some(grid) = grid {
        let _grid = grid.grid;
    }
}
