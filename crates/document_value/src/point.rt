//! The operating points of a table.

ghost use Rattle.std.specs.Prelude.{◌≡◌};
ghost use Rattle.yds_model.specs.Within.{ArePoints};
ghost use Rattle.document_value.specs.Documents.{points_of};

use yds_hull::Point;
use yds_table::Table;

/// The points of a table, where there is one.
pub fn points_in(table: &Option<Table>) -> &[Point]
    ensures value { result.now ≡ points_of table.now }
    ensures kept { ArePoints (points_of table.now) }
{
    match table {
        Some(table) => table.points(),
        None => &[],
    }
}
