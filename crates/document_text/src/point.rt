//! Prints the lines of operating points.

ghost use Rattle.std.specs.Prelude.{◌≡◌};
ghost use Rattle.std.specs.List.{flat_map};
ghost use Rattle.yds_model.specs.Text.{point_line};
ghost use Rattle.yds_port.specs.Sink.{Puts};

use crate::tail_buffer::Line;
use yds_hull::Point;
use yds_port::{Sink, WriteFault, write_all};

/// Makes the line of a point.
fn put(text: &mut Line, point: &Point)
    ensures { text.new ≡ point_line point.now }
{
    text.restart();
    text.put_number_field(u64::from(point.power));
    text.put_number_field(u64::from(point.speed));
    text.put_kind("point");
}

/// Appends the lines of the points, in their order.
pub(crate) fn print<K: Sink>(points: &[Point], sink: &mut K) -> Result<(), WriteFault>
    ensures { Puts K.written K.flushed K.flushes K.faults result (flat_map point_line points.now) sink.old sink.new }
{
    let mut line = Line::new();
    for point in points {
        put(&mut line, point);
        write_all(sink, line.as_bytes())?;
    }
    Ok(())
}
