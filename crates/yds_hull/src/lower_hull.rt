ghost use Rattle.std.specs.Prelude.{◌≡◌, ℕ, ◌-◌, ◌<◌, ◌≤◌, ◌↔◌, List, [], ◌∷◌, ◌++◌, length, IsTrue, IfOk, vec_len};
ghost use Rattle.std.specs.List.{All};
ghost use Rattle.yds_model.specs.Table.{point_at, AreRising, IsAbove, IsConvex, IsPartOf, IsHullOf};
ghost use Rattle.yds_model.specs.Within.{IsPoint};
ghost use Rattle.yds_hull.specs.Ends.{EndsAbove, StaysPart};

use crate::operating_point::Point;
use std::alloc::Global;
use yds_model::Memory;
use yds_model::limits::MAX_POINTS;

/// Whether `point` lies strictly above the line from `low` to `high`, whose speeds are around its own.
fn is_above(low: &Point, high: &Point, point: &Point) -> bool
    requires faster { low.now.speed < point.now.speed }
    requires slower { point.now.speed < high.now.speed }
    ensures { IsTrue result ↔ IsAbove low.now high.now point.now }
{
    let line = u64::from(low.power) * u64::from(high.speed - point.speed)
        + u64::from(high.power) * u64::from(point.speed - low.speed);
    line < u64::from(point.power) * u64::from(high.speed - low.speed)
}

/// Whether the hull's last point lies above the line from the one before it to `next`.
fn ends_above(hull: &[Point], next: &Point) -> bool
    requires { AreRising (hull.now ++ next.now ∷ []) }
    ensures { IsTrue result ↔ EndsAbove hull.now next.now }
{
    match hull {
        [.., low, last] => is_above(low, next, last),
        _ => false,
    }
}

/// Takes the points off the hull's end that lie above the line from the one before them to `next`.
fn pop_above(hull: &mut Vec<Point>, next: &Point)
    requires rising { AreRising (hull.old.items ++ next.now ∷ []) }
    requires convex { IsConvex hull.old.items }
    ensures part { StaysPart hull.old.items hull.new.items next.now }
    ensures convex { IsConvex (hull.new.items ++ next.now ∷ []) }
    ensures limits { All IsPoint hull.old.items → All IsPoint hull.new.items }
{
    while ends_above(hull, next) {
        let _above = hull.pop();
    }
}

/// The lower hull of points of rising speed: the part of them, in order, that has the first and the
/// last, whose slopes don't fall, and that leaves out just the points strictly above the line between
/// their neighbours in it. A point on such a line is kept, so a table whose slopes never fall is its
/// own hull.
///
/// Fails for want of memory alone.
pub fn hull(alloc: Global, points: &[Point]) -> Result<Vec<Point>, Memory>
    requires some { 1 ≤ length points.now }
    requires few { length points.now ≤ MAX_POINTS }
    requires rising { AreRising points.now }
    ensures hull { IfOk result (λ hull. IsHullOf points.now hull.items) }
    ensures rising { IfOk result (λ hull. AreRising hull.items) }
    ensures some { IfOk result (λ hull. 1 ≤ vec_len hull) }
    ensures few { IfOk result (λ hull. vec_len hull ≤ length points.now) }
    ensures first { IfOk result (λ hull. point_at hull.items 0 ≡ point_at points.now 0) }
    ensures last { IfOk result (λ hull. point_at hull.items (length hull.items - 1) ≡ point_at points.now (length points.now - 1)) }
    ensures limits { IfOk result (λ hull. All IsPoint hull.items) }
{
    let mut hull = Vec::new(alloc);
    for point in points {
        // Reading a field shows that the point is within the limits.
        let _speed = point.speed;
        pop_above(&mut hull, point);
        hull.push(*point)?;
    }
    Ok(hull)
}

#[cfg(test)]
mod tests {
    use super::*;
    use std::test::Fail;

    #[test]
    fn a_point_above_the_line_is_left_out(rt: HostRuntime) -> Result<(), Fail> {
        let [idle, above, middle, top] = [
            Point::new(0, 0),
            Point::new(1, 3),
            Point::new(2, 4),
            Point::new(4, 10),
        ];
        let lower = hull(rt.alloc(), &[idle, above, middle, top])?;
        assert_eq!(rt; lower.as_slice(), [idle, middle, top].as_slice());
        Ok(())
    }
}
