ghost use Rattle.std.specs.Prelude.{◌≡◌, ◌*◌, ◌<◌, ◌≤◌, ◌↔◌, [], ◌∷◌, ◌++◌, length, IsNone, IfSome, IfOk, OnOk, IfErr, OnErr, MatchOption};
ghost use Rattle.std.specs.List.{All};
ghost use Rattle.base.specs.declared.limits.TheConstants.{MAX_POINTS, MAX_GAPS};
ghost use Rattle.yds_model.specs.Table.{point_at, AreRising, IsHullOf, hull_of, hull_multiple};
ghost use Rattle.yds_model.specs.Within.{IsPoint};
ghost use Rattle.yds_table.specs.Table.{IsPointTable, last_of};
ghost use Rattle.yds_table.specs.Around.{IsAboveTop, AreAround, IsPointBelow, IsFirstAtLeast};
ghost use Rattle.yds_table.specs.Fault.{IsCauseAtFirst, IsCause};

use crate::fault::TableFault;
use crate::gaps::multiple_of_gaps;
use std::alloc::Global;
use std::marker::Model;
use yds_fraction::Speed;
use yds_hull::{Point, hull};
use yds_model::Memory;

/// A table of operating points: at least one and at most `MAX_POINTS`, the first of speed 0, their speeds
/// rising.
///
/// For each front of the points the gaps between the speeds of its lower hull have a least common multiple of
/// at most `MAX_GAPS`.
#[derive(Drop)]
pub struct Table {
    points: Vec<Point>,
    hull: Vec<Point>,
    gaps: u64,
}

impl Model for Table {
    ghost use Rattle.std.specs.Prelude.{List};
    ghost use Rattle.yds_model.specs.Table.{Point as TablePoint};
    ghost use Rattle.yds_table.specs.KeptTable.{IsKept};

    ghost Value = { List TablePoint };

    ghost view = { λ t. t.points.items };

    ghost invariant = { λ t. IsKept t.points.items t.hull.items t.gaps };
}

/// The points, and this one after them.
fn with_point(alloc: Global, points: &[Point], point: Point) -> Result<Vec<Point>, Memory>
    ensures { IfOk result (λ all. all.items ≡ points.now ++ point ∷ []) }
{
    let mut all = Vec::from_slice(alloc, points)?;
    all.push(point)?;
    Ok(all)
}

/// The place of the first point that is at least as fast as this.
fn first_at_least(points: &[Point], speed: Speed) -> Option<usize>
    ensures { MatchOption result (All (IsPointBelow speed) points.now) (IsFirstAtLeast points.now speed) }
{
    for (place, point) in points.iter().enumerate() {
        if speed.num() <= u64::from(point.speed) * speed.den() {
            return Some(place);
        }
    }
    None
}

impl Table {
    /// The table of this one point, at which the processor is idle.
    pub fn new(alloc: Global, first: Point) -> Result<Table, TableFault>
        ensures ok { IfOk result (λ table. (first.speed ≡ 0) × (table ≡ first ∷ [])) }
        ensures err { IfErr result (IsCauseAtFirst first) }
    {
        if first.speed != 0 {
            return Err(TableFault::NoIdle);
        }
        Ok(Table {
            points: with_point(alloc, &[], first)?,
            hull: with_point(alloc, &[], first)?,
            gaps: 1,
        })
    }

    /// The points, by rising speed.
    pub fn points(&self) -> &[Point]
        ensures value { result.now ≡ self.now }
        ensures kept { IsPointTable self.now }
    {
        self.points.as_slice()
    }
    /// Puts the point last.
    pub fn push(&mut self, point: Point) -> Result<(), TableFault>
        requires { length self.old < MAX_POINTS }
        ensures ok { OnOk result (self.new ≡ self.old ++ point ∷ []) }
        ensures err { IfErr result (IsCause self.old point) }
        ensures unchanged { OnErr result (self.new ≡ self.old) }
    {
        if point.speed <= self.top() {
            return Err(TableFault::NotRising);
        }
        let alloc = *self.points.allocator();
        let points = with_point(alloc, &self.points, point)?;
        let lower = hull(alloc, &points)?;
        let Some(gaps) = multiple_of_gaps(&lower) else {
            return Err(TableFault::GapsTooFine);
        };
        *self = Table {
            points,
            hull: lower,
            gaps,
        };
        Ok(())
    }

    /// The lower hull of the points, by rising speed.
    pub fn hull(&self) -> &[Point]
        ensures value { result.now ≡ hull_of self.now }
        ensures hull { IsHullOf self.now result.now }
        ensures rising { AreRising result.now }
        ensures some { 1 ≤ length result.now }
        ensures few { length result.now ≤ length self.now }
        ensures first { point_at result.now 0 ≡ point_at self.now 0 }
        ensures last { last_of result.now ≡ last_of self.now }
        ensures limits { All IsPoint result.now }
    {
        self.hull.as_slice()
    }

    /// The greatest speed, in work per time unit.
    pub fn top(&self) -> u32
        ensures { result ≡ (last_of self.now).speed }
    {
        let last = &self.points[self.points.len() - 1];
        last.speed
    }

    /// The least common multiple of the gaps between the speeds of the lower hull, 1 for one point.
    pub fn gaps(&self) -> u64
        ensures value { result ≡ hull_multiple self.now }
        ensures some { 1 ≤ result }
        ensures within { result ≤ MAX_GAPS }
    {
        self.gaps
    }
    /// The points of the hull around the speed: twice the point that has it, or else the neighbours in the hull
    /// below and above it. None exactly where the speed is above that of the last point.
    pub fn around(&self, speed: Speed) -> Option<(&Point, &Point)>
        ensures above { IsNone result ↔ IsAboveTop self.now speed }
        ensures around { IfSome result (λ points. AreAround (hull_of self.now) speed points.0.now points.1.now) }
    {
        let place = first_at_least(&self.hull, speed)?;
        let high = &self.hull[place];
        if u64::from(high.speed) * speed.den() == speed.num() {
            return Some((high, high));
        }
        Some((&self.hull[place - 1], high))
    }
}
