ghost use Rattle.std.specs.Prelude.{◌≡◌, ◌*◌, ◌^◌, ◌<◌, ◌≤◌, sum_by, IfOk};
ghost use Rattle.std.specs.List.{All, AllZip};
ghost use Rattle.base.specs.declared.limits.TheConstants.{MAX_GRID, MAX_TIME};
ghost use Rattle.yds_model.specs.Table.{hull_of, hull_multiple};
ghost use Rattle.yds_model.specs.Rounding.{top_of};
ghost use Rattle.yds_spending.specs.Load.{IsHeldAt};
ghost use Rattle.yds_spending.specs.TimeShare.{time_share_at, IsShareOf};
ghost use Rattle.yds_spending.specs.Spent.{IsSpentOn};

use crate::load::Load;
use crate::time_share::TimeShare;
use std::alloc::Global;
use std::marker::Model;
use yds_fraction::{Amount, in_lowest_terms};
use yds_model::Memory;
use yds_table::Table;

/// What is spent on the operating points of a table, with the idle time.
#[derive(Debug, Drop)]
pub struct Spent {
    /// The energy, in lowest terms.
    pub energy: Amount,
    /// The time at each point of the table, in their order, in time units and in lowest terms.
    pub times: Vec<Amount>,
}

impl Model for Spent {
    ghost use Rattle.yds_model.specs.Comparison.{Spent as SpentOnPoints};

    ghost Value = { SpentOnPoints };

    ghost view = { λ s. record { energy = s.energy; times = s.times.items } };
}

/// How long each load runs at the points.
fn shares_of(alloc: Global, loads: &[Load], table: &Table) -> Result<Vec<TimeShare>, Memory>
    requires { All (IsHeldAt (top_of table.now)) loads.now }
    ensures { IfOk result (λ shares. AllZip (IsShareOf (hull_multiple table.now) (hull_of table.now)) loads.now shares.items) }
{
    let mut shares = Vec::with_capacity(alloc, loads.len())?;
    for load in loads {
        shares.push(TimeShare::of(*load, table))?;
    }
    Ok(shares)
}

/// The time at the point of this speed.
fn time_at(shares: &[TimeShare], speed: u32) -> u128
    requires { sum_by (λ share. time_share_at share speed) shares.now < 2 ^ 128 }
    ensures { result ≡ sum_by (λ share. time_share_at share speed) shares.now }
{
    shares.iter().map(|share| share.at(speed)).sum()
}

/// What these loads spend, of which `unit` parts make a unit: each at the points of the hull around its speed, as long at each
/// as gives that speed.
pub fn spend(alloc: Global, loads: &[Load], unit: u64, table: &Table) -> Result<Spent, Memory>
    requires some_unit { 1 ≤ unit }
    requires unit_in_range { unit ≤ MAX_GRID }
    requires time_in_range { sum_by (λ load. load.time) loads.now ≤ MAX_TIME * unit }
    requires fast_enough { All (IsHeldAt (top_of table.now)) loads.now }
    ensures { IfOk result (λ spent. IsSpentOn table.now unit loads.now spent) }
{
    let shares = shares_of(alloc, loads, table)?;
    let den = unit * table.gaps();
    let points = table.points();
    let mut times = Vec::with_capacity(alloc, points.len())?;
    let mut parts = 0;
    for point in points {
        let time = time_at(&shares, point.speed);
        parts += u128::from(point.power) * time;
        times.push(in_lowest_terms(time, den))?;
    }
    Ok(Spent {
        energy: in_lowest_terms(parts, den),
        times,
    })
}
