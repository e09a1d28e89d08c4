ghost use Rattle.std.specs.Prelude.{◌≡◌, ◌≤◌, sum_by, IfOk};
ghost use Rattle.yds_spending.specs.Load.{level_loads};

use std::alloc::Global;
use yds_certificate::Level;
use yds_model::Memory;

/// Time in which work is done at one speed, both in parts of one in so many.
#[derive(Clone, Copy, Debug)]
pub struct Load {
    /// The time, in parts of a time unit.
    pub time: u64,
    /// The work, in parts of a unit of work.
    pub work: u64,
}

/// What the levels do in so much time, in whole units, and the time in which none of them runs.
pub(crate) fn loads_of_levels(
    alloc: Global,
    levels: &[Level],
    time: u64,
) -> Result<Vec<Load>, Memory>
    requires { sum_by (λ level. level.length) levels.now ≤ time }
    ensures { IfOk result (λ loads. loads.items ≡ level_loads levels.now time) }
{
    let mut loads = Vec::new(alloc);
    let mut rest = time;
    for level in levels {
        loads.push(Load {
            time: level.length,
            work: level.work,
        })?;
        rest -= level.length;
    }
    loads.push(Load {
        time: rest,
        work: 0,
    })?;
    Ok(loads)
}
