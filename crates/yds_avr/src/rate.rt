ghost use Rattle.std.specs.Prelude.{◌≡◌, ◌≤◌, ◌*◌, ◌%◌, ◌==◌, not};
ghost use Rattle.yds_model.specs.Policy.{div_up};
ghost use Rattle.yds_avr.specs.Rate.{rate_of, window_length, IsRate};

use yds_model::JobRow;
use yds_model::limits::MAX_GRID;

/// The parts of a unit in which a fraction is counted: `2^64`.
const PARTS: u128 = 18_446_744_073_709_551_616;

/// A job's window, in time units, and its units by the window's length.
#[derive(Clone, Copy, Debug)]
pub(crate) struct Rate {
    pub(crate) release: u32,
    pub(crate) deadline: u32,
    /// The whole units of a time unit.
    pub(crate) whole: u64,
    /// The units that are left, fewer than the window is long.
    pub(crate) rest: u64,
    /// Those by the window's length, in parts of a unit, rounded down.
    pub(crate) fraction: u64,
}

/// The rate of a job of `grid * work` units.
pub(crate) fn rate_of(row: &JobRow, grid: u32) -> Rate
    requires { grid ≤ MAX_GRID }
    ensures { result ≡ rate_of grid row.now }
{
    let window = u64::from(row.deadline - row.release);
    let units = u64::from(grid) * u64::from(row.work);
    let rest = units % window;
    Rate {
        release: row.release,
        deadline: row.deadline,
        whole: units / window,
        rest,
        fraction: (u128::from(rest) * PARTS / u128::from(window)) as u64,
    }
}

/// What a job has, beyond the whole units of each time unit, in so many time units of its window: rounded up, by a product in
/// place of a quotient.
pub(crate) fn rest_of(rate: &Rate, length: u64) -> u64
    requires rate { IsRate rate.now }
    requires within { length ≤ window_length rate.now }
    ensures rounded_up { result ≡ div_up (rate.now.rest * length) (window_length rate.now) }
    ensures few { result ≤ rate.now.rest }
{
    let parts = u128::from(rate.fraction) * u128::from(length);
    ((parts + (PARTS - 1)) / PARTS) as u64
}

/// Whether that wasn't whole before it was rounded up.
pub(crate) fn rounds(rate: &Rate, length: u64) -> bool
    requires rate { IsRate rate.now }
    requires within { length ≤ window_length rate.now }
    ensures { result ≡ not (rate.now.rest * length % window_length rate.now == 0) }
{
    let window = u64::from(rate.deadline - rate.release);
    rest_of(rate, length) * window != rate.rest * length
}
