ghost use Rattle.std.specs.Prelude.{◌≡◌, ◌∷◌, ◌<◌, ◌≤◌, IfOk, All, take, vec_len, vec_capacity};
ghost use Rattle.std.specs.List.Sorted.{IsPermutation, IsNonDecreasingBy};
ghost use Rattle.yds_avr.specs.Rate.{IsRate};
ghost use Rattle.yds_avr.specs.Roster.{rates_of, HaveFallingDeadlines};

use crate::rate::{Rate, rate_of};
use std::alloc::Global;
use yds_model::limits::MAX_GRID;
use yds_model::{JobRow, Memory};

/// The jobs that are to come, and those that have arrived and aren't over.
#[derive(Drop)]
pub(crate) struct Roster {
    /// The rates of all jobs in order of their releases.
    pub(crate) order: Vec<Rate>,
    /// How many have arrived.
    pub(crate) arrived: usize,
    /// Those that have arrived and aren't over, in falling order of their deadlines. There is room for those that are to come.
    pub(crate) live: Vec<Rate>,
    /// The whole units of a time unit that these have together.
    pub(crate) whole: u64,
}

impl Roster {
    ghost use Rattle.std.specs.Prelude.{ℕ, ◌-◌, length, drop, sum_by};
    ghost use Rattle.yds_avr.specs.Roster.{rate_at, IsRosterAt, AreRates};

    /// The jobs are to come.
    pub(crate) fn new(alloc: Global, rows: &[JobRow], grid: u32) -> Result<Roster, Memory>
        requires { grid ≤ MAX_GRID }
        ensures same { IfOk result (λ roster. IsPermutation (rates_of grid rows.now) roster.order.items) }
        ensures stands { IfOk result (λ roster. (time : ℕ) → IsRosterAt roster time) }
    {
        let order = by_release(alloc, rows, grid)?;
        let live = Vec::with_capacity(alloc, order.len())?;
        Ok(Roster {
            order,
            arrived: 0,
            live,
            whole: 0,
        })
    }

    /// Those that are released by a time arrive, and those that are due by it are over.
    pub(crate) fn go_to(&mut self, time: u32)
        requires stands { IsRosterAt self.old time }
        requires rates { AreRates self.old.order.items }
        ensures same { self.new.order ≡ self.old.order }
        ensures stands { IsRosterAt self.new time }
        ensures coming { All (λ rate. time < rate.release) (drop self.new.arrived self.new.order.items) }
        ensures live { All (λ rate. time < rate.deadline) self.new.live.items }
    {
        self.arrive(time);
        self.leave(time);
    }

    /// Those that are released by a time arrive.
    fn arrive(&mut self, time: u32)
        requires stands { IsRosterAt self.old time }
        requires rates { AreRates self.old.order.items }
        ensures same { self.new.order ≡ self.old.order }
        ensures stands { IsRosterAt self.new time }
        ensures next { self.new.arrived < length self.new.order.items → time < (rate_at self.new.order.items self.new.arrived).release }
    {
        let before = self.live.len();
        while self.arrived < self.order.len() && self.order[self.arrived].release <= time {
            let rate = self.order[self.arrived];
            self.whole += rate.whole;
            self.live.push_reserved(rate);
            self.arrived += 1;
        }
        settle(&mut self.live, before);
    }

    /// Those that are due by a time are over.
    fn leave(&mut self, time: u32)
        requires stands { IsRosterAt self.old time }
        requires rates { AreRates self.old.order.items }
        ensures same { self.new.order ≡ self.old.order }
        ensures stands { IsRosterAt self.new time }
        ensures arrived { self.new.arrived ≡ self.old.arrived }
        ensures live { All (λ rate. time < rate.deadline) self.new.live.items }
    {
        let mut stay = self.live.len();
        while stay > 0 && self.live[stay - 1].deadline <= time {
            stay -= 1;
            self.whole -= self.live[stay].whole;
        }
        self.live.truncate(stay);
    }
}

/// Puts rates in falling order of their deadlines, of which those before this place stand so: a single one behind them goes to its
/// place, and more are sorted with all.
fn settle(live: &mut Vec<Rate>, before: usize)
    requires rates { All IsRate live.old.items }
    requires within { before ≤ vec_len live.old }
    requires falling { HaveFallingDeadlines (take before live.old.items) }
    ensures same { IsPermutation live.old.items live.new.items }
    ensures falling { HaveFallingDeadlines live.new.items }
    ensures room { vec_capacity live.old ≤ vec_capacity live.new }
{
    let added = live.len() - before;
    if added > 1 {
        live.sort_unstable_by_key(|rate| u32::MAX - rate.deadline);
        return;
    }
    if added == 0 {
        return;
    }
    let Some(last) = live.pop() else {
        return;
    };
    put_in(live, last);
}

/// Puts a rate among others that stand in falling order of their deadlines, where there is room for it.
fn put_in(live: &mut Vec<Rate>, rate: Rate)
    requires rates { All IsRate (rate ∷ live.old.items) }
    requires falling { HaveFallingDeadlines live.old.items }
    requires room { vec_len live.old < vec_capacity live.old }
    ensures same { IsPermutation (rate ∷ live.old.items) live.new.items }
    ensures falling { HaveFallingDeadlines live.new.items }
    ensures room { vec_capacity live.old ≤ vec_capacity live.new }
{
    let place = live.partition_point(|other| rate.deadline <= other.deadline);
    if live.insert(place, rate).is_err() {
        unreachable!()
    }
}

/// The jobs' rates in order of their releases.
fn by_release(alloc: Global, rows: &[JobRow], grid: u32) -> Result<Vec<Rate>, Memory>
    requires { grid ≤ MAX_GRID }
    ensures same { IfOk result (λ order. IsPermutation (rates_of grid rows.now) order.items) }
    ensures rising { IfOk result (λ order. IsNonDecreasingBy (λ rate. rate.release) order.items) }
{
    let mut order = in_list_order(alloc, rows, grid)?;
    order.sort_by_key(|rate| rate.release)?;
    Ok(order)
}

/// Those in order of the jobs' numbers.
fn in_list_order(alloc: Global, rows: &[JobRow], grid: u32) -> Result<Vec<Rate>, Memory>
    requires { grid ≤ MAX_GRID }
    ensures { IfOk result (λ order. order.items ≡ rates_of grid rows.now) }
{
    let mut order = Vec::with_capacity(alloc, rows.len())?;
    for row in rows {
        order.push(rate_of(row, grid))?;
    }
    Ok(order)
}
