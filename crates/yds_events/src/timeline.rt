ghost use Rattle.std.specs.Prelude.{◌≡◌, ℕ, ◌<◌, ◌≤◌, ◌/◌, ◌^◌, List, length, map, IfOk, OnOk};
ghost use Rattle.std.specs.List.{filter, range_with_len};
ghost use Rattle.base.specs.declared.limits.TheConstants.{MAX_JOBS};
ghost use Rattle.yds_model.specs.Event.{rising_times};
ghost use Rattle.yds_events.specs.Keys.{AreKeys, ArePlaces, time_of_key, number_of_key, job_of_key, with_end, window_from, is_deadline};
ghost use Rattle.yds_events.specs.Timeline.{IsTimeline};

use crate::event_points::ends;
use crate::stretch::{Stretch, between};
use crate::window::Window;
use std::alloc::Global;
use yds_model::{JobRow, Memory};

/// Above the number of each time.
const NUMBERS: u64 = 4_294_967_296;

/// The jobs' time in order, from one sort of their releases and deadlines.
#[derive(Debug, Drop)]
pub struct Timeline {
    /// The stretches, in order of time.
    pub stretches: Vec<Stretch>,
    /// Each job's window as a range of the stretches.
    pub windows: Vec<Window>,
    /// The jobs' numbers, in order of deadline, those with the same deadline in order of number.
    pub order: Vec<u32>,
}

impl Timeline {
    /// The timeline of these jobs.
    pub fn new(alloc: Global, rows: &[JobRow]) -> Result<Timeline, Memory>
        requires { length rows.now ≤ MAX_JOBS }
        ensures { IfOk result (IsTimeline rows.now) }
    {
        let ends = ends(alloc, rows)?;
        let keys = sorted_keys(alloc, &ends)?;
        let (times, places) = cut(alloc, &keys)?;
        Ok(Timeline {
            stretches: between(alloc, &times)?,
            windows: windows_from(alloc, &places)?,
            order: deadline_order(alloc, &keys)?,
        })
    }
}

/// Each time with its number in one key, in order of time and number.
fn sorted_keys(alloc: Global, times: &[u32]) -> Result<Vec<u64>, Memory>
    requires { length times.now < 2 ^ 32 }
    ensures { IfOk result (λ keys. AreKeys times.now keys.items) }
{
    let mut keys: Vec<u64> = Vec::with_capacity(alloc, times.len())?;
    for (number, time) in times.iter().enumerate() {
        keys.push(u64::from(*time) * NUMBERS + number as u64)?;
    }
    keys.sort_unstable();
    Ok(keys)
}

/// The time of a key.
fn time(key: u64) -> u32
    ensures { result ≡ time_of_key key }
{
    (key / NUMBERS) as u32
}

/// The number that its time has.
fn number(key: u64) -> u32
    ensures { result ≡ number_of_key key }
{
    (key % NUMBERS) as u32
}

/// The times of sorted keys without repeats, and at each number the place of its time among them.
fn cut(alloc: Global, keys: &[u64]) -> Result<(Vec<u32>, Vec<u32>), Memory>
    requires { (times : List ℕ) × AreKeys times keys.now }
    ensures times { IfOk result (λ cut. (times : List ℕ) → AreKeys times keys.now → cut.0.items ≡ rising_times times) }
    ensures places { IfOk result (λ cut. (times : List ℕ) → AreKeys times keys.now → ArePlaces times cut.0.items cut.1.items) }
{
    let mut times = Vec::with_capacity(alloc, keys.len())?;
    let mut places = vec![in alloc; 0; keys.len()]?;
    for key in keys {
        add_last(&mut times, time(*key))?;
        places[number(*key) as usize] = times.len() as u32 - 1;
    }
    Ok((times, places))
}

/// Adds a time behind the others, unless it is the last of them.
fn add_last(times: &mut Vec<u32>, time: u32) -> Result<(), Memory>
    ensures { OnOk result (times.new.items ≡ with_end times.old.items time) }
{
    let count = times.len();
    if count == 0 || times[count - 1] != time {
        times.push(time)?;
    }
    Ok(())
}

/// Each job's window, from the places of its release and its deadline.
fn windows_from(alloc: Global, places: &[u32]) -> Result<Vec<Window>, Memory>
    ensures { IfOk result (λ windows. windows.items ≡ map (window_from places.now) (range_with_len 0 (length places.now / 2))) }
{
    let mut windows = Vec::with_capacity(alloc, places.len() / 2)?;
    for job in 0..places.len() / 2 {
        windows.push(Window {
            first: places[2 * job],
            end: places[2 * job + 1],
        })?;
    }
    Ok(windows)
}

/// The jobs whose deadlines the keys have, in their order.
fn deadline_order(alloc: Global, keys: &[u64]) -> Result<Vec<u32>, Memory>
    ensures { IfOk result (λ order. order.items ≡ map job_of_key (filter is_deadline keys.now)) }
{
    let mut order = vec![in alloc; 0; keys.len()]?;
    let mut count = 0;
    for key in keys {
        let number = number(*key);
        // Where this is a release the next key's job is written over its own: a test would be guessed wrong half of the time.
        order[count] = number / 2;
        count += number as usize % 2;
    }
    order.truncate(count);
    Ok(order)
}
