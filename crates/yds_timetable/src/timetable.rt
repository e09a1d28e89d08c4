ghost use Rattle.std.specs.Prelude.{◌≡◌, ◌^◌, ◌<◌, ◌≤◌, [], ◌∷◌, ◌++◌, length, map, IfOk, IfErr, OnOk, OnErr};
ghost use Rattle.std.specs.List.{All, range_with_len};
ghost use Rattle.base.specs.declared.limits.TheConstants.{MAX_SLOTS};
ghost use Rattle.yds_events.specs.Stretch.{IsStretch};
ghost use Rattle.yds_timetable.specs.Shares.{total_units};
ghost use Rattle.yds_timetable.specs.Timetable.{row_at, rows_of, IsRow};
ghost use Rattle.yds_timetable.specs.KeptRows.{Keeps};
ghost use Rattle.yds_timetable.specs.Sorted.{kept_row};

use crate::pace::Pace;
use crate::share::Share;
use crate::sorting::sort_shares;
use std::alloc::Global;
use std::marker::Model;
use yds_events::Stretch;
use yds_model::Memory;

/// A stretch as it is kept: its pace stands at a place of the list of paces, or it is idle, and its shares stand from one place of the
/// list of all shares to another.
#[derive(Clone, Copy, Debug)]
struct KeptRow {
    stretch: Stretch,
    pace: Option<u32>,
    first: u32,
    end: u32,
}

/// Stretches, each with its pace and the shares that fill it at that pace, or idle. They are numbered from 0.
#[derive(Drop)]
pub struct Timetable {
    rows: Vec<KeptRow>,
    paces: Vec<Pace>,
    /// The shares of the stretches, in their order.
    shares: Vec<Share>,
}

impl Model for Timetable {
    ghost use Rattle.std.specs.Prelude.{List};
    ghost use Rattle.yds_timetable.specs.Timetable.{Row};
    ghost use Rattle.yds_timetable.specs.KeptRows.{rows_kept, AreKept};

    ghost Value = { List Row };

    ghost view = { λ t. rows_kept t.paces.items t.shares.items t.rows.items };

    ghost invariant = { λ t. AreKept t.paces.items t.shares.items t.rows.items };
}

impl Timetable {
    /// No stretches. It takes no memory.
    pub fn new(alloc: Global) -> Timetable
        ensures { result ≡ [] }
    {
        Timetable {
            rows: Vec::new(alloc),
            paces: Vec::new(alloc),
            shares: Vec::new(alloc),
        }
    }

    /// The timetable of these stretches: each with the pace that stands at its place, idle where there is none, and with its shares in
    /// the order in which they stand in the list.
    pub fn of_shares(
        alloc: Global,
        timeline: &[Stretch],
        paces: &[Pace],
        places: &[u32],
        shares: &[Share],
    ) -> Result<Timetable, Memory>
        requires many { length places.now ≡ length timeline.now }
        requires few { length shares.now ≤ MAX_SLOTS }
        requires known { All (λ share. share.stretch < length timeline.now) shares.now }
        requires rows { All IsRow (rows_of timeline.now paces.now places.now shares.now) }
        ensures { IfOk result (λ timetable. timetable ≡ rows_of timeline.now paces.now places.now shares.now) }
    {
        let (shares, ends) = sort_shares(alloc, shares, timeline.len())?;
        let rows = kept_rows(alloc, timeline, paces.len(), places, &ends)?;
        let paces = Vec::from_slice(alloc, paces)?;
        Ok(Timetable {
            rows,
            paces,
            shares,
        })
    }

    /// Puts the stretch last, with the shares that fill it at the pace, or idle where it has no pace and no shares. After want of
    /// memory the timetable is unchanged.
    pub fn push(
        &mut self,
        stretch: Stretch,
        pace: Option<Pace>,
        shares: &[Share],
    ) -> Result<(), Memory>
        requires { IsRow (record { stretch = stretch; pace = pace; shares = shares.now }) }
        ensures ok { OnOk result (self.new ≡ self.old ++ record { stretch = stretch; pace = pace; shares = shares.now } ∷ []) }
        ensures err { OnErr result (self.new ≡ self.old) }
    {
        let first = place_of(self.shares.len())?;
        self.shares.extend_from_slice(shares)?;
        let end = place_of(self.shares.len())?;
        let pace = keep_pace(&mut self.paces, pace)?;
        self.rows.push(KeptRow {
            stretch,
            pace,
            first,
            end,
        })?;
        Ok(())
    }

    /// How many stretches it has.
    pub fn len(&self) -> usize
        ensures value { result ≡ length self.now }
        ensures kept { All IsRow self.now }
    {
        self.rows.len()
    }

    /// Room for a slot of each share.
    pub(crate) fn room(&self) -> usize {
        self.shares.len()
    }

    /// The stretch with this number.
    pub fn stretch(&self, number: usize) -> Stretch
        requires { number < length self.now }
        ensures value { result ≡ (row_at self.now number).stretch }
        ensures kept { IsStretch result }
    {
        self.rows[number].stretch
    }

    /// Its pace, or None where it is idle.
    pub fn pace(&self, number: usize) -> Option<Pace>
        requires { number < length self.now }
        ensures value { result ≡ (row_at self.now number).pace }
        ensures kept { IsRow (row_at self.now number) }
    {
        match self.rows[number].pace {
            Some(place) => Some(self.paces[place as usize]),
            None => None,
        }
    }

    /// Its shares, in order.
    pub fn shares(&self, number: usize) -> &[Share]
        requires { number < length self.now }
        ensures { result.now ≡ (row_at self.now number).shares }
    {
        let row = self.rows[number];
        &self.shares[row.first as usize..row.end as usize]
    }

    /// The units that it serves. They are read off its pace, and not added up.
    pub fn units(&self, number: usize) -> u64
        requires { number < length self.now }
        ensures { result ≡ total_units (row_at self.now number).shares }
    {
        match self.pace(number) {
            Some(pace) => pace.units * (u64::from(self.stretch(number).length()) / pace.time),
            None => 0,
        }
    }
}

/// A place in a list, or want of memory where there are more than 32 bits count.
fn place_of(count: usize) -> Result<u32, Memory>
    ensures place { IfOk result (λ place. place ≡ count) }
    ensures full { IfErr result (λ _. 2 ^ 32 ≤ count) }
{
    if count > u32::MAX as usize {
        return Err(Memory);
    }
    Ok(count as u32)
}

/// Puts the pace last, where there is one, and tells its place.
fn keep_pace(paces: &mut Vec<Pace>, pace: Option<Pace>) -> Result<Option<u32>, Memory>
    ensures ok { IfOk result (λ place. Keeps paces.old.items pace place paces.new.items) }
    ensures err { OnErr result (paces.new.items ≡ paces.old.items) }
{
    let Some(pace) = pace else {
        return Ok(None);
    };
    let place = place_of(paces.len())?;
    paces.push(pace)?;
    Ok(Some(place))
}

/// The rows of stretches whose shares stand up to these ends, beside so many paces.
fn kept_rows(
    alloc: Global,
    timeline: &[Stretch],
    paces: usize,
    places: &[u32],
    ends: &[u32],
) -> Result<Vec<KeptRow>, Memory>
    requires many { length places.now ≡ length timeline.now }
    requires ends { length ends.now ≡ length timeline.now }
    ensures { IfOk result (λ rows. rows.items ≡ map (kept_row timeline.now paces places.now ends.now) (range_with_len 0 (length timeline.now))) }
{
    let mut rows = Vec::with_capacity(alloc, timeline.len())?;
    let mut start = 0;
    for (number, stretch) in timeline.iter().enumerate() {
        let place = places[number];
        let end = ends[number];
        rows.push(KeptRow {
            stretch: *stretch,
            pace: ((place as usize) < paces).then_some(place),
            first: start,
            end,
        })?;
        start = end;
    }
    Ok(rows)
}
