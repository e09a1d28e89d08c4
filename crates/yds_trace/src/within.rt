//! Whether a time is within what is asked for.
ghost use Rattle.std.specs.Prelude.{◌≡◌, List};
ghost use Rattle.yds_kernel.specs.Event.{Said};
ghost use Rattle.yds_trace.specs.Asked as asking;
ghost use Rattle.yds_trace.specs.Late.{last_asked};
ghost use Rattle.yds_trace.specs.Past.{last_time};

/// Whether a time is before `to`.
pub(crate) fn is_within_to(to: Option<u64>, time: u64) -> bool
    ensures { result ≡ asking.is_within_to to time }
{
    match to {
        Some(to) => time < to,
        None => true,
    }
}

/// Whether a time is not after `to`.
pub(crate) fn is_before_to(to: Option<u64>, time: u64) -> bool
    ensures { result ≡ asking.is_before_to to time }
{
    match to {
        Some(to) => time <= to,
        None => true,
    }
}

/// Whether a time is after `from`.
pub(crate) fn is_behind_from(from: Option<u64>, time: u64) -> bool
    ensures { result ≡ asking.is_behind_from from time }
{
    match from {
        Some(from) => from < time,
        None => true,
    }
}

/// Whether a time is not before `from`.
pub(crate) fn is_after_from(from: Option<u64>, time: u64) -> bool
    ensures { result ≡ asking.is_after_from from time }
{
    match from {
        Some(from) => from <= time,
        None => true,
    }
}

/// The end of what is asked for and shown.
pub(crate) fn last_asked(to: Option<u64>, last: u64) -> u64
    ensures { (asked : asking.Asked) (past : List Said) → asked.to ≡ to → last_time past ≡ last → result ≡ last_asked asked past }
{
    match to {
        Some(to) => to.min(last),
        None => last,
    }
}
