//! Who else had the processor while a job waited.
ghost use Rattle.std.specs.Prelude.{◌≡◌, ◌++◌, IfOk, OnOk, map, filter, option_map, option_to_list};
ghost use Rattle.yds_trace.specs.Others as spec;
ghost use Rattle.yds_trace.specs.Views.{span_read};
ghost use Rattle.yds_trace_document.specs.Views.{other_read};

use base::Memory;
use std::alloc::Global;
use yds_trace::Span;

/// A thread that had the processor for a time, while a job waited. Times are nanoseconds of the trace's clock.
#[derive(Clone, Copy, Debug)]
pub struct Other<'a> {
    /// The first bytes of its name.
    pub name: &'a [u8],
    pub pid: u64,
    pub from: u64,
    pub to: u64,
}

/// A span as it is lent.
fn lent(span: &Span) -> Other<'_>
    ensures { other_read result ≡ span_read span.entry.now }
{
    Other {
        name: span.name.as_slice(),
        pid: span.pid,
        from: span.from,
        to: span.to,
    }
}

/// These spans as they are lent.
pub(crate) fn all_lent<'a>(alloc: Global, spans: &'a [Span]) -> Result<Vec<Other<'a>>, Memory>
    ensures { IfOk result (λ others. map other_read others.items ≡ map span_read spans.entry.now) }
{
    let mut others = Vec::with_capacity(alloc, spans.len())?;
    for span in spans {
        others.push(lent(span))?;
    }
    Ok(others)
}

/// Those that go on behind this time.
pub(crate) fn behind<'a>(time: u64, mut others: Vec<Other<'a>>) -> Vec<Other<'a>>
    ensures { map other_read result.items ≡ filter (spec.goes_behind time) (map other_read others.entry.items) }
{
    others.retain(|other| time < other.to);
    others
}

/// What of one lies between two times; without the second, behind the first.
fn one_within<'a>(from: u64, until: Option<u64>, other: &Other<'a>) -> Option<Other<'a>>
    ensures { option_map other_read result ≡ spec.span_within from until (other_read other.now) }
{
    let from = from.max(other.from);
    let to = match until {
        Some(until) => until.min(other.to),
        None => other.to,
    };
    if from >= to {
        return None;
    }
    Some(Other {
        name: other.name,
        pid: other.pid,
        from,
        to,
    })
}

/// What of them lies between two times; without the second, behind the first.
pub(crate) fn all_within<'a>(
    alloc: Global,
    from: u64,
    until: Option<u64>,
    others: &[Other<'a>],
) -> Result<Vec<Other<'a>>, Memory>
    ensures { IfOk result (λ some. map other_read some.items ≡ spec.spans_within from until (map other_read others.now)) }
{
    let mut some = Vec::new(alloc);
    for other in others {
        put(one_within(from, until, other), &mut some)?;
    }
    Ok(some)
}

/// Puts it behind the others, if there is one.
fn put<'a>(other: Option<Other<'a>>, others: &mut Vec<Other<'a>>) -> Result<(), Memory>
    ensures { OnOk result (others.new.items ≡ others.old.items ++ option_to_list other.entry) }
{
    if let Some(other) = other {
        others.push(other)?;
    }
    Ok(())
}
