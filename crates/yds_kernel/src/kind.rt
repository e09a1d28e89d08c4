//! The kinds of event, by their names.
ghost use Rattle.std.specs.Prelude.{◌≡◌, true};
ghost use Rattle.yds_kernel.specs.Form.{bare_name, is_marker, is_woken, kind_of, kind_of_name};
ghost use Rattle.yds_kernel.specs.Line.{matters};

use crate::parts::{after, begins};

/// What an event is, by its name.
#[derive(Clone, Copy)]
pub(crate) enum Kind {
    Switch,
    /// A thread is about to be woken.
    Waking,
    /// It has been.
    Woken,
    Speed,
    Loss,
    Marker,
    Other,
}

impl Kind {
    /// The kind of the event with this name.
    pub(crate) fn of(word: &[u8]) -> Kind
        ensures { result ≡ kind_of word.now }
    {
        if is_name(word, b"sched_switch:") {
            return Kind::Switch;
        }
        if is_name(word, b"sched_waking:") {
            return Kind::Waking;
        }
        if is_name(word, b"sched_wakeup:") {
            return Kind::Woken;
        }
        Kind::of_name(bare_name(word))
    }

    /// The kind of the event with this name, without the system that perf writes before it.
    fn of_name(name: &[u8]) -> Kind
        ensures { result ≡ kind_of_name name.now }
    {
        if name == b"sched_switch:".as_slice() {
            Kind::Switch
        } else if name == b"sched_waking:".as_slice() {
            Kind::Waking
        } else if is_woken(name) {
            Kind::Woken
        } else if name == b"cpu_frequency:".as_slice() {
            Kind::Speed
        } else if name == b"PERF_RECORD_LOST".as_slice() {
            Kind::Loss
        } else if is_marker(name) {
            Kind::Marker
        } else {
            Kind::Other
        }
    }

    /// Whether events of this kind are read.
    pub(crate) fn matters(self) -> bool
        ensures { result ≡ matters self }
    {
        match self {
            Kind::Switch | Kind::Waking | Kind::Woken | Kind::Speed | Kind::Loss => true,
            Kind::Marker | Kind::Other => false,
        }
    }
}

/// Whether the word is this name.
#[inline(always)]
fn is_name<const N: usize>(word: &[u8], name: &[u8; N]) -> bool
    ensures { result ≡ true → word.now ≡ name.now }
{
    word.len() == name.len() && begins(word, name)
}

/// The name without the system that perf writes before it.
fn bare_name(word: &[u8]) -> &[u8]
    ensures { result.now ≡ bare_name word.now }
{
    if let Some(name) = after(word, b"sched:") {
        return name;
    }
    if let Some(name) = after(word, b"power:") {
        return name;
    }
    match after(word, b"ftrace:") {
        Some(name) => name,
        None => word,
    }
}

fn is_woken(name: &[u8]) -> bool
    ensures { result ≡ is_woken name.now }
{
    name == b"sched_wakeup:".as_slice() || name == b"sched_wakeup_new:".as_slice()
}

fn is_marker(name: &[u8]) -> bool
    ensures { result ≡ is_marker name.now }
{
    name == b"tracing_mark_write:".as_slice()
        || name == b"print:".as_slice()
        || name == b"bprint:".as_slice()
}
