//! What the sources and the sink in memory share.

ghost use Rattle.std.specs.Prelude.{◌≡◌, ◌↔◌, IsTrue, Contains, length, min, take};

/// Whether the call of this number is one of those that are to fail.
pub(crate) fn is_failing(failing: &[u32], number: u64) -> bool
    ensures { IsTrue result ↔ Contains failing.now number }
{
    failing.iter().any(|call| u64::from(*call) == number)
}

/// Copies the front of `rest` into the front of `into`, at most `most` bytes, and says how many.
pub(crate) fn copy_front(rest: &[u8], into: &mut [u8], most: usize) -> usize
    ensures count { result ≡ min (min (length rest.now) (length into.old)) most }
    ensures copied { take result into.new ≡ take result rest.now }
{
    let count = rest.len().min(into.len()).min(most);
    into[..count].copy_from_slice(&rest[..count]);
    count
}
