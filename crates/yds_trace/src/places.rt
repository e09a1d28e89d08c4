//! Values at the places of a list, which grows where one is put behind its end.
ghost use Rattle.std.specs.Prelude.{◌≡◌, ℕ, ◌==◌, ◌+◌, ◌<◌, ◌≤◌, ◌^◌, slice_index_or, vec_len, if◌then◌else◌, OnOk};

use base::Memory;

/// What stands at this place, or what fills the list where it has none.
pub(crate) fn at<T: Copy>(values: &[T], place: u64, fill: T) -> T
    ensures { result ≡ slice_index_or values.now place fill }
{
    match values.get(place as usize) {
        Some(value) => *value,
        None => fill,
    }
}

/// Puts a value at this place, and what fills the list at those before it where there was none.
#[inline(always)]
pub(crate) fn put_at<T: Copy>(
    values: &mut Vec<T>,
    place: u64,
    value: T,
    fill: T,
) -> Result<(), Memory>
    requires { place < 2 ^ 32 }
    ensures { OnOk result ((other : ℕ) → slice_index_or values.new.items other fill
        ≡ (if place == other then value else slice_index_or values.old.items other fill)) }
{
    let index = place as usize;
    if values.len() <= index {
        grow(values, index, fill)?;
    }
    values[index] = value;
    Ok(())
}

/// Fills a list up to this place.
#[cold]
#[inline(never)]
fn grow<T: Copy>(values: &mut Vec<T>, index: usize, fill: T) -> Result<(), Memory>
    requires below { index < 2 ^ 32 }
    requires short { vec_len values.old ≤ index }
    ensures same { OnOk result ((other : ℕ) → slice_index_or values.new.items other fill ≡ slice_index_or values.old.items other fill) }
    ensures long { OnOk result (vec_len values.new ≡ index + 1) }
{
    values.resize(index + 1, fill)?;
    Ok(())
}
