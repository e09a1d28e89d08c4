ghost use Rattle.std.specs.Prelude.{◌≡◌, ◌<◌, ◌≤◌, ◌+◌, IfOk, IsErrOf, OnOk, take, drop, vec_len};
ghost use Rattle.yds_port.specs.declared.reading.ReadAllFault.TheVariants.{Memory};
ghost use Rattle.yds_port.specs.Source.{Reads, ReadsAll};

use crate::source::{Source, Taken};
use base::limits::MAX_BYTES;
use std::alloc::{AllocError, Global};
use thiserror::Error;

/// How many bytes one read of `read_all` asks for at most.
const READ_PIECE: usize = 65_536;

/// For how many bytes `read_all` has room at first. Most inputs have fewer, and aren't moved as they grow.
const FIRST_ROOM: usize = 1_048_576;

/// Why an input wasn't read to its end.
#[derive(Clone, Copy, Debug, PartialEq, Eq, Error)]
pub enum ReadAllFault {
    /// One byte more than the most that are wanted was taken.
    #[error("the input is too long")]
    TooLong,
    /// The source counted a fault.
    #[error("a read failed")]
    ReadFault,
    /// Want of memory.
    #[error("out of memory")]
    Memory,
}

impl From<AllocError> for ReadAllFault {
    ghost from_gives = { λ _ fault. fault ≡ Memory };

    fn from(_error: AllocError) -> ReadAllFault {
        ReadAllFault::Memory
    }
}

/// Reads all that is left of `source`, if that is at most `most` bytes. It takes at most one byte more.
pub fn read_all<S: Source>(
    alloc: Global,
    source: &mut S,
    most: usize,
) -> Result<Vec<u8>, ReadAllFault>
    requires { most ≤ MAX_BYTES }
    ensures reads { ReadsAll result most (S.left source.old) (S.left source.new)
        (S.faults source.old) (S.faults source.new) }
    ensures later { S.faults source.old ≤ S.faults source.new }
    ensures counted { S.faults source.old < S.faults source.new → IsErrOf result ReadAllFault.ReadFault }
{
    let mut bytes = Vec::with_capacity(alloc, FIRST_ROOM)?;
    let mut filled = 0;
    while filled <= most {
        make_room(&mut bytes, filled, most)?;
        match read_into(source, &mut bytes, filled) {
            Taken::Bytes(count) => filled += count,
            Taken::End => {
                bytes.truncate(filled);
                return Ok(fitted(alloc, bytes)?);
            }
            Taken::Failed => return Err(ReadAllFault::ReadFault),
        }
    }
    Err(ReadAllFault::TooLong)
}

/// The same bytes, in no more room than they need where they are few. The large room is given back before anything else is
/// taken: the C library then keeps what is freed for later, in place of giving it back to the system each time.
fn fitted(alloc: Global, bytes: Vec<u8>) -> Result<Vec<u8>, AllocError>
    ensures { IfOk result (λ fitted. fitted.items ≡ bytes.items) }
{
    if bytes.len() > FIRST_ROOM / 2 {
        return Ok(bytes);
    }
    let mut fitted = vec![in alloc; 0; bytes.len()]?;
    fitted.copy_from_slice(&bytes);
    Ok(fitted)
}

/// Room for a read behind the `filled` bytes that were read before: what is left of it, or a new piece.
fn make_room(bytes: &mut Vec<u8>, filled: usize, most: usize) -> Result<(), AllocError>
    requires wanted { filled ≤ most }
    requires few { most ≤ MAX_BYTES }
    requires within { filled ≤ vec_len bytes.old }
    requires short { vec_len bytes.old ≤ most + 1 }
    ensures room { OnOk result (filled < vec_len bytes.new) }
    ensures short { OnOk result (vec_len bytes.new ≤ most + 1) }
    ensures front { take filled bytes.new.items ≡ take filled bytes.old.items }
{
    if filled < bytes.len() {
        return Ok(());
    }
    bytes.resize((filled + READ_PIECE).min(most + 1), 0)
}

/// One read into the tail of `bytes`, behind the `filled` bytes that were read before.
fn read_into<S: Source>(source: &mut S, bytes: &mut Vec<u8>, filled: usize) -> Taken
    requires { filled < vec_len bytes.old }
    ensures reads { Reads result (drop filled bytes.new.items) (S.left source.old) (S.left source.new)
        (S.faults source.old) (S.faults source.new) }
    ensures front { take filled bytes.new.items ≡ take filled bytes.old.items }
    ensures len { vec_len bytes.new ≡ vec_len bytes.old }
{
    source.read(&mut bytes[filled..])
}
