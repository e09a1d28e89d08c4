ghost use Rattle.std.specs.Prelude.{◌<◌, ◌≤◌, IsErr};
ghost use Rattle.yds_port.specs.Sink.{Puts};

use crate::sink::{Given, Sink};
use thiserror::Error;

/// The sink counted a fault.
#[derive(Clone, Copy, Debug, PartialEq, Eq, Error)]
#[error("a write failed")]
pub struct WriteFault;

/// Appends the whole piece, or after a fault a front of it. It takes no memory.
pub fn write_all<K: Sink>(sink: &mut K, piece: &[u8]) -> Result<(), WriteFault>
    ensures puts { Puts K.written K.flushed K.flushes K.faults result piece.now sink.old sink.new }
    ensures later { K.faults sink.old ≤ K.faults sink.new }
    ensures counted { K.faults sink.old < K.faults sink.new → IsErr result }
{
    let mut rest = piece;
    while !rest.is_empty() {
        match sink.write(rest) {
            Given::Bytes(count) => {
                let (_, others) = rest.split_at(count);
                rest = others;
            }
            Given::Failed => return Err(WriteFault),
        }
    }
    Ok(())
}
