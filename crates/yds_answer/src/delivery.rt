ghost use Rattle.std.specs.Prelude.{◌≡◌, MatchResult, OnOk, OnErr};
ghost use Rattle.std.specs.Io.KnownBytes.{Keeps};
ghost use Rattle.yds_port.specs.Count.{Rose, next_count};
ghost use Rattle.yds_port.specs.Sink.{IsFlushed};
ghost use Rattle.yds_answer.specs.Endings.{IsDelivered};

use crate::answer::Answer;
use yds_model::{Memory, Status};
use yds_port::{Flushed, Sink, WriteFault};

/// Writes the answer's text and flushes the sink, once. It takes no memory.
pub fn deliver<A: Answer, K: Sink>(answer: &A, sink: &mut K) -> Status
    ensures { IsDelivered K.written K.flushed K.flushes K.faults (A.text answer.now) (A.ends answer.now) result sink.old sink.new }
{
    let status = answer.status();
    if answer.write(sink).is_err() {
        return Status::WriteFault;
    }
    if flush(sink).is_err() {
        return Status::WriteFault;
    }
    status
}

/// Delivers an answer, where memory sufficed for it.
pub fn reply<A: Answer + Drop, K: Sink>(made: Result<A, Memory>, sink: &mut K) -> Status
    ensures { MatchResult made (λ answer. IsDelivered K.written K.flushed K.flushes K.faults (A.text answer) (A.ends answer) result sink.old sink.new)
        (λ error. (result ≡ Status.Memory) × (sink.new ≡ sink.old)) }
{
    match made {
        Ok(answer) => deliver(&answer, sink),
        Err(Memory) => Status::Memory,
    }
}

/// Passes on all that was written.
fn flush<K: Sink>(sink: &mut K) -> Result<(), WriteFault>
    ensures flushed { OnOk result (IsFlushed (K.written sink.new) (K.flushed sink.new)) }
    ensures counted { K.flushes sink.new ≡ next_count (K.flushes sink.old) }
    ensures written_stays { Keeps (K.written sink.old) (K.written sink.new) }
    ensures no_fault { OnOk result (K.faults sink.new ≡ K.faults sink.old) }
    ensures fault { OnErr result (Rose (K.faults sink.old) (K.faults sink.new)) }
{
    match sink.flush() {
        Flushed::Done => Ok(()),
        Flushed::Failed => Err(WriteFault),
    }
}
