//! How a text is delivered to a sink.
ghost use Rattle.yds_trace_run.specs.Endings.{IsDelivered};
ghost use Rattle.std.specs.Prelude.{◌≢◌};

use yds_model::Status;
use yds_port::{Flushed, Sink, WriteFault, write_all};

/// Writes a text and flushes the sink, once. It takes no memory.
pub(crate) fn deliver<K: Sink>(text: &[u8], status: Status, sink: &mut K) -> Status
    requires { status ≢ Status.WriteFault }
    ensures { IsDelivered K.written K.flushed K.flushes K.faults text.now status result sink.old sink.new }
{
    if write_all(sink, text).is_err() {
        return Status::WriteFault;
    }
    match sink.flush() {
        Flushed::Done => status,
        Flushed::Failed => Status::WriteFault,
    }
}
