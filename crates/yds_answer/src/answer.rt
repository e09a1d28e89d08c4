ghost use Rattle.std.specs.Prelude.{◌≡◌};

use yds_model::Status;
use yds_port::{Sink, WriteFault};

/// What the program answers: a text, and the status of a run that wrote it.
///
/// An answer is computed before it is written, and is a value: the text is made line by line.
pub trait Answer {
    ghost use Rattle.std.specs.Prelude.{ℕ, List};
    ghost use Rattle.base.specs.declared.status.Status.{Status};
    ghost use Rattle.yds_port.specs.Sink.{Puts};
    ghost use Rattle.yds_answer.specs.Endings.{IsWhole};

    // The text that is written.
    ghost text: { Self → List ℕ };

    // The status of a run that wrote it whole.
    ghost ends: { Self → Status };

    /// The status of a run that wrote the text whole.
    fn status(&self) -> Status
        ensures status { result ≡ ends self.now }
        ensures whole { IsWhole (ends self.now) };

    /// Appends the text, or after a fault a front of it. Takes no memory.
    fn write<K: Sink>(&self, sink: &mut K) -> Result<(), WriteFault>
        ensures { Puts K.written K.flushed K.flushes K.faults result (text self.now) sink.old sink.new };
}
