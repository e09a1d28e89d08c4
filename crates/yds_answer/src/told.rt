use crate::answer::Answer;
use text_line::LineBuffer;
use yds_model::Status;
use yds_port::{Sink, WriteFault, write_all};

/// A verdict or a judgement, told in a line.
#[derive(Drop)]
pub struct Told {
    /// The line.
    pub line: LineBuffer,
    /// Whether it says yes.
    pub holds: bool,
}

impl Answer for Told {
    ghost use Rattle.yds_answer.specs.Told.{told_line, told_status};

    ghost text = { told_line };

    ghost ends = { λ told. told_status told.holds };

    fn status(&self) -> Status {
        if self.holds { Status::Done } else { Status::No }
    }

    fn write<K: Sink>(&self, sink: &mut K) -> Result<(), WriteFault> {
        write_all(sink, self.line.as_bytes())
    }
}
