//! The answers to words that name no command, and to inputs that are refused.
ghost use Rattle.std.specs.Prelude.{◌≡◌, ◌≤◌, length};
ghost use Rattle.yds_model.specs.Answer.{refusal_line};

use crate::answer::Answer;
use text_line::LineBuffer;
use yds_model::Status;
use yds_port::{Sink, WriteFault, write_all};

/// The line that names the program's commands.
const USAGE_LINE: &[u8] =
    b"usage: yds_cli plan | round | avr --grid G | oa --grid G | check | audit [--points] | report [--json] | trial SEED JOBS | expand | admit TOP | curve | compare --grid G\n";

/// The words name no command.
#[derive(Drop)]
pub struct Usage;

impl Answer for Usage {
    ghost use Rattle.base.specs.declared.status.Status.TheVariants as statuses;
    ghost use Rattle.yds_model.specs.Request.{usage_line};

    ghost text = { λ _. usage_line };

    ghost ends = { λ _. statuses.Usage };

    fn status(&self) -> Status {
        Status::Usage
    }

    fn write<K: Sink>(&self, sink: &mut K) -> Result<(), WriteFault> {
        write_all(sink, USAGE_LINE)
    }
}

/// The input is longer than an input may be.
#[derive(Drop)]
pub struct TooLong;

impl Answer for TooLong {
    ghost use Rattle.base.specs.declared.status.Status.TheVariants as statuses;
    ghost use Rattle.yds_model.specs.Answer.{too_long_line};

    ghost text = { λ _. too_long_line };

    ghost ends = { λ _. statuses.Refused };

    fn status(&self) -> Status {
        Status::Refused
    }

    fn write<K: Sink>(&self, sink: &mut K) -> Result<(), WriteFault> {
        write_all(sink, b"refused too-long\n")
    }
}

/// A line of the input has a fault.
#[derive(Drop)]
pub struct RefusedAt {
    /// The number of the line, from 1.
    pub line: u32,
    /// The place in that line, from 1 in bytes.
    pub column: u32,
    /// The word that stands for what is wrong there.
    pub word: &'static str,
    pub ghost short: { length word.now ≤ 64 },
}

impl Answer for RefusedAt {
    ghost use Rattle.base.specs.declared.status.Status.TheVariants as statuses;
    ghost use Rattle.yds_model.specs.Answer.{refusal_line};

    ghost text = { λ refused. refusal_line refused.line refused.column refused.word.now };

    ghost ends = { λ _. statuses.Refused };

    fn status(&self) -> Status {
        Status::Refused
    }

    fn write<K: Sink>(&self, sink: &mut K) -> Result<(), WriteFault> {
        write_all(sink, self.to_line().as_bytes())
    }
}

impl RefusedAt {
    /// The line that says so.
    fn to_line(&self) -> LineBuffer
        ensures { result ≡ refusal_line self.now.line self.now.column self.now.word.now }
    {
        LineBuffer::new("refused")
            .number(u64::from(self.line))
            .number(u64::from(self.column))
            .field(self.word)
            .end()
    }
}
