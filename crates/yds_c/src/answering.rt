ghost use Rattle.std.specs.Prelude.{IfOk};
ghost use Rattle.yds_words.specs.Words.{words_of};
ghost use Rattle.yds_c.specs.Answered.{IsAnswer};

use crate::text::Text;
use std::alloc::Global;
use std::hash::RandomState;
use yds_model::{Memory, Status};
use yds_run::run_on_bytes;

/// An answer: the status of a run that wrote it whole, and its text.
#[derive(Drop)]
pub(crate) struct Answer {
    pub(crate) status: Status,
    pub(crate) text: Text,
}

/// The answer of a run over the input. A write fails for want of memory alone.
pub(crate) fn answer_in_memory(
    alloc: Global,
    keys: RandomState,
    words: &[String],
    input: &[u8],
) -> Result<Answer, Memory>
    ensures { IfOk result (λ answer. IsAnswer (words_of words.now) input.now answer.text.written answer.status) }
{
    let mut text = Text::new(alloc);
    match run_on_bytes(alloc, keys, words, input, &mut text) {
        Status::ReadFault | Status::WriteFault | Status::Memory => Err(Memory),
        status => Ok(Answer { status, text }),
    }
}
