//! The C library: one call, `yds_answer`, that does what the program does, over bytes in memory.
//!
//! It stands on `yds_run`, whose `run_on_bytes` writes into its own sink, and whose `IsWorth` tells what an answer is worth. It
//! carries the promise that the caller gets the program's text and status: the text is the answer of the definitions to
//! the words and to all bytes of the input, and is worth what `run` says of it. The room has the text whole, or it is as it was.
//!
//! What a caller in C must see to is told in `library/yds.h`.
#![tactic(auto)]

ghost use Rattle.std.specs.Prelude.{◌≡◌, ◌≢◌, ◌↔◌, ◌⊎◌};
ghost use Rattle.base.specs.Status.{status_code};
ghost use Rattle.yds_c.specs.Given.{bytes_of, AreText};
ghost use Rattle.yds_c.specs.Answered.{IsAnswered, IsUntouched};

mod answering;
mod keys;
mod room;
mod text;
mod words;

use crate::answering::answer_in_memory;
use crate::keys::hash_keys;
use crate::room::put;
use crate::words::{are_text, owned};
use std::alloc::Global;
use yds_model::Status;
use yds_words::NO_WORDS;

/// Answers the words of a command line from the input. Returned is the program's status. The room gets the text, if it holds it
/// whole, and `needed` the number of its bytes, whether or not the room holds them.
///
/// Names are looked up with the keys, on which no answer depends.
#[unsafe(no_mangle)]
pub extern "C" fn yds_answer(
    alloc: Global,
    words: &[&[u8]],
    input: &[u8],
    first_key: u64,
    second_key: u64,
    room: &mut [u8],
    needed: &mut usize,
) -> u8
    // Words that aren't text are told as the program tells them, before any memory is taken.
    ensures not_text { (result ≡ NO_WORDS) ↔ ¬ AreText words.now }

    // Without an answer there is nothing in the room.
    ensures nothing { (result ≡ NO_WORDS) ⊎ (result ≡ status_code Status.Memory) → IsUntouched room.old room.new needed.new }

    // Any other return is the status of an answer. A read or a write that failed isn't among them.
    ensures answer { result ≢ NO_WORDS → result ≢ status_code Status.Memory
        → IsAnswered (bytes_of words.now) input.now result room.old room.new needed.new }
{
    *needed = 0;
    if !are_text(words) {
        return NO_WORDS;
    }
    let Ok(words) = owned(alloc, words) else {
        return Status::Memory.code();
    };
    let Ok(keys) = hash_keys(first_key, second_key) else {
        return Status::Memory.code();
    };
    match answer_in_memory(alloc, keys, &words, input) {
        Ok(answer) => {
            *needed = put(answer.text.bytes(), room);
            answer.status.code()
        }
        Err(_) => Status::Memory.code(),
    }
}

#[cfg(test)]
mod tests;
