//! What the program ends with: the number of its run's status, or one where its words can't be taken.
ghost use Rattle.std.specs.Prelude.{◌≡◌, IfOk};
ghost use Rattle.std.specs.Result.{IfErr};
ghost use Rattle.base.specs.Status.{status_code};
ghost use Rattle.yds_words.specs.Codes.{code_without_words};

use std::io::ErrorKind;
use yds_model::Status;

/// The exit status where the words can't be taken, as where one isn't text. It is the number after those of `Status`.
pub const NO_WORDS: u8 = 7;

/// The program's exit status, after a run that ended so or after words that couldn't be taken.
pub fn exit_code(ended: Result<Status, ErrorKind>) -> u8
    ensures run { IfOk ended (λ status. result ≡ status_code status) }
    ensures no_words { IfErr ended (λ kind. result ≡ code_without_words kind) }
{
    match ended {
        Ok(status) => status.code(),
        Err(ErrorKind::OutOfMemory) => Status::Memory.code(),
        Err(_) => NO_WORDS,
    }
}
