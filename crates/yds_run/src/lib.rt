//! The run of the program: `run`, which reads the input, has its command answer and the answer written, and `run_on_bytes`, which does the
//! same over an input in memory.
//!
//! It stands on `yds_words`, which tells the command, on the crates of the commands (`yds_answer_plans`, `yds_answer_points`,
//! `yds_answer_verdicts` and `yds_answer_jobs`), on `document_reader`, which reads, on `yds_port`, which gives and takes bytes, and on the
//! laws of `yds_texts` that tell what the texts are worth. It carries the promise that what was written is
//! the answer of the definitions to the words and to all bytes of the input, whole and flushed, or that
//! the status tells what came between: a fault that the source or the sink counted, or want of memory
//! before the first byte was written.
#![tactic(auto)]

mod on_bytes;
mod running;

pub use on_bytes::run_on_bytes;
pub use running::run;
