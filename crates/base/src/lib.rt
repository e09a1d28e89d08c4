//! What both programs stand on: the limits of what may be read, kept and written, how a run ends, want of
//! memory, and the definitions of lines, of the fields of a line and of how numbers and names are spelled.
//!
//! It stands on no other crate of this repository. Its definitions, in `specs/`, are among what a reader of
//! the proofs has to believe; its lemmas are those that the crates of both programs cite. None of its calls
//! takes memory.
#![tactic(auto)]

pub mod limits;
mod memory;
mod number_fault;
mod status;

pub use memory::Memory;
pub use number_fault::NumberFault;
pub use status::Status;
