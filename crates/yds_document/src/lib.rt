//! Documents: jobs with their names, operating points, the slots of a schedule, the levels of a
//! certificate, a grid and an energy, read from bytes and printed as text.
//!
//! Everything here stands in the crates below, under the same names: the document in `document_value`, reading in
//! `document_reader`, printing in `document_text`, and a line made on the stack in `text_line`. A caller that needs only one
//! of them may name that crate alone. These carry the promise that a document is read exactly as the definition of reading in
//! `yds_model` says, faults with their places among it, that what is printed is the canonical text, or after a fault of the
//! sink a front of it, and that every document is within the limits, so that its text is read again as the same document.
#![tactic(auto)]

pub use document_reader::{DocFault, read_document};
pub use document_text::{print, write_mixed};
pub use document_value::{Document, Grid};
pub use text_line::{LineBuffer, line_buffer};
pub use yds_model::Reason;
