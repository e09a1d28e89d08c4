//! A line of text, made on the stack field by field.
//!
//! It stands on `yds_fraction`, whose values it writes, on `itoa`, which makes digits, and on `arrayvec`, which keeps the bytes. It
//! carries the promise that the line has just the fields that were said, numbers and fractions as the definitions in `yds_model`
//! write them. It takes no memory.
#![tactic(auto)]

pub mod line_buffer;

pub use line_buffer::LineBuffer;
