use thiserror::Error;

/// Why a field isn't the number or the fraction that is wanted there.
#[derive(Clone, Copy, Debug, PartialEq, Eq, Error)]
pub enum NumberFault {
    /// Its spelling isn't in the grammar.
    #[error("not a number")]
    BadNumber,
    /// It is in the grammar, and a part of it is outside its limits.
    #[error("a number outside its limits")]
    OutOfRange,
}
