//! Defines the names of a budget's numbers.

use thiserror::Error;

/// The number of a budget that did not suffice.
#[derive(Clone, Copy, Debug, PartialEq, Eq, Error)]
pub enum Spent {
    #[error("Fuel")]
    Fuel,
    #[error("Depth")]
    Depth,
    #[error("Output")]
    Output,
    #[error("Size")]
    Size,
    #[error("Nesting")]
    Nesting,
}
