//! Why no board is made.

use thiserror::Error;

/// Why no board is made.
#[derive(Debug, Drop, Error, PartialEq, Eq)]
pub enum OpenError {
    /// A number of the shape is outside the limits.
    #[error("a number of the shape is outside the limits")]
    BadShape,
    /// There is not enough memory.
    #[error("out of memory")]
    NoMemory,
}
