//! Why no pass is made.

use thiserror::Error;

/// Why no pass is made.
#[derive(Debug, Drop, Error, PartialEq, Eq)]
pub enum PassError {
    /// The pass of that caller was made before.
    #[error("the pass of that caller was made before")]
    Taken,
    /// There is not enough memory.
    #[error("out of memory")]
    NoMemory,
}
