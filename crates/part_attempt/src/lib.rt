//! What attempts of calls on a running board have in common.
//!
//! What a call did on copies is entered by one exchange of the front, and only then the copies are written into the slots. The words
//! of a publication are written to the spare bank before the exchange.
//!
//! Reading order of the definitions: `Attempts` (what an attempt comes to), `Entering`.
#![tactic(auto)]

mod entering;
mod losing;
mod not_now;
mod places;
mod publishing;

pub use entering::{Answered, commit_answered};
pub use losing::late;
pub use not_now::NotNow;
pub use places::Places;
pub use publishing::{did_publish, draft};
