//! An MSI-X function: its table, its pending bits, and the messages that it sends over a caller's way to a board.
//!
//! A fire of an entry sends the message of the entry, or pends it where the entry or the function is masked, and merges with
//! one that is pending. What unmasks or enables sends what is pending. `specs/Operations.antt` says what an operation
//! does, `specs/Balance.antt` what holds of every list of them: no request is lost, and each merges only while one is pending.
#![tactic(auto)]

mod entry;
mod fired;
mod function;
mod sending;
mod table;

pub use fired::Fired;
pub use function::Function;
