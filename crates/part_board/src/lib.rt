//! A running board: its parts stand behind turns, and its routing is published.
//!
//! `LiveBoard` is shared by threads; it holds one book of turns. `Desk` makes the passes, one for each caller. A `Pass` is one
//! caller's way to the board: it knows a list of entries, which begins the one legal history of the board. A `Note` carries what
//! a pass has seen to another pass, or to the desk.
//!
//! Reading order of the definitions: `Callers` (sets of callers), `Seen` (what a pass, a note and a desk know), `Tried` (what an
//! attempt of a call comes to), `Routed` (where a GSI goes), `DueNow` (what a processor would be given), `Facing` (what a face
//! tells), `Closing` (how a board ends).
#![tactic(auto)]

mod callers;
mod calling;
mod closed;
mod closing;
mod desk;
mod dues;
mod error;
mod gathering;
#[cfg(test)]
mod held;
mod learning;
mod live;
mod note;
mod on_live;
mod opening;
mod pass;
mod routing;
mod trying;
mod watching;

pub use closed::{Closed, Missing};
pub use desk::Desk;
pub use error::PassError;
pub use live::LiveBoard;
pub use note::Note;
pub use on_live::OnLive;
pub use part_attempt::NotNow;
pub use pass::Pass;
pub use routing::Moved;
pub use watching::Busy;
