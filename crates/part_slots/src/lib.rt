//! A running board as a book sees it: its parts as slots, its callers and places as numbers, its steps, and their laws.
//!
//! Reading order of the definitions: `Slots` (the parts of a board as their turns guard them, and their places), `Callers`
//! (callers as numbers), `Running` (where a board begins, its steps, and what an entry reaches), `Histories` (the book's
//! histories are the legal histories of the board, and what stands along them), `Commits` (what a pen has in hand, and what the
//! call of a body on it is worth). The functions without a body are laws: the contract of each is what holds.
#![tactic(auto)]

mod laws;
mod numbers;
mod slot;
mod state;

pub use laws::{
    callers_are_numbers, calls_are_entered, hands_are_of_the_board, kept_parts_are_slots,
    lacking_is_reached, openings_are_told, parts_have_places, runs_are_legal, slots_keep_parts,
    states_go_on, states_stand,
};
pub use numbers::{FIXED_PARTS, caller_number, part_at, place};
pub use slot::{Home, Slot};
pub use state::State;
