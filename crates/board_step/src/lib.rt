//! The one-thread board: one call is one step, and what a legal history of calls is.
//!
//! What each call does stands in `board_calls`. Reading order of the definitions: `Step` (one call is one step), `Reach`,
//! `Sound`, `History`, and then what holds of every step: `Laws`, `Publications`; what a body is worth that runs a
//! call on parts in hand: `Bodies`, `Applied`; the board of all parts: `Whole`, `Opening`, `Owned`, `Due`. What a call
//! reaches, asked of a board, stands in `board_reach`, and what holds along every legal history in `board_laws`.
//!
//! `Board` is the board on one thread. The functions without a body are laws: the contract of each is what holds.
#![tactic(auto)]

mod board;
mod bodies;
mod choices;
mod due;
mod follow;
mod laws;
mod limits;
mod on_board;
mod open;
mod opening;
mod publications;
mod reach;
mod requests;
mod same;
mod sound;
mod step;
mod typed;
mod whole;

pub use board::Board;
pub use bodies::{bodies_step, done_leads};
pub use due::Due;
pub use laws::{
    always_answers, answers_once, board_after_is_reached, calls_steadily, leads_to_one,
    refused_rightly, refuses_first, steps_are_followed, steps_tell_few, words_stay,
};
pub use limits::{barred_by, would_publish_in};
pub use on_board::OnBoard;
pub use open::OpenError;
pub use publications::{
    histories_keep_the_frame, legal_histories_count, limits_are_told,
    publications_reach_the_registry, reach_is_there, steps_keep_the_frame, steps_show_publications,
    words_stay_along,
};
pub use reach::{depends_on_reach, reach_is_table, stays_outside_reach};
pub use sound::{histories_keep_sound, opening_is_sound, steps_keep_sound};
pub use step::{number_of, step_on};
pub use typed::calls_are_typed;
pub use whole::{
    all_parts_are_whole, board_has_its_parts, parts_make_their_board, whole_parts_are_all,
};
