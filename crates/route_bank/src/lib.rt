//! The published words of a board in a book: read without a turn, and written as a publication.
//!
//! A book over a board has [`board_model::WORDS`] published words (`specs/Indices.antt`): where each GSI goes and whether an acknowledge of
//! it is of concern to anybody, what each trigger injects, and which GSI each pin has. `targets_word`, `trigger_word` and
//! `pin_word` read one word in one load, from the bank of the pen's last look, and the pen notes it under that look's
//! generation: wherever that is the front's, the word is the published one. `publish` writes all words of a registry to
//! come to the spare bank; the entry that is committed next as a publication makes them the published ones. `words_of` gives
//! the words of a registry as a list, with which a book begins.
//!
//! The words' formats stand in `board_model` and `route_table`: `route_table::decode` tells what the word of a GSI says,
//! `decode_pin` and `decode_trigger` what those of a pin and of a trigger say.
#![tactic(auto)]

mod decoding;
mod drafting;
mod laws;
mod listing;
mod marks;
mod publishing;
mod reading;

pub use decoding::{decode_pin, decode_trigger};
pub use laws::words_stand_at_indices;
pub use listing::words_of;
pub use publishing::publish;
pub use reading::{index_of_pin, pin_word, targets_word, trigger_word};
