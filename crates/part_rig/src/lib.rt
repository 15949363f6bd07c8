//! A rig over the parts in hand of a running board, which answers the published words that were read so far.
//!
//! A `Workroom` has room for the working copies of a call. Its rig, `InHand`, holds the copies that were taken in, and what is
//! `Known` of the published words: `Known::look` looks at the front, and from then on the rig stands for the words that are
//! published there; `Known::load` loads a word that was missing. `Workroom::step` runs a call, and `Known::lacks` tells
//! afterwards whether a word was missing: then the answer is worth nothing, and the call is to be run again.
//!
//! Reading order of the definitions: `Readings` (words that were read, and notes), `Noted` (which words count as noted), `Knowing`
//! (for which words it stands), `Rooms` (copies and what is spare), `Lending` (a registry that is lent in place of a copy).
#![tactic(auto)]

mod asking;
mod in_hand;
mod known;
mod lending;
mod looking;
mod reading;
mod steps;
mod workroom;

pub use in_hand::InHand;
pub use known::Known;
pub use lending::lent_comes_home;
pub use reading::Reading;
pub use workroom::Workroom;
