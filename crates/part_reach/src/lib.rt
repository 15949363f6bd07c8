//! One attempt of a call on a running board, which takes the turns of parts that the call reaches, and of no others.
//!
//! The call is run on copies of the parts whose turns it has won, by the published words. Where it wants a word or a part, the word
//! is read, or the turn is tried once; and after another look it is run anew. What it answers is committed by one exchange of the
//! front, and only then the copies are written into the slots.
//!
//! Where the table of reach names a part on every board, its turn is tried before the first look, and mostly one run is enough.
//!
//! Reading order of the definitions: `Turns` (whose turns are taken), `Sure`, `Beside`, `Copies`, `Limits`, `Wants`, `Entered`,
//! `UnderWay` (what an attempt comes to).
#![tactic(auto)]

mod attempting;
mod beginning;
mod beside;
mod by_table;
mod copying;
mod entering;
mod fetching;
mod limits;
mod running;
mod want;

pub use attempting::attempt;
