//! Calls that every caller of a board may ask: asked of a face, with what it tells of them.
//!
//! `specs/Asks.antt` says what a face tells of calls that it answered one after another, and of the limit that barred one.
#![tactic(auto)]

mod ask;

pub use ask::ask_as_any;
