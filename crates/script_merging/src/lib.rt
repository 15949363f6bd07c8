//! Entries beside a script: what its actors ask, entry by entry.
//!
//! The crate is definitions (`specs/Merging`) and their lemmas alone; it knows of no board.
#![tactic(auto)]
