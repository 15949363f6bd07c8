//! Histories beside a script: legal ones that are what its actors ask, and the endings of a run that fits it.
//!
//! The crate is definitions (`specs/Merging`) and their lemmas alone; a run is judged against them by the checker, and a replay makes
//! a run that fits.
#![tactic(auto)]
