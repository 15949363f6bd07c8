//! Tests of scripts and transcripts as values: what is read of their texts, and what is printed of replies and events. What the program tells
//! of such texts is played by `tests/rows`.
#![tactic(auto)]

#[cfg(test)]
mod asking;
#[cfg(test)]
mod printing;
#[cfg(test)]
mod reading;
