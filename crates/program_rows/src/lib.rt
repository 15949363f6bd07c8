//! Tests of the program of what is not seen from outside: a source or a sink that fails in mid-stream, texts of a command line that are not to
//! be had, actors that are held until they meet, and the board that a run leaves. All else is played on the built program by `tests/rows`.
#![tactic(auto)]

#[cfg(test)]
mod asking;
#[cfg(test)]
mod ends;
#[cfg(test)]
mod faults;
#[cfg(test)]
mod lives;
#[cfg(test)]
mod meeting;
