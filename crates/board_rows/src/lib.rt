//! Tests of the board: worked rows and scenarios of the public standards as tables of text, whose expected values come from
//! these (how a table reads is told by `row_table`); of a board as a value: shapes, a board's parts, and a caller's way to it; and of signals and
//! acknowledges on the parts that a rig lends.
#![tactic(auto)]

#[cfg(test)]
mod boards;
#[cfg(test)]
mod chips;
#[cfg(test)]
mod faces;
#[cfg(test)]
mod interrupts;
#[cfg(test)]
mod lacking;
#[cfg(test)]
mod limits;
#[cfg(test)]
mod plays;
#[cfg(test)]
mod reaches;
#[cfg(test)]
mod refusals;
#[cfg(test)]
mod registrations;
#[cfg(test)]
mod registries;
#[cfg(test)]
mod rigs;
#[cfg(test)]
mod ticks;
#[cfg(test)]
mod wishes;
