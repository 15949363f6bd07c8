//! Tests of channel 0 of an 8254, over a face that counts what is asked of it.
#![tactic(auto)]

#[cfg(test)]
mod meter;
#[cfg(test)]
mod rows;
#[cfg(test)]
mod stops;
