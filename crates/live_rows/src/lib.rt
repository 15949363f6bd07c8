// Tests of a running board. What holds boards, desks and passes stands in functions that answer plain values; the tests compare these.
#![tactic(auto)]

#[cfg(test)]
mod asking;
#[cfg(test)]
mod counts;
#[cfg(test)]
mod jobs;
#[cfg(test)]
mod opening;
#[cfg(test)]
mod rows;
#[cfg(test)]
mod storms;
#[cfg(test)]
mod threads;
