//! Tests of chips, registers, messages and registries: worked rows and scenarios of the public standards.
#![tactic(auto)]

#[cfg(test)]
mod copies;
#[cfg(test)]
mod ioapic;
#[cfg(test)]
mod local_apic;
#[cfg(test)]
mod messages;
#[cfg(test)]
mod pic;
#[cfg(test)]
mod routes;
#[cfg(test)]
mod tables;
#[cfg(test)]
mod types;
