//! How many words a board publishes.

/// A word for each of 4,096 GSIs, 256 triggers, 16 pins of the 8259A pair and 24 of the I/O APIC.
pub const WORDS: u16 = 4096 + 256 + 16 + 24;
