//! Places of parts.

use arrayvec::ArrayVec;
use irq_bits::MAX_CPUS;
use part_slots::FIXED_PARTS;

/// The parts of a board at most, each with a place of its own.
pub const MAX_PLACES: usize = FIXED_PARTS as usize + MAX_CPUS as usize;

/// Places of parts whose turns an attempt has won, in the order in which it won them.
pub type Places = ArrayVec<u32, MAX_PLACES>;
