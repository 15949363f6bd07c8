//! A write of a guest, and what a put of it is answered.

use arrayvec::ArrayVec;
use irq_base::Space;

/// A write of a guest that leaves for the monitor.
#[derive(Clone, Copy, Debug, PartialEq, Eq)]
pub struct RingWrite {
    /// The processor that wrote.
    pub cpu: u16,
    /// The space of the address.
    pub space: Space,
    /// The guest address.
    pub address: u64,
    /// The number of bytes.
    pub len: u8,
    /// What was written.
    pub value: u64,
}

/// What fills the room of a list of writes that has no write there.
impl Default for RingWrite {
    fn default() -> RingWrite {
        RingWrite {
            cpu: 0,
            space: Space::Memory,
            address: 0,
            len: 0,
            value: 0,
        }
    }
}

/// The writes that a ring has room for, 128.
pub type RingWrites = ArrayVec<RingWrite, 128>;

/// What a put is answered.
#[derive(Clone, Copy, Debug, PartialEq, Eq)]
pub enum RingPut {
    /// The write stands last in the ring.
    Placed {
        /// How many writes were placed before it.
        at: u64,
    },
    /// 128 writes stand in the ring, and the write was not placed.
    Full,
}
