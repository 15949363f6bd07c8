//! All parts of a board, lent to be read.

use board_raise::{IoPart, LapicRow, PicPart, RegistryPart};
use event_counter::Counters;
use irq_base::Shape;
use tick_reinject::TickState;

/// All parts of a board of that shape.
#[derive(Clone, Copy)]
pub(crate) struct Seen<'a> {
    pub(crate) shape: &'a Shape,
    pub(crate) registry: &'a RegistryPart,
    pub(crate) counters: &'a Counters,
    pub(crate) tick: &'a TickState,
    pub(crate) pic: &'a PicPart,
    pub(crate) ioapic: &'a IoPart,
    pub(crate) lapics: &'a LapicRow,
}
