//! Published words, each read in one load.
ghost use Rattle.std.specs.Prelude.{◌≡◌, ◌<◌, true, is_some, IfSome};
ghost use Rattle.turn_book.specs.Histories.{last_of};
ghost use Rattle.turn_book.specs.Views.{view_of, slots_of, noted_view};
ghost use Rattle.route_table.specs.Pins.{IsPin};
ghost use Rattle.route_bank.specs.Indices.{index_of_trigger, index_of_pin};
ghost use Rattle.board_model.specs.declared.width.TheConstants.{WORDS};

use irq_base::Pin;
use turn_book::{Machine, Pen, TurnBook};

/// The index of a pin's word.
#[inline]
pub fn index_of_pin(pin: Pin) -> u32
    requires { IsPin pin }
    ensures value { result ≡ index_of_pin pin }
    ensures within { result < WORDS }
{
    match pin {
        Pin::Pic(number) => 4352 + u32::from(number),
        Pin::Ioapic(number) => 4368 + u32::from(number),
    }
}

/// The word of a GSI, for `route_table::decode`: where it goes, and whether it is marked.
///
/// It is read from the bank of the pen's last look and noted under that generation.
#[inline]
pub fn targets_word<M: Machine>(book: &TurnBook<M>, pen: &mut Pen<M>, gsi: u16) -> u64
    requires book { pen.old.seat.table_id ≡ book.now.table.shared.table_id }
    requires looked { is_some (last_of (view_of pen.old.seat).looks) ≡ true }
    requires width { book.now.width ≡ WORDS }
    requires gsi { gsi < 4096 }
    ensures book { pen.new.seat.table_id ≡ pen.old.seat.table_id }
    ensures noted { IfSome (last_of (view_of pen.old.seat).looks) (λ had. view_of pen.new.seat
        ≡ noted_view gsi result had.generation (view_of pen.old.seat)) }
    ensures slots { slots_of pen.new.seat ≡ slots_of pen.old.seat }
{
    book.word(pen, u32::from(gsi))
}

/// The word of a trigger: 0 where it injects nothing; else bit 0 is set, bits 12 to 1 are the GSI, and bit 13 tells whether
/// it has a resample counter.
///
/// It is read from the bank of the pen's last look and noted under that generation.
#[inline]
pub fn trigger_word<M: Machine>(book: &TurnBook<M>, pen: &mut Pen<M>, trigger: u16) -> u64
    requires book { pen.old.seat.table_id ≡ book.now.table.shared.table_id }
    requires looked { is_some (last_of (view_of pen.old.seat).looks) ≡ true }
    requires width { book.now.width ≡ WORDS }
    requires trigger { trigger < 256 }
    ensures book { pen.new.seat.table_id ≡ pen.old.seat.table_id }
    ensures noted { IfSome (last_of (view_of pen.old.seat).looks) (λ had. view_of pen.new.seat
        ≡ noted_view (index_of_trigger trigger) result had.generation (view_of pen.old.seat)) }
    ensures slots { slots_of pen.new.seat ≡ slots_of pen.old.seat }
{
    book.word(pen, 4096 + u32::from(trigger))
}

/// The word of a pin: 0 where no GSI has it, else the GSI and 1.
///
/// It is read from the bank of the pen's last look and noted under that generation.
#[inline]
pub fn pin_word<M: Machine>(book: &TurnBook<M>, pen: &mut Pen<M>, pin: Pin) -> u64
    requires book { pen.old.seat.table_id ≡ book.now.table.shared.table_id }
    requires looked { is_some (last_of (view_of pen.old.seat).looks) ≡ true }
    requires width { book.now.width ≡ WORDS }
    requires pin { IsPin pin }
    ensures book { pen.new.seat.table_id ≡ pen.old.seat.table_id }
    ensures noted { IfSome (last_of (view_of pen.old.seat).looks) (λ had. view_of pen.new.seat
        ≡ noted_view (index_of_pin pin) result had.generation (view_of pen.old.seat)) }
    ensures slots { slots_of pen.new.seat ≡ slots_of pen.old.seat }
{
    book.word(pen, index_of_pin(pin))
}
