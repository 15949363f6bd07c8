// Published words that a pen reads under its last look.
ghost use Rattle.std.specs.Prelude.{◌≡◌, ◌<◌};
ghost use Rattle.route_table.specs.Pins.{IsPin};

use crate::bank_machine::Routing;
use irq_base::Pin;
use route_bank::{pin_word as pin_of, targets_word, trigger_word as trigger_of};
use turn_book::{Pen, TurnBook};

/// Looks, and reads the word of a GSI.
pub fn gsi_word(book: &TurnBook<Routing>, pen: &mut Pen<Routing>, gsi: u16) -> u64
    requires book { pen.old.seat.table_id ≡ book.now.table.shared.table_id }
    requires width { book.now.width ≡ 4392 }
    requires gsi { gsi < 4096 }
    ensures book { pen.new.seat.table_id ≡ pen.old.seat.table_id }
{
    book.front(pen);
    targets_word(book, pen, gsi)
}

/// Looks, and reads the word of a trigger.
pub fn trigger_word(book: &TurnBook<Routing>, pen: &mut Pen<Routing>, trigger: u16) -> u64
    requires book { pen.old.seat.table_id ≡ book.now.table.shared.table_id }
    requires width { book.now.width ≡ 4392 }
    requires trigger { trigger < 256 }
    ensures book { pen.new.seat.table_id ≡ pen.old.seat.table_id }
{
    book.front(pen);
    trigger_of(book, pen, trigger)
}

/// Looks, and reads the word of a pin.
fn pin_word(book: &TurnBook<Routing>, pen: &mut Pen<Routing>, pin: Pin) -> u64
    requires book { pen.old.seat.table_id ≡ book.now.table.shared.table_id }
    requires width { book.now.width ≡ 4392 }
    requires pin { IsPin pin }
    ensures book { pen.new.seat.table_id ≡ pen.old.seat.table_id }
{
    book.front(pen);
    pin_of(book, pen, pin)
}

/// Some words of a registry.
#[derive(Clone, Copy, Debug, PartialEq, Eq)]
pub struct Words {
    /// Of the GSIs 0, 1, 2, 15, 20 and 4,095.
    pub gsis: [u64; 6],
    /// Of the triggers 0, 7 and 255.
    pub triggers: [u64; 3],
    /// Of the 8259A pins 0, 1 and 15.
    pub pics: [u64; 3],
    /// Of the I/O APIC pins 0, 1 and 23.
    pub ioapics: [u64; 3],
}

// The words of GSIs.
fn gsis(book: &TurnBook<Routing>, pen: &mut Pen<Routing>) -> [u64; 6]
    requires book { pen.old.seat.table_id ≡ book.now.table.shared.table_id }
    requires width { book.now.width ≡ 4392 }
    ensures book { pen.new.seat.table_id ≡ pen.old.seat.table_id }
{
    let a = gsi_word(book, pen, 0);
    let b = gsi_word(book, pen, 1);
    let c = gsi_word(book, pen, 2);
    let d = gsi_word(book, pen, 15);
    let e = gsi_word(book, pen, 20);
    let f = gsi_word(book, pen, 4095);
    [a, b, c, d, e, f]
}

// The words of triggers.
fn triggers(book: &TurnBook<Routing>, pen: &mut Pen<Routing>) -> [u64; 3]
    requires book { pen.old.seat.table_id ≡ book.now.table.shared.table_id }
    requires width { book.now.width ≡ 4392 }
    ensures book { pen.new.seat.table_id ≡ pen.old.seat.table_id }
{
    let a = trigger_word(book, pen, 0);
    let b = trigger_word(book, pen, 7);
    let c = trigger_word(book, pen, 255);
    [a, b, c]
}

// The words of pins.
fn pins(book: &TurnBook<Routing>, pen: &mut Pen<Routing>, a: Pin, b: Pin, c: Pin) -> [u64; 3]
    requires book { pen.old.seat.table_id ≡ book.now.table.shared.table_id }
    requires width { book.now.width ≡ 4392 }
    requires pins { IsPin a × IsPin b × IsPin c }
    ensures book { pen.new.seat.table_id ≡ pen.old.seat.table_id }
{
    let a = pin_word(book, pen, a);
    let b = pin_word(book, pen, b);
    let c = pin_word(book, pen, c);
    [a, b, c]
}

/// Some words of each kind, each read under a look of its own.
pub fn words_read(book: &TurnBook<Routing>, pen: &mut Pen<Routing>) -> Words
    requires book { pen.old.seat.table_id ≡ book.now.table.shared.table_id }
    requires width { book.now.width ≡ 4392 }
    ensures book { pen.new.seat.table_id ≡ pen.old.seat.table_id }
{
    let gsis = gsis(book, pen);
    let triggers = triggers(book, pen);
    let pics = pins(book, pen, Pin::Pic(0), Pin::Pic(1), Pin::Pic(15));
    let ioapics = pins(book, pen, Pin::Ioapic(0), Pin::Ioapic(1), Pin::Ioapic(23));
    Words {
        gsis,
        triggers,
        pics,
        ioapics,
    }
}
