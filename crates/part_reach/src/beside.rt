//! What a call reaches beside the local APIC of its processor.
ghost use Rattle.std.specs.Prelude.{◌≡◌, ◌+◌, true, false, is_some, IfSome};
ghost use Rattle.irq_bits.specs.Members.{greatest_vector};
ghost use Rattle.turn_book.specs.Hands.{held_at, AreHome};
ghost use Rattle.turn_book.specs.Histories.{is_in};
ghost use Rattle.turn_book.specs.Many.{HoldsJust};
ghost use Rattle.turn_book.specs.Views.{view_of, slots_of};
ghost use Rattle.board_calls.specs.Calls.{number_of};
ghost use Rattle.part_slots.specs.Slots.{place as place_of};
ghost use Rattle.part_reach.specs.Beside.{beside_apic, beside, IsBeside};

use crate::by_table::number_of;
use board_calls::hears_pair;
use irq_base::{Call, Caller, Part};
use lapic::Lapic;
use part_machine::RunningBoard;
use part_slots::{FIXED_PARTS, Slot};
use turn_book::{Pen, TurnBook, part_of};

// Whether there is an interrupt to end.
#[inline]
fn has_to_end(lapic: &Lapic) -> bool
    ensures { result ≡ is_some (greatest_vector lapic.now.isr) }
{
    let mut copy = lapic.copy();
    copy.eoi().is_some()
}

// What a call reaches beside this local APIC of its processor.
#[inline]
fn beside_apic(lapic: &Lapic, n: u16, call: &Call) -> Option<Part>
    ensures { result ≡ beside_apic lapic.now n call.now }
{
    match call {
        Call::Ack => (!lapic.has_nmi() && hears_pair(lapic, n)).then_some(Part::Pic),
        Call::Eoi => has_to_end(lapic).then_some(Part::Ioapic),
        _ => None,
    }
}

// What a call reaches beside the local APIC of its processor, which the slot keeps.
#[inline]
fn beside_slot(slot: &Slot, n: u16, call: &Call) -> Option<Part>
    ensures { result ≡ beside slot.now n call.now }
{
    match slot {
        Slot::Lapic(lapic) => beside_apic(lapic, n, call),
        _ => None,
    }
}

// What a call reaches beside the local APIC of processor n, which the pen holds. The pen and its slots stay.
#[inline]
fn beside_held(
    book: &TurnBook<RunningBoard>,
    pen: &mut Pen<RunningBoard>,
    turn: u32,
    n: u16,
    call: &Call,
) -> Option<Part>
    requires book { pen.old.seat.table_id ≡ book.now.table.shared.table_id }
    requires turn { turn ≡ n + FIXED_PARTS }
    requires held { is_some (held_at turn (view_of pen.old.seat).held) ≡ true }
    requires home { AreHome (view_of pen.old.seat).held (slots_of pen.old.seat) }
    ensures book { pen.new.seat.table_id ≡ pen.old.seat.table_id }
    ensures home { AreHome (view_of pen.new.seat).held (slots_of pen.new.seat) }
    ensures view { view_of pen.new.seat ≡ view_of pen.old.seat }
    ensures told { IfSome result (IsBeside (view_of pen.old.seat) n call.now) }
{
    let slot = part_of(pen, book, turn);
    beside_slot(slot, n, call)
}

// What a call reaches beside the local APIC of its processor, where that alone is in hand; it is none of these places. The pen and its
// slots stay.
pub(crate) fn reached_beside(
    book: &TurnBook<RunningBoard>,
    pen: &mut Pen<RunningBoard>,
    places: &[u32],
    caller: Caller,
    call: &Call,
) -> Option<Part>
    requires book { pen.old.seat.table_id ≡ book.now.table.shared.table_id }
    requires just { HoldsJust places.now (view_of pen.old.seat).held }
    requires home { AreHome (view_of pen.old.seat).held (slots_of pen.old.seat) }
    ensures book { pen.new.seat.table_id ≡ pen.old.seat.table_id }
    ensures home { AreHome (view_of pen.new.seat).held (slots_of pen.new.seat) }
    ensures view { view_of pen.new.seat ≡ view_of pen.old.seat }
    ensures told { IfSome result (IsBeside (view_of pen.old.seat) (number_of caller) call.now) }
    ensures free { IfSome result (λ part. is_in (place_of part) places.now ≡ false) }
{
    let n = number_of(caller);
    match places.split_first() {
        None => None,
        Some((turn, rest)) => {
            if rest.is_empty() && *turn == u32::from(n) + FIXED_PARTS {
                beside_held(book, pen, *turn, n, call)
            } else {
                None
            }
        }
    }
}
