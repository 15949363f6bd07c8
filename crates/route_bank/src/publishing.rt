//! A whole registry, written to the spare bank.
ghost use Rattle.std.specs.Prelude.{◌≡◌, ℕ, ◌+◌, ◌<◌, ◌≤◌, length, get_or, false, true, is_some, Some, option_map};
ghost use Rattle.turn_book.specs.Banks.{AreDrafted, IsSpareBank};
ghost use Rattle.turn_book.specs.Views.{view_of, slots_of};
ghost use Rattle.irq_base.specs.declared.event.Pin.TheVariants.{Pic, Ioapic};
ghost use Rattle.irqfd_set.specs.Rows.{of_trigger};
ghost use Rattle.route_table.specs.Rows.{targets_of};
ghost use Rattle.route_table.specs.Pins.{gsi_of};
ghost use Rattle.route_table.specs.Words.{targets_word};
ghost use Rattle.board_model.specs.Routing.{trigger_of};
ghost use Rattle.board_model.specs.Published.{trigger_word, pin_word};
ghost use Rattle.route_bank.specs.Indices.{AreInRange, words_with};
ghost use Rattle.route_bank.specs.Drafting.{HasFrom, SameBelow, ChangesDrafts};
ghost use Rattle.board_model.specs.declared.width.TheConstants.{WORDS};

use crate::drafting::draft;
use crate::marks::mark;
use ack_notifiers::Watches;
use irq_base::Pin;
use irqfd_set::{Irqfd, Irqfds};
use route_table::Table;
use turn_book::{Machine, Pen, SpareBank, TurnBook};

// The word of a trigger with this irqfd, or with none.
pub(crate) fn trigger_word(row: Option<Irqfd>) -> u64
    ensures { result ≡ trigger_word (option_map trigger_of row) }
{
    match row {
        None => 0,
        Some(row) => {
            let mark = if row.resample.is_some() { 1 << 13 } else { 0 };
            1 + u64::from(row.gsi) * 2 + mark
        }
    }
}

// The word of a pin that has this GSI, or none.
pub(crate) fn pin_word(gsi: Option<u16>) -> u64
    ensures { result ≡ pin_word gsi }
{
    match gsi {
        None => 0,
        Some(gsi) => u64::from(gsi) + 1,
    }
}

// Writes the words of the GSIs.
fn draft_gsis<M: Machine>(
    book: &TurnBook<M>,
    pen: &mut Pen<M>,
    bank: SpareBank,
    table: &Table,
    marks: &[bool],
)
    requires book { pen.old.seat.table_id ≡ book.now.table.shared.table_id }
    requires knows { is_some (view_of pen.old.seat).knows ≡ true }
    requires bank { IsSpareBank book.now.table.shared.table_id.slots book.now.width (view_of pen.old.seat) bank.begin }
    requires width { book.now.width ≡ WORDS }
    requires marks { length marks.now ≡ 4096 }
    ensures book { pen.new.seat.table_id ≡ pen.old.seat.table_id }
    ensures knows { is_some (view_of pen.new.seat).knows ≡ true }
    ensures bank { IsSpareBank book.now.table.shared.table_id.slots book.now.width (view_of pen.new.seat) bank.begin }
    ensures drafted { HasFrom 0 4096 (λ gsi.
        targets_word (targets_of table.now gsi) (get_or marks.now gsi false)) (view_of pen.new.seat).drafts }
    ensures rest { ChangesDrafts (view_of pen.old.seat) (view_of pen.new.seat) }
    ensures slots { slots_of pen.new.seat ≡ slots_of pen.old.seat }
{
    for gsi in 0..4096 {
        let word = table.word(gsi, marks[gsi as usize]);
        draft(book, pen, bank, u32::from(gsi), word);
    }
}

// Writes the words of the triggers.
fn draft_triggers<M: Machine>(
    book: &TurnBook<M>,
    pen: &mut Pen<M>,
    bank: SpareBank,
    irqfds: &Irqfds,
)
    requires book { pen.old.seat.table_id ≡ book.now.table.shared.table_id }
    requires knows { is_some (view_of pen.old.seat).knows ≡ true }
    requires bank { IsSpareBank book.now.table.shared.table_id.slots book.now.width (view_of pen.old.seat) bank.begin }
    requires width { book.now.width ≡ WORDS }
    ensures book { pen.new.seat.table_id ≡ pen.old.seat.table_id }
    ensures knows { is_some (view_of pen.new.seat).knows ≡ true }
    ensures bank { IsSpareBank book.now.table.shared.table_id.slots book.now.width (view_of pen.new.seat) bank.begin }
    ensures drafted { HasFrom 4096 256 (λ trigger.
        trigger_word (option_map trigger_of (of_trigger irqfds.now trigger))) (view_of pen.new.seat).drafts }
    ensures below { SameBelow 4096 (view_of pen.old.seat).drafts (view_of pen.new.seat).drafts }
    ensures rest { ChangesDrafts (view_of pen.old.seat) (view_of pen.new.seat) }
    ensures slots { slots_of pen.new.seat ≡ slots_of pen.old.seat }
{
    for trigger in 0..256 {
        let word = trigger_word(irqfds.of_trigger(trigger));
        draft(book, pen, bank, 4096 + u32::from(trigger), word);
    }
}

// Writes the words of the pins of the 8259A pair.
fn draft_pics<M: Machine>(book: &TurnBook<M>, pen: &mut Pen<M>, bank: SpareBank, table: &Table)
    requires book { pen.old.seat.table_id ≡ book.now.table.shared.table_id }
    requires knows { is_some (view_of pen.old.seat).knows ≡ true }
    requires bank { IsSpareBank book.now.table.shared.table_id.slots book.now.width (view_of pen.old.seat) bank.begin }
    requires width { book.now.width ≡ WORDS }
    ensures book { pen.new.seat.table_id ≡ pen.old.seat.table_id }
    ensures knows { is_some (view_of pen.new.seat).knows ≡ true }
    ensures bank { IsSpareBank book.now.table.shared.table_id.slots book.now.width (view_of pen.new.seat) bank.begin }
    ensures drafted { HasFrom 4352 16 (λ number. pin_word (gsi_of table.now (Pic number))) (view_of pen.new.seat).drafts }
    ensures below { SameBelow 4352 (view_of pen.old.seat).drafts (view_of pen.new.seat).drafts }
    ensures rest { ChangesDrafts (view_of pen.old.seat) (view_of pen.new.seat) }
    ensures slots { slots_of pen.new.seat ≡ slots_of pen.old.seat }
{
    for number in 0..16 {
        let word = pin_word(table.gsi_of(Pin::Pic(number)));
        draft(book, pen, bank, 4352 + u32::from(number), word);
    }
}

// Writes the words of the pins of the I/O APIC.
fn draft_ioapics<M: Machine>(book: &TurnBook<M>, pen: &mut Pen<M>, bank: SpareBank, table: &Table)
    requires book { pen.old.seat.table_id ≡ book.now.table.shared.table_id }
    requires knows { is_some (view_of pen.old.seat).knows ≡ true }
    requires bank { IsSpareBank book.now.table.shared.table_id.slots book.now.width (view_of pen.old.seat) bank.begin }
    requires width { book.now.width ≡ WORDS }
    ensures book { pen.new.seat.table_id ≡ pen.old.seat.table_id }
    ensures knows { is_some (view_of pen.new.seat).knows ≡ true }
    ensures bank { IsSpareBank book.now.table.shared.table_id.slots book.now.width (view_of pen.new.seat) bank.begin }
    ensures drafted { HasFrom 4368 24 (λ number. pin_word (gsi_of table.now (Ioapic number))) (view_of pen.new.seat).drafts }
    ensures below { SameBelow 4368 (view_of pen.old.seat).drafts (view_of pen.new.seat).drafts }
    ensures rest { ChangesDrafts (view_of pen.old.seat) (view_of pen.new.seat) }
    ensures slots { slots_of pen.new.seat ≡ slots_of pen.old.seat }
{
    for number in 0..24 {
        let word = pin_word(table.gsi_of(Pin::Ioapic(number)));
        draft(book, pen, bank, 4368 + u32::from(number), word);
    }
}

/// Writes the words of a registry to come to the spare bank: those of this table and these registrations, ticks going to
/// the GSI `tick`.
///
/// The pen knows the front's generation: it holds the registry and has looked at the front since it took it. The entry
/// that is committed next may then be a publication that leaves such a registry.
pub fn publish<M: Machine>(
    book: &TurnBook<M>,
    pen: &mut Pen<M>,
    words: &Table,
    irqfds: &Irqfds,
    watches: &Watches,
    tick: u16,
)
    requires book { pen.old.seat.table_id ≡ book.now.table.shared.table_id }
    requires knows { is_some (view_of pen.old.seat).knows ≡ true }
    requires width { book.now.width ≡ WORDS }
    requires range { AreInRange irqfds.now watches.now tick }
    ensures book { pen.new.seat.table_id ≡ pen.old.seat.table_id }
    ensures drafted { AreDrafted (words_with words.now irqfds.now watches.now tick) (view_of pen.new.seat).drafts }
    ensures rest { ChangesDrafts (view_of pen.old.seat) (view_of pen.new.seat) }
    ensures slots { slots_of pen.new.seat ≡ slots_of pen.old.seat }
{
    let mut marks = [false; 4096];
    mark(&mut marks, irqfds.rows(), watches.rows(), tick);
    let bank = book.spare_bank(pen);
    draft_gsis(book, pen, bank, words, &marks);
    draft_triggers(book, pen, bank, irqfds);
    draft_pics(book, pen, bank, words);
    draft_ioapics(book, pen, bank, words);
}
