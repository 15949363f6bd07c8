//! What the parts in hand tell of what a processor would be given now.
ghost use Rattle.std.specs.Prelude.{◌≡◌, ◌+◌, [], true, is_some, option_map, Some, IfSome};
ghost use Rattle.irq_base.specs.declared.call.Caller.TheVariants.{Cpu};
ghost use Rattle.irq_base.specs.declared.shape.Part.TheVariants.{Lapic as lapic_of};
ghost use Rattle.board_model.specs.Board.{part_of as part_on};
ghost use Rattle.board_model.specs.Chips.{pair_of};
ghost use Rattle.board_step.specs.Due.{due_by as due_on};
ghost use Rattle.turn_book.specs.Hands.{held_at, AreHome};
ghost use Rattle.turn_book.specs.Histories.{IsPrefix};
ghost use Rattle.turn_book.specs.Many.{HoldsAll, HoldsJust};
ghost use Rattle.turn_book.specs.Views.{view_of, slots_of, IsLegal, AddsNoneOfOwn, SamePlace};
ghost use Rattle.part_slots.specs.Running.{Opens, IsStep, caller_of};
ghost use Rattle.part_board.specs.DueNow.{due_turns, output_in, due_by_line, due_in_slot, due_of_held};

use arrayvec::ArrayVec;
use board_calls::hears_pair;
use board_step::Due;
use lapic::Lapic;
use part_machine::RunningBoard;
use part_slots::{FIXED_PARTS, Slot};
use turn_book::{Pen, TurnBook, part_of};

// Places of parts.
pub(crate) type Turns = ArrayVec<u32, 2>;

// The places of the parts that tell what is due to a processor.
pub(crate) fn turns_of(n: u16) -> Turns
    ensures { result.items ≡ due_turns (Cpu n) }
{
    let mut turns = Turns::new();
    if n == 0 {
        turns.push(3);
    }
    turns.push(u32::from(n) + FIXED_PARTS);
    turns
}

// Whether the output of the 8259A pair is active, where the slot has the pair.
fn output_of(slot: &Slot) -> bool
    ensures { result ≡ output_in slot.now }
{
    match slot {
        Slot::Pic(part) => part.pair.output(),
        _ => false,
    }
}

// What the local APIC of processor n would give it, where the pair's output is so.
fn due_by(lapic: &Lapic, n: u16, output: bool) -> Due
    ensures { result ≡ due_by_line n output lapic.now }
{
    if lapic.has_nmi() {
        return Due::Nmi;
    }
    if hears_pair(lapic, n) && output {
        return Due::Extint;
    }
    match lapic.giveable() {
        None => Due::None,
        Some(vector) => Due::Vector(vector),
    }
}

// The same where the slot has the local APIC; else nothing.
fn due_of(slot: &Slot, n: u16, output: bool) -> Due
    ensures { result ≡ due_in_slot n output slot.now }
{
    match slot {
        Slot::Lapic(lapic) => due_by(lapic, n, output),
        _ => Due::None,
    }
}

// Whether the output of the pair in hand is active. The pen and its slots stay as they are.
fn output_in_hand(book: &TurnBook<RunningBoard>, pen: &mut Pen<RunningBoard>) -> bool
    requires book { pen.old.seat.table_id ≡ book.now.table.shared.table_id }
    requires held { is_some (held_at 3 (view_of pen.old.seat).held) ≡ true }
    requires home { AreHome (view_of pen.old.seat).held (slots_of pen.old.seat) }
    ensures book { pen.new.seat.table_id ≡ pen.old.seat.table_id }
    ensures home { AreHome (view_of pen.new.seat).held (slots_of pen.new.seat) }
    ensures view { view_of pen.new.seat ≡ view_of pen.old.seat }
    ensures output { option_map output_in (held_at 3 (view_of pen.old.seat).held) ≡ Some result }
{
    let slot = part_of(pen, book, 3);
    output_of(slot)
}

// What the local APIC in hand would give its processor, where the pair's output is so. The pen and its slots stay as they are.
fn given_in_hand(
    book: &TurnBook<RunningBoard>,
    pen: &mut Pen<RunningBoard>,
    n: u16,
    output: bool,
) -> Due
    requires book { pen.old.seat.table_id ≡ book.now.table.shared.table_id }
    requires held { is_some (held_at (n + FIXED_PARTS) (view_of pen.old.seat).held) ≡ true }
    requires home { AreHome (view_of pen.old.seat).held (slots_of pen.old.seat) }
    ensures book { pen.new.seat.table_id ≡ pen.old.seat.table_id }
    ensures home { AreHome (view_of pen.new.seat).held (slots_of pen.new.seat) }
    ensures view { view_of pen.new.seat ≡ view_of pen.old.seat }
    ensures due { option_map (due_in_slot n output) (held_at (n + FIXED_PARTS) (view_of pen.old.seat).held) ≡ Some result }
{
    let slot = part_of(pen, book, u32::from(n) + FIXED_PARTS);
    due_of(slot, n, output)
}

// What processor n would be given, whose turns the pen holds. The pen and its slots stay as they are.
fn due_held(book: &TurnBook<RunningBoard>, pen: &mut Pen<RunningBoard>, n: u16) -> Due
    requires book { pen.old.seat.table_id ≡ book.now.table.shared.table_id }
    requires held { HoldsAll (due_turns (Cpu n)) (view_of pen.old.seat).held }
    requires home { AreHome (view_of pen.old.seat).held (slots_of pen.old.seat) }
    ensures book { pen.new.seat.table_id ≡ pen.old.seat.table_id }
    ensures home { AreHome (view_of pen.new.seat).held (slots_of pen.new.seat) }
    ensures view { view_of pen.new.seat ≡ view_of pen.old.seat }
    ensures due { due_of_held n (view_of pen.old.seat).held ≡ Some result }
{
    let output = n == 0 && output_in_hand(book, pen);
    given_in_hand(book, pen, n, output)
}

// A look at the front, and what processor n would then be given, whose turns the pen holds and gives back.
pub(crate) fn due_looked(
    book: &TurnBook<RunningBoard>,
    pen: &mut Pen<RunningBoard>,
    turns: &[u32],
    n: u16,
) -> Due
    requires book { pen.old.seat.table_id ≡ book.now.table.shared.table_id }
    requires turns { turns.now ≡ due_turns (Cpu n) }
    requires just { HoldsJust turns.now (view_of pen.old.seat).held }
    requires home { AreHome (view_of pen.old.seat).held (slots_of pen.old.seat) }
    ensures book { pen.new.seat.table_id ≡ pen.old.seat.table_id }
    ensures bare { (view_of pen.new.seat).held ≡ [] }
    ensures seen { IsPrefix (view_of pen.old.seat).seen (view_of pen.new.seat).seen }
    ensures legal { IsLegal Opens IsStep (view_of pen.new.seat) }
    ensures own { AddsNoneOfOwn caller_of (view_of pen.old.seat) (view_of pen.new.seat) }
    ensures due { IfSome (view_of pen.new.seat).now (λ b. result ≡ due_on n (part_on b (lapic_of n)) (pair_of b.pic)) }
    ensures turns { ((view_of pen.new.seat).took ≡ (view_of pen.old.seat).took)
        × ((view_of pen.new.seat).found ≡ (view_of pen.old.seat).found) }
    ensures misses { (view_of pen.new.seat).misses ≡ (view_of pen.old.seat).misses }
    ensures notes { (view_of pen.new.seat).notes ≡ (view_of pen.old.seat).notes }
    ensures place { SamePlace (view_of pen.old.seat) (view_of pen.new.seat) }
{
    let _ = book.front(pen);
    let due = due_held(book, pen, n);
    book.give_all(pen, turns);
    due
}
