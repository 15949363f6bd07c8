//! A running board at power-on.
ghost use Rattle.std.specs.Prelude.{◌≡◌, ◌↔◌, ◌+◌, ◌++◌, [], length, IfOk, OnOk, IsErrOf, Some, false};
ghost use Rattle.irq_base.specs.declared.call.Caller.{Caller as AnyCaller};
ghost use Rattle.board_model.specs.Hand.{all_parts};
ghost use Rattle.board_raise.specs.Fit.{InLimits, PinsFit};
ghost use Rattle.board_raise.specs.InHand.{parts_of, chips_of, registry_of};
ghost use Rattle.board_step.specs.declared.open.OpenError.TheVariants as errors;
ghost use Rattle.board_step.specs.History.{opening, opening_registry};
ghost use Rattle.board_step.specs.Publications.{words as words_of_board};
ghost use Rattle.turn_book.specs.Views.{view_of, first_view};
ghost use Rattle.part_slots.specs.Slots.{slots_of};
ghost use Rattle.part_board.specs.Seen.{IsDeskOf, desk_view, desk_seen, has_made};
ghost use Rattle.part_copies.specs.Gathering.{listed, registry_slot, counters_slot, tick_slot, pic_slot, ioapic_slot, apic_slot, apic_slots, five_slots, slots_in};
ghost use Rattle.board_model.specs.declared.width.TheConstants.{WORDS};
ghost use Rattle.part_slots.specs.declared.numbers.TheConstants.{FIXED_PARTS};

use crate::callers::Callers;
use crate::desk::Desk;
use crate::live::LiveBoard;
use board_raise::{IoPart, LapicRow, Parts, PicPart, RegistryPart, Words};
use board_step::{Board, OpenError};
use event_counter::Counters;
use irq_base::{NoMemory, Shape};
use lapic::Lapic;
use part_machine::RunningBoard;
use part_slots::{Home, Slot};
use route_bank::words_of;
use std::alloc::Global;
use tick_reinject::TickState;
use turn_book::{Pen, TurnBook};

// The slot of the registry, where it is there.
fn slot_of_registry(registry: Option<RegistryPart>, shape: Shape) -> Option<Slot>
    ensures { result ≡ registry_slot shape registry }
{
    match registry {
        None => None,
        Some(registry) => Some(Slot::Registry(Home { registry, shape })),
    }
}

// The slot of the counters, where they are there.
fn slot_of_counters(counters: Option<Counters>) -> Option<Slot>
    ensures { result ≡ counters_slot counters }
{
    match counters {
        None => None,
        Some(counters) => Some(Slot::Counters(counters)),
    }
}

// The slot of the tick, where it is there.
fn slot_of_tick(tick: Option<TickState>) -> Option<Slot>
    ensures { result ≡ tick_slot tick }
{
    match tick {
        None => None,
        Some(tick) => Some(Slot::Tick(tick)),
    }
}

// The slot of the 8259A pair, where it is there.
fn slot_of_pic(pic: Option<PicPart>) -> Option<Slot>
    ensures { result ≡ pic_slot pic }
{
    match pic {
        None => None,
        Some(pic) => Some(Slot::Pic(pic)),
    }
}

// The slot of the I/O APIC, where it is there.
fn slot_of_ioapic(ioapic: Option<IoPart>) -> Option<Slot>
    ensures { result ≡ ioapic_slot ioapic }
{
    match ioapic {
        None => None,
        Some(ioapic) => Some(Slot::Ioapic(ioapic)),
    }
}

// The slot of a local APIC, where it is there.
fn slot_of_lapic(lapic: Option<Lapic>) -> Option<Slot>
    ensures { result ≡ apic_slot lapic }
{
    match lapic {
        None => None,
        Some(lapic) => Some(Slot::Lapic(lapic)),
    }
}

// Puts the slot at the end, where it is there.
fn push(slots: &mut Vec<Slot>, slot: Option<Slot>) -> Result<(), NoMemory>
    ensures { OnOk result (slots.new.items ≡ slots.old.items ++ listed slot) }
{
    match slot {
        None => Ok(()),
        Some(slot) => match slots.push(slot) {
            Ok(()) => Ok(()),
            Err(_) => Err(NoMemory),
        },
    }
}

// The slots of the local APICs, which leave their row.
fn push_lapics(slots: &mut Vec<Slot>, row: &mut LapicRow, cpus: u16) -> Result<(), NoMemory>
    requires cpus { cpus ≡ length row.old }
    ensures slots { OnOk result (slots.new.items ≡ slots.old.items ++ apic_slots cpus row.old) }
    ensures row { OnOk result (length row.new ≡ cpus) }
{
    for n in 0..cpus {
        let lapic = row.put(n, None);
        push(slots, slot_of_lapic(lapic))?;
    }
    Ok(())
}

// The slots of all parts, and the row that the local APICs left.
fn slots_from(alloc: Global, shape: &Shape, parts: Parts) -> Result<(Vec<Slot>, LapicRow), NoMemory>
    requires cpus { shape.now.cpus ≡ length parts.lapics }
    ensures slots { IfOk result (λ made. made.0.items ≡ slots_in shape.now parts) }
    ensures row { IfOk result (λ made. length made.1 ≡ shape.now.cpus) }
{
    let Parts {
        registry,
        counters,
        tick,
        pic,
        ioapic,
        mut lapics,
    } = parts;
    let mut slots = Vec::new(alloc);
    push(&mut slots, slot_of_registry(registry, *shape))?;
    push(&mut slots, slot_of_counters(counters))?;
    push(&mut slots, slot_of_tick(tick))?;
    push(&mut slots, slot_of_pic(pic))?;
    push(&mut slots, slot_of_ioapic(ioapic))?;
    push_lapics(&mut slots, &mut lapics, shape.cpus)?;
    Ok((slots, lapics))
}

// The words that a board publishes at power-on.
fn first_words(alloc: Global, shape: &Shape, parts: &Parts) -> Result<Vec<u64>, NoMemory>
    requires limits { InLimits shape.now }
    requires registry { (parts_of parts.now).registry ≡ Some opening_registry }
    ensures { IfOk result (λ words. words.items ≡ words_of_board (opening shape.now)) }
{
    match &parts.registry {
        None => unreachable!(),
        Some(registry) => words_of(
            alloc,
            &registry.table,
            &registry.irqfds,
            &registry.watches,
            shape.tick,
        ),
    }
}

// A book over the parts of a board at power-on.
fn begin(
    alloc: Global,
    shape: &Shape,
    parts: Vec<Slot>,
    words: Vec<u64>,
) -> Result<(TurnBook<RunningBoard>, Pen<RunningBoard>), NoMemory>
    requires limits { InLimits shape.now }
    requires parts { parts.items ≡ slots_of (opening shape.now) }
    requires words { words.items ≡ words_of_board (opening shape.now) }
    ensures book { IfOk result (λ made. made.1.seat.table_id ≡ made.0.table.shared.table_id) }
    ensures turns { IfOk result (λ made. made.0.table.shared.table_id.slots ≡ shape.now.cpus + FIXED_PARTS) }
    ensures width { IfOk result (λ made. made.0.width ≡ WORDS) }
    ensures pen { IfOk result (λ made. view_of made.1.seat ≡ first_view (opening shape.now)) }
{
    match TurnBook::<RunningBoard>::make(alloc, parts, words) {
        Ok(made) => Ok(made),
        Err(_) => Err(NoMemory),
    }
}

// A running board of all parts of a board at power-on, and its desk.
fn open(
    alloc: Global,
    shape: &Shape,
    parts: Parts,
    words: Words,
) -> Result<(LiveBoard, Desk), NoMemory>
    requires limits { InLimits shape.now }
    requires parts { parts_of parts ≡ all_parts (opening shape.now) }
    requires pins { PinsFit (chips_of parts) }
    ensures shape { IfOk result (λ made. made.0.shape ≡ shape.now) }
    ensures desk { IfOk result (λ made. IsDeskOf made.0 made.1) }
    ensures view { IfOk result (λ made. desk_view made.1 ≡ first_view (opening shape.now)) }
{
    let first = first_words(alloc, shape, &parts)?;
    let (slots, row) = slots_from(alloc, shape, parts)?;
    let (book, pen) = begin(alloc, shape, slots, first)?;
    let board = LiveBoard {
        book,
        shape: *shape,
        row,
        words,
    };
    let desk = Desk {
        pen,
        shape: *shape,
        made: Callers::none(),
    };
    Ok((board, desk))
}

impl LiveBoard {
    /// A running board of a shape at power-on, and its desk, which has made no pass and seen nothing. It takes all memory that
    /// the board itself will ever need.
    pub fn power_on(alloc: Global, shape: &Shape) -> Result<(LiveBoard, Desk), OpenError>
        ensures bad { IsErrOf result errors.BadShape ↔ (InLimits shape.now → ⊥) }
        ensures shape { IfOk result (λ made. made.0.shape ≡ shape.now) }
        ensures desk { IfOk result (λ made. IsDeskOf made.0 made.1) }
        ensures seen { IfOk result (λ made. desk_seen made.1 ≡ []) }
        ensures made { IfOk result (λ made. (c : AnyCaller) → has_made made.1 c ≡ false) }
    {
        let board = Board::power_on(alloc, shape)?;
        board.keeps_sound();
        let (parts, words) = board.into_parts();
        match open(alloc, shape, parts, words) {
            Ok(made) => Ok(made),
            Err(NoMemory) => Err(OpenError::NoMemory),
        }
    }
}
