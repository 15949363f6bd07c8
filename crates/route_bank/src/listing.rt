//! A whole registry's words as a list, with which a book begins.
ghost use Rattle.std.specs.Prelude.{◌≡◌, ◌++◌, ◌∷◌, [], length, OnOk, IfOk};
ghost use Rattle.route_bank.specs.Indices.{AreInRange, words_with};
ghost use Rattle.route_bank.specs.Lists.{gsi_words, trigger_words, pic_words, ioapic_words};

use crate::marks::mark;
use crate::publishing::{pin_word, trigger_word};
use ack_notifiers::Watches;
use irq_base::{NoMemory, Pin};
use irqfd_set::Irqfds;
use route_table::Table;
use std::alloc::Global;

// One word more.
fn push(words: &mut Vec<u64>, word: u64) -> Result<(), NoMemory>
    ensures { OnOk result (words.new.items ≡ words.old.items ++ word ∷ []) }
{
    match words.push(word) {
        Ok(()) => Ok(()),
        Err(_) => Err(NoMemory),
    }
}

// The words of the GSIs.
#[tactic(auto, using(crate::proofs::EachWord::one_more))]
fn push_gsis(words: &mut Vec<u64>, table: &Table, marks: &[bool]) -> Result<(), NoMemory>
    requires marks { length marks.now ≡ 4096 }
    ensures { OnOk result (words.new.items ≡ words.old.items ++ gsi_words table.now marks.now 4096) }
{
    for gsi in 0..4096 {
        push(words, table.word(gsi, marks[gsi as usize]))?;
    }
    Ok(())
}

// The words of the triggers.
#[tactic(auto, using(crate::proofs::EachWord::one_more))]
fn push_triggers(words: &mut Vec<u64>, irqfds: &Irqfds) -> Result<(), NoMemory>
    ensures { OnOk result (words.new.items ≡ words.old.items ++ trigger_words irqfds.now 256) }
{
    for trigger in 0..256 {
        push(words, trigger_word(irqfds.of_trigger(trigger)))?;
    }
    Ok(())
}

// The words of the pins of the 8259A pair.
#[tactic(auto, using(crate::proofs::EachWord::one_more))]
fn push_pics(words: &mut Vec<u64>, table: &Table) -> Result<(), NoMemory>
    ensures { OnOk result (words.new.items ≡ words.old.items ++ pic_words table.now 16) }
{
    for number in 0..16 {
        push(words, pin_word(table.gsi_of(Pin::Pic(number))))?;
    }
    Ok(())
}

// The words of the pins of the I/O APIC.
#[tactic(auto, using(crate::proofs::EachWord::one_more))]
fn push_ioapics(words: &mut Vec<u64>, table: &Table) -> Result<(), NoMemory>
    ensures { OnOk result (words.new.items ≡ words.old.items ++ ioapic_words table.now 24) }
{
    for number in 0..24 {
        push(words, pin_word(table.gsi_of(Pin::Ioapic(number))))?;
    }
    Ok(())
}

/// The published words of a registry: those of this table and these registrations, ticks going to the GSI `tick`. A book
/// over the registry begins with them.
pub fn words_of(
    alloc: Global,
    table: &Table,
    irqfds: &Irqfds,
    watches: &Watches,
    tick: u16,
) -> Result<Vec<u64>, NoMemory>
    requires range { AreInRange irqfds.now watches.now tick }
    ensures { IfOk result (λ words. words.items ≡ words_with table.now irqfds.now watches.now tick) }
{
    let mut marks = [false; 4096];
    mark(&mut marks, irqfds.rows(), watches.rows(), tick);
    let mut words = Vec::new(alloc);
    push_gsis(&mut words, table, &marks)?;
    push_triggers(&mut words, irqfds)?;
    push_pics(&mut words, table)?;
    push_ioapics(&mut words, table)?;
    Ok(words)
}
