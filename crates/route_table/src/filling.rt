//! Words and pins that stand for rows.
ghost use Rattle.std.specs.Prelude.{◌≡◌, ℕ, ◌<◌, ◌||◌, length, slice_index, slice_set, IsTrue, IfErr, IfOk, OnOk, MatchResult, [], Some, None};
ghost use Rattle.irq_base.specs.Refusals.{first_of};
ghost use Rattle.route_table.specs.Words.{is_below, is_route};
ghost use Rattle.route_table.specs.Rows.{gsi_in, pic_in, ioapic_in, msi_in, reasons_after, refusal_of};
ghost use Rattle.route_table.specs.Standing.{route_at, joined, is_taken, with_owner, fits_if, reasons_at, word_with, Stands};

use crate::rows::{gsi_in, named_in, refusal};
use crate::words::{decode, encode, no_targets};
use irq_base::{NoMemory, Refusal, Row, Rows, Targets};
use std::alloc::Global;

// Sets every word to 0.
fn clear(words: &mut [u64])
    ensures long { length words.new ≡ length words.old }
    ensures zero { (k : ℕ) → slice_index words.new k ≡ 0 }
{
    words.fill(0);
}

/// That many words, all 0.
pub fn zeros(alloc: Global, count: usize) -> Result<Vec<u64>, NoMemory>
    ensures long { IfOk result (λ words. length words.items ≡ count) }
    ensures zero { IfOk result (λ words. (k : ℕ) → slice_index words.items k ≡ 0) }
{
    match vec![in alloc; 0; count] {
        Ok(words) => Ok(words),
        Err(_) => Err(NoMemory),
    }
}

/// Makes words and pins stand for the rows, unless these are refused.
#[tactic(auto, using(crate::proofs::Filled::refill_rules))]
pub fn refill(
    words: &mut [u64],
    pics: &mut [u16],
    ioapics: &mut [u16],
    rows: &Rows,
) -> Result<(), Refusal>
    requires long { length words.old ≡ 4096 }
    requires pics { length pics.old ≡ 16 }
    requires ioapics { length ioapics.old ≡ 24 }
    requires no_pic { (n : ℕ) → slice_index pics.old n ≡ 0 }
    requires no_ioapic { (n : ℕ) → slice_index ioapics.old n ≡ 0 }
    ensures refusal { MatchResult result (λ _. refusal_of rows.now ≡ None) (λ r. refusal_of rows.now ≡ Some r) }
    ensures stands { OnOk result (Stands words.new pics.new ioapics.new rows.now) }
{
    clear(words);
    fill_empty(words, pics, ioapics, rows)
}

// Makes words and pins that stand for none stand for the rows, unless these are refused.
fn fill_empty(
    words: &mut [u64],
    pics: &mut [u16],
    ioapics: &mut [u16],
    rows: &Rows,
) -> Result<(), Refusal>
    requires long { length words.old ≡ 4096 }
    requires pics { length pics.old ≡ 16 }
    requires ioapics { length ioapics.old ≡ 24 }
    requires none { Stands words.old pics.old ioapics.old [] }
    ensures refusal { MatchResult result (λ _. refusal_of rows.now ≡ None) (λ r. refusal_of rows.now ≡ Some r) }
    ensures stands { OnOk result (Stands words.new pics.new ioapics.new rows.now) }
{
    if rows.len() > 4096 {
        return Err(Refusal::Full);
    }
    fill(words, pics, ioapics, rows)
}

/// Why a list of rows is refused, if it is: `Full` for more than 4,096 rows, else as `Table::replace` does. It takes no memory;
/// while it runs it has a table of its own, of 32 KiB.
#[inline(never)]
#[tactic(auto, using(crate::proofs::Filled::replace_rules))]
pub fn refusal_of(rows: &Rows) -> Option<Refusal>
    ensures { result ≡ refusal_of rows.now }
{
    let mut words = [0; 4096];
    let mut pics = [0; 16];
    let mut ioapics = [0; 24];
    match fill_empty(&mut words, &mut pics, &mut ioapics, rows) {
        Err(refusal) => Some(refusal),
        Ok(()) => None,
    }
}

// Adds the rows in their order to words and pins that stand for none, up to the first that is refused.
fn fill(
    words: &mut [u64],
    pics: &mut [u16],
    ioapics: &mut [u16],
    rows: &Rows,
) -> Result<(), Refusal>
    requires long { length words.old ≡ 4096 }
    requires pics { length pics.old ≡ 16 }
    requires ioapics { length ioapics.old ≡ 24 }
    requires none { Stands words.old pics.old ioapics.old [] }
    ensures refused { IfErr result (λ r. first_of (reasons_after [] rows.now) ≡ Some r) }
    ensures kept { OnOk result (first_of (reasons_after [] rows.now) ≡ None) }
    ensures stands { OnOk result (Stands words.new pics.new ioapics.new rows.now) }
{
    for k in 0..rows.len() {
        if let Err(refusal) = add(words, pics, ioapics, rows.at(k)) {
            return Err(refusal);
        }
    }
    Ok(())
}

// Adds a row, or says why it is refused.
fn add(words: &mut [u64], pics: &mut [u16], ioapics: &mut [u16], row: &Row) -> Result<(), Refusal>
    requires long { length words.old ≡ 4096 }
    requires pics { length pics.old ≡ 16 }
    requires ioapics { length ioapics.old ≡ 24 }
    ensures refused { IfErr result (λ r. first_of (reasons_at words.old pics.old ioapics.old row.now) ≡ Some r) }
    ensures kept { OnOk result (first_of (reasons_at words.old pics.old ioapics.old row.now) ≡ None) }
    ensures fits { IsTrue (fits_if (msi_in row.now)) }
    ensures words { OnOk result (words.new ≡ slice_set words.old (gsi_in row.now) (word_with words.old row.now)) }
    ensures pics { OnOk result (pics.new ≡ with_owner pics.old (pic_in row.now) (gsi_in row.now)) }
    ensures ioapics { OnOk result (ioapics.new ≡ with_owner ioapics.old (ioapic_in row.now) (gsi_in row.now)) }
{
    let gsi = gsi_in(row);
    let named = named_in(row);
    let there = route_at(words, gsi);
    let is_taken = is_one_taken(pics, ioapics, &named);
    match refusal(gsi, &named, &there, is_taken) {
        Some(refusal) => Err(refusal),
        None => {
            words[gsi as usize] = encode(&joined(&there, &named), false);
            give(pics, named.pic, gsi);
            give(ioapics, named.ioapic, gsi);
            Ok(())
        }
    }
}

/// Where the word of a GSI sends it.
#[tactic(auto, using(crate::proofs::StandingLaws::past_rules))]
pub fn route_at(words: &[u64], gsi: u16) -> Targets
    ensures value { result ≡ route_at words.now gsi }
    ensures route { IsTrue (is_route result) }
{
    if (gsi as usize) < words.len() {
        decode(words[gsi as usize]).0
    } else {
        no_targets()
    }
}

// What was there, and what is named beside it.
fn joined(there: &Targets, named: &Targets) -> Targets
    ensures { result ≡ joined there.now named.now }
{
    Targets {
        pic: there.pic.or(named.pic),
        ioapic: there.ioapic.or(named.ioapic),
        msi: there.msi.or(named.msi),
    }
}

// Whether one of the pins that are named has an owner.
fn is_one_taken(pics: &[u16], ioapics: &[u16], named: &Targets) -> bool
    ensures { result ≡ (is_taken pics.now named.now.pic || is_taken ioapics.now named.now.ioapic) }
{
    is_taken(pics, named.pic) || is_taken(ioapics, named.ioapic)
}

// Whether the pin, if there is one, has an owner.
fn is_taken(owners: &[u16], pin: Option<u8>) -> bool
    ensures { result ≡ is_taken owners.now pin }
{
    match pin {
        None => false,
        Some(number) => (number as usize) < owners.len() && owners[number as usize] != 0,
    }
}

// Gives the pin, if there is one, to the GSI.
fn give(owners: &mut [u16], pin: Option<u8>, gsi: u16)
    requires gsi { gsi < 4096 }
    requires pin { IsTrue (is_below pin (length owners.old)) }
    ensures { owners.new ≡ with_owner owners.old pin gsi }
{
    if let Some(number) = pin {
        owners[number as usize] = gsi + 1;
    }
}
