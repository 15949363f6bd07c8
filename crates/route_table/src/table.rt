//! The routing table.
ghost use Rattle.std.specs.Prelude.{◌≡◌, ℕ, List, ◌<◌, IfOk, OnErr, OnOk, MatchResult, IfSome, IsTrue, Some, None, [], slice_index};
ghost use Rattle.irq_base.specs.declared.call.Row.{Row as RouteRow};
ghost use Rattle.route_table.specs.Words.{is_route, targets_word};
ghost use Rattle.route_table.specs.Rows.{refusal_of, table_of, targets_of};
ghost use Rattle.route_table.specs.Pins.{gsi_of, gsi_told};
ghost use Rattle.route_table.specs.Defaults.{pic_rows, ioapic_rows, default_rows};

use crate::filling::{refill, route_at, zeros};
use irq_base::{Items, NoMemory, Pin, Refusal, Row, Rows, Targets};
use std::alloc::Global;
use std::marker::Model;
use std::mem;

/// The routing table: where each GSI below 4,096 goes, and which GSI each pin has. Contracts see the finite map from the
/// GSIs that go somewhere to their targets.
#[derive(Drop)]
pub struct Table {
    /// The words of the GSIs.
    words: Vec<u64>,
    /// Room for the words of the next table.
    spare: Vec<u64>,
    /// The words of the 8259A pins: 0 none, else the GSI and 1.
    pics: [u16; 16],
    /// The words of the I/O APIC pins.
    ioapics: [u16; 24],
}

impl Model for Table {
    ghost use Rattle.route_table.specs.Rows.{Table as Routes};
    ghost use Rattle.route_table.specs.Tables.{table_code, table_in, IsTable};

    ghost Value = { Routes };

    ghost coded = { table_code };

    ghost view = { λ a. table_in a.words.items };

    ghost invariant = { λ a. IsTable a.words.items a.spare.items a.pics a.ioapics };
}

// The 8259A pins of GSIs 0 to 15, and the I/O APIC pins of GSIs 0 to 23.
#[tactic(auto, using(crate::proofs::DefaultLaws::default_row_rules))]
fn default_rows(alloc: Global) -> Result<Rows, NoMemory>
    ensures { IfOk result (λ rows. rows ≡ default_rows) }
{
    let mut rows = Items::empty(alloc);
    'pics: for pin in 0..16 {
        rows.push(Row::Pic {
            gsi: pin as u16,
            pin,
        })?;
    }
    'ioapics: for pin in 0..24 {
        rows.push(Row::Ioapic {
            gsi: pin as u16,
            pin,
        })?;
    }
    Ok(rows)
}

impl Table {
    /// The table at power-on: GSI n below 16 goes to 8259A pin n and I/O APIC pin n, GSI n from 16 to 23 to I/O APIC pin
    /// n. It takes all memory that `replace` and `copy_from` need.
    #[tactic(auto, using(crate::proofs::DefaultLaws::default_rules))]
    pub fn power_on(alloc: Global) -> Result<Table, NoMemory>
        ensures { IfOk result (λ table. table ≡ table_of default_rows) }
    {
        let rows = default_rows(alloc)?;
        let mut table = Table::empty(alloc)?;
        // These rows keep the rules, so they are not refused.
        let _ = table.replace(&rows);
        Ok(table)
    }

    // The table of no rows.
    #[tactic(auto, using(crate::proofs::Filled::replace_rules))]
    fn empty(alloc: Global) -> Result<Table, NoMemory>
        ensures { IfOk result (λ table. table ≡ table_of []) }
    {
        let words = zeros(alloc, 4096)?;
        let spare = zeros(alloc, 4096)?;
        Ok(Table {
            words,
            spare,
            pics: [0; 16],
            ioapics: [0; 24],
        })
    }

    /// Replaces the rows (KVM_SET_GSI_ROUTING). More than 4,096 rows are `Full`. Then the first row that breaks a rule is
    /// refused, for the first rule that it breaks: `NoGsi` for a GSI of 4,096 or more, `BadRow` for a pin that the chip
    /// does not have, `BadMsi` for an address that is none of messages, `ChipTwice` for an earlier row of this GSI with a
    /// pin of the same chip, `Mixed` for an earlier row of this GSI where one of the two is a message, and `PinTwice` for
    /// an earlier row with this pin. After a refusal the table is unchanged. It takes no memory.
    #[tactic(auto, using(crate::proofs::Filled::replace_rules))]
    pub fn replace(&mut self, rows: &Rows) -> Result<(), Refusal>
        ensures refusal { MatchResult result (λ _. refusal_of rows.now ≡ None) (λ r. refusal_of rows.now ≡ Some r) }
        ensures table { OnOk result (self.new ≡ table_of rows.now) }
        ensures same { OnErr result (self.new ≡ self.old) }
    {
        let mut pics = [0; 16];
        let mut ioapics = [0; 24];
        match refill(self.spare.as_mut_slice(), &mut pics, &mut ioapics, rows) {
            Err(refusal) => Err(refusal),
            Ok(()) => {
                mem::swap(&mut self.words, &mut self.spare);
                self.pics = pics;
                self.ioapics = ioapics;
                Ok(())
            }
        }
    }

    /// Where a GSI goes: to pins that the chips have or to a message alone whose address is one of messages, or nowhere.
    #[tactic(auto, using(crate::proofs::Filled::look_rules))]
    pub fn targets(&self, gsi: u16) -> Targets
        requires { gsi < 4096 }
        ensures value { result ≡ targets_of self.now gsi }
        ensures route { IsTrue (is_route result) }
    {
        route_at(self.words.as_slice(), gsi)
    }

    /// The word of a GSI, which tells where it goes, with that mark: `encode` of its targets, found in one step.
    #[inline]
    pub fn word(&self, gsi: u16, marked: bool) -> u64
        requires { gsi < 4096 }
        ensures { result ≡ targets_word (targets_of self.now gsi) marked }
    {
        let word = self.words.as_slice()[gsi as usize];
        if marked { word + (1 << 63) } else { word }
    }

    /// The GSI that goes to a pin, or none, as for a pin that the chip does not have.
    #[tactic(auto, using(crate::proofs::Filled::pin_rules))]
    pub fn gsi_of(&self, pin: Pin) -> Option<u16>
        ensures value { result ≡ gsi_of self.now pin }
        ensures range { IfSome result (λ gsi. gsi < 4096) }
    {
        match pin {
            Pin::Pic(number) => gsi_told(owner_at(&self.pics, number)),
            Pin::Ioapic(number) => gsi_told(owner_at(&self.ioapics, number)),
        }
    }

    /// A law: the table is that of rows that keep the rules, and each GSI goes to pins that the chips have or to a message
    /// alone whose address is one of messages, or nowhere.
    #[tactic(auto, using(crate::proofs::Filled::sound_rules))]
    pub fn keeps_the_rules(&self)
        ensures made { (rows : List RouteRow) × (refusal_of rows ≡ None) × (self.now ≡ table_of rows) }
        ensures routes { (gsi : ℕ) → IsTrue (is_route (targets_of self.now gsi)) }
    {
        let _ = &self.words;
    }

    /// Makes the table equal to the other. It takes no memory.
    #[tactic(auto, using(crate::proofs::Filled::copy_rules))]
    pub fn copy_from(&mut self, other: &Table)
        ensures { self.new ≡ other.now }
    {
        self.words
            .as_mut_slice()
            .copy_from_slice(other.words.as_slice());
        self.pics = other.pics;
        self.ioapics = other.ioapics;
    }
}

// The word of a pin, and that of no GSI for a pin that the chip does not have.
fn owner_at(owners: &[u16], number: u8) -> u16
    ensures { result ≡ slice_index owners.now number }
{
    if (number as usize) < owners.len() {
        owners[number as usize]
    } else {
        0
    }
}

// The GSI that the word of a pin tells.
fn gsi_told(word: u16) -> Option<u16>
    ensures { result ≡ gsi_told word }
{
    if word == 0 { None } else { Some(word - 1) }
}
