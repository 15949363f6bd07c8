//! What a row names, and why it is refused.
ghost use Rattle.std.specs.Prelude.{◌≡◌, ◌&&◌, ◌||◌, IsTrue};
ghost use Rattle.std.specs.Option.{is_some};
ghost use Rattle.irq_base.specs.Refusals.{first_of};
ghost use Rattle.route_table.specs.Rows.{gsi_in, is_good_if, are_both, has_target};
ghost use Rattle.route_table.specs.Words.{is_below};
ghost use Rattle.route_table.specs.Standing.{named_in, fits_if, reasons_by};

use crate::words::is_below;
use irq_base::{MsiWord, Refusal, Row, Targets};

/// The GSI of a row.
#[tactic(auto, unfolding(crate::specs::Rows::gsi_in))]
pub fn gsi_in(row: &Row) -> u16
    ensures { result ≡ gsi_in row.now }
{
    match row {
        Row::Pic { gsi, .. } | Row::Ioapic { gsi, .. } | Row::Msi { gsi, .. } => *gsi,
    }
}

/// What a row names.
#[tactic(auto, unfolding(crate::specs::Rows::pic_in, crate::specs::Rows::ioapic_in, crate::specs::Rows::msi_in))]
pub fn named_in(row: &Row) -> Targets
    ensures named { result ≡ named_in row.now }
    ensures fits { IsTrue (fits_if result.msi) }
{
    match row {
        Row::Pic { pin, .. } => Targets {
            pic: Some(*pin),
            ioapic: None,
            msi: None,
        },
        Row::Ioapic { pin, .. } => Targets {
            pic: None,
            ioapic: Some(*pin),
            msi: None,
        },
        Row::Msi {
            address,
            payload,
            ..
        } => Targets {
            pic: None,
            ioapic: None,
            msi: Some(MsiWord {
                address: *address,
                payload: *payload,
            }),
        },
    }
}

/// The first reason to refuse a row that names these targets for its GSI, by where the GSI goes already and by whether
/// another row has the pin.
pub fn refusal(gsi: u16, named: &Targets, there: &Targets, is_taken: bool) -> Option<Refusal>
    ensures { result ≡ first_of (reasons_by gsi named.now there.now is_taken) }
{
    if gsi >= 4096 {
        Some(Refusal::NoGsi)
    } else if !has_pins(named) {
        Some(Refusal::BadRow)
    } else if !has_good_address(named.msi) {
        Some(Refusal::BadMsi)
    } else if has_chip_twice(named, there) {
        Some(Refusal::ChipTwice)
    } else if is_mixed(named, there) {
        Some(Refusal::Mixed)
    } else if is_taken {
        Some(Refusal::PinTwice)
    } else {
        None
    }
}

// Whether the chips have the pins that are named.
fn has_pins(named: &Targets) -> bool
    ensures { result ≡ (is_below named.now.pic 16 && is_below named.now.ioapic 24) }
{
    is_below(named.pic, 16) && is_below(named.ioapic, 24)
}

// Whether the address, if there is a message, is one of messages.
fn has_good_address(message: Option<MsiWord>) -> bool
    ensures { result ≡ is_good_if message }
{
    match message {
        None => true,
        Some(message) => message.address >> 20 == 0xfee,
    }
}

// Whether the GSI has a pin of the chip already.
fn has_chip_twice(named: &Targets, there: &Targets) -> bool
    ensures { result ≡ (are_both there.now.pic named.now.pic || are_both there.now.ioapic named.now.ioapic) }
{
    there.pic.is_some() && named.pic.is_some() || there.ioapic.is_some() && named.ioapic.is_some()
}

// Whether the GSI has a target already, and one of the two is a message.
fn is_mixed(named: &Targets, there: &Targets) -> bool
    ensures { result ≡ (is_some there.now.msi || (is_some named.now.msi && has_target there.now)) }
{
    there.msi.is_some() || named.msi.is_some() && has_target(there)
}

// Whether there is a target.
fn has_target(targets: &Targets) -> bool
    ensures { result ≡ has_target targets.now }
{
    targets.pic.is_some() || targets.ioapic.is_some() || targets.msi.is_some()
}
