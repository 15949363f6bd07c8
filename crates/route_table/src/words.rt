//! Words that tell where a GSI goes, in this board's own format.
ghost use Rattle.std.specs.Prelude.{◌≡◌, ◌≢◌, ◌<◌, ◌^◌, Bool, true, false, IsTrue};
ghost use Rattle.irq_base.specs.declared.message.Targets.{Targets as Route};
ghost use Rattle.route_table.specs.Words.{no_targets, is_route, is_below, is_good, is_word_of, pin_bits, pin_named, target_bits, targets_word, named_by, targets_in};

use irq_base::{MsiWord, Targets};

/// The word of a GSI: where it goes, and whether it is marked. Bits 1 to 0 tell of what kind it is, 0 no target, 1 pins or
/// 2 a message; bit 63 is the mark. For pins bit 2 and bits 6 to 3 are the 8259A pin, bit 7 and bits 12 to 8 the I/O APIC
/// pin; for a message bits 21 to 2 are its address bits 19 to 0 and bits 53 to 22 its payload.
pub fn encode(targets: &Targets, marked: bool) -> u64
    ensures { result ≡ targets_word targets.now marked }
{
    let mark = if marked { 1 << 63 } else { 0 };
    mark + target_bits(targets)
}

// The bits of a word below the mark.
fn target_bits(targets: &Targets) -> u64
    ensures bits { result ≡ target_bits targets.now }
    ensures low { result < 2 ^ 54 }
{
    match (targets.pic, targets.ioapic, targets.msi) {
        (_, _, Some(message)) => 2
            + (message.address % (1 << 20)) * 4
            + message.payload as u64 * (1 << 22),
        (None, None, None) => 0,
        (pic, ioapic, None) => 1 + pin_bits(pic) * 4 + pin_bits(ioapic) * 128,
    }
}

// A bit that tells that the pin is there, and above it its number.
fn pin_bits(pin: Option<u8>) -> u64
    ensures bits { result ≡ pin_bits pin }
    ensures low { result < 512 }
{
    match pin {
        None => 0,
        Some(number) => 1 + number as u64 * 2,
    }
}

/// Where the GSI of a word goes, and whether it is marked. A word that is none of a route gives no target and false.
#[tactic(auto, using(crate::proofs::WordLaws::word_rules))]
pub fn decode(word: u64) -> (Targets, bool)
    ensures value { result ≡ targets_in word }
    ensures encoded { (t : Route) (m : Bool) → IsTrue (is_route t) → word ≡ targets_word t m → result ≡ (t, m) }
    ensures other { ((t : Route) (m : Bool) → IsTrue (is_route t) → word ≢ targets_word t m) → result ≡ (no_targets, false) }
    ensures route { IsTrue (is_route result.0) }
{
    fields_of(word)
}

// What the fields of a word name, where the word is that of a route.
#[tactic(auto, unfolding(crate::specs::Words::targets_in))]
fn fields_of(word: u64) -> (Targets, bool)
    ensures { result ≡ targets_in word }
{
    let targets = named_by(word);
    let marked = (word >> 63) % 2 == 1;
    if is_word_of(word, &targets, marked) {
        (targets, marked)
    } else {
        (no_targets(), false)
    }
}

// Whether the word is that of a route.
fn is_word_of(word: u64, targets: &Targets, marked: bool) -> bool
    ensures { result ≡ is_word_of word targets.now marked }
{
    is_route(targets) && encode(targets, marked) == word
}

/// No target.
pub fn no_targets() -> Targets
    ensures { result ≡ no_targets }
{
    Targets {
        pic: None,
        ioapic: None,
        msi: None,
    }
}

// The targets that the fields of a word name.
fn named_by(word: u64) -> Targets
    ensures { result ≡ named_by word }
{
    match word % 4 {
        1 => Targets {
            pic: pin_named(word / 4 % 2, word / 8 % 16),
            ioapic: pin_named(word / 128 % 2, word / 256 % 32),
            msi: None,
        },
        2 => Targets {
            pic: None,
            ioapic: None,
            msi: Some(MsiWord {
                address: 0xfee0_0000 + word / 4 % (1 << 20),
                payload: ((word >> 22) % (1 << 32)) as u32,
            }),
        },
        _ => no_targets(),
    }
}

// The pin of that number, where it is there.
fn pin_named(there: u64, number: u64) -> Option<u8>
    requires { number < 32 }
    ensures { result ≡ pin_named there number }
{
    if there == 1 { Some(number as u8) } else { None }
}

// Whether a GSI can go there: pins that the chips have, or a message alone whose address is one of messages.
fn is_route(targets: &Targets) -> bool
    ensures { result ≡ is_route targets.now }
{
    match targets.msi {
        None => is_below(targets.pic, 16) && is_below(targets.ioapic, 24),
        Some(message) => targets.pic.is_none()
            && targets.ioapic.is_none()
            && is_good(message.address, message.payload),
    }
}

// Whether the address is one of messages.
#[tactic(auto, using(crate::proofs::WordLaws::good_rules))]
fn is_good(address: u64, payload: u32) -> bool
    ensures { result ≡ is_good (record { address = address; payload = payload }) }
{
    MsiWord { address, payload }.good()
}

/// Whether the chip with that many pins has the pin, if one is named.
pub fn is_below(pin: Option<u8>, count: u8) -> bool
    ensures { result ≡ is_below pin count }
{
    match pin {
        None => true,
        Some(number) => number < count,
    }
}
