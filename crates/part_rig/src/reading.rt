//! A word that was read, and what it tells.
ghost use Rattle.std.specs.Prelude.{◌≡◌, ◌<◌, ◌≤◌, IsTrue, IfSome};
ghost use Rattle.route_table.specs.Words.{is_route};
ghost use Rattle.part_rig.specs.Readings.{targets_told, marked_told, gsi_told, trigger_told, word_under};

use board_model::TriggerWord;
use irq_base::Targets;
use route_bank::{decode_pin, decode_trigger};
use route_table::decode;

/// A published word that was read, and the generation of the look before it.
#[derive(Clone, Copy)]
pub struct Reading {
    pub word: u64,
    pub generation: u32,
}

/// The word of a reading, where it was read under this generation.
#[inline]
pub(crate) fn word_under(generation: u32, reading: Option<Reading>) -> Option<u64>
    ensures { result ≡ word_under generation reading }
{
    match reading {
        Some(reading) if reading.generation == generation => Some(reading.word),
        _ => None,
    }
}

/// Where the GSI of the word goes; no target where it is not told.
#[inline]
pub(crate) fn targets_told(word: Option<u64>) -> Targets
    ensures value { result ≡ targets_told word }
    ensures route { IsTrue (is_route result) }
{
    match word {
        None => Targets {
            pic: None,
            ioapic: None,
            msi: None,
        },
        Some(word) => decode(word).0,
    }
}

/// Whether the GSI of the word is marked; not so where it is not told.
#[inline]
pub(crate) fn marked_told(word: Option<u64>) -> bool
    ensures { result ≡ marked_told word }
{
    match word {
        None => false,
        Some(word) => decode(word).1,
    }
}

/// The GSI of a pin's word; none where it is not told.
#[inline]
pub(crate) fn gsi_told(word: Option<u64>) -> Option<u16>
    requires { IfSome word (λ w. w ≤ 4096) }
    ensures value { result ≡ gsi_told word }
    ensures range { IfSome result (λ gsi. gsi < 4096) }
{
    match word {
        None => None,
        Some(word) => decode_pin(word),
    }
}

/// What the trigger of the word injects; nothing where it is not told.
#[inline]
pub(crate) fn trigger_told(word: Option<u64>) -> Option<TriggerWord>
    ensures value { result ≡ trigger_told word }
    ensures range { IfSome result (λ trigger. trigger.gsi < 4096) }
{
    match word {
        None => None,
        Some(word) => decode_trigger(word),
    }
}
