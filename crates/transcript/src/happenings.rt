//! The fields of an event's line.
ghost use Rattle.std.specs.Prelude.{◌≡◌, codes};
ghost use Rattle.irq_base.specs.declared.event.Event.TheVariants.{Resampled, Watched, Rang};
ghost use Rattle.script_text.specs.Causes.{of_one};
ghost use Rattle.script_text.specs.Words.{more_words, one};
ghost use Rattle.script_text.specs.Numbers.{number16};
ghost use Rattle.script_text.specs.Commands.{fixed_word};
ghost use Rattle.transcript.specs.Fields as fields;

use crate::fields::status;
use irq_base::{Event, LineCause, Pin};
use script_text::{all_three, both, is_none, next_word, number8, number16, one_word};

// A pin, by its chip and its number.
fn pin(kind: &[u8], n: &[u8]) -> Result<Pin, LineCause>
    ensures { result ≡ fields.pin kind.now n.now }
{
    if kind == b"pic".as_slice() {
        match number8(n) {
            Ok(n) => Ok(Pin::Pic(n)),
            Err(cause) => Err(cause),
        }
    } else if kind == b"io".as_slice() {
        match number8(n) {
            Ok(n) => Ok(Pin::Ioapic(n)),
            Err(cause) => Err(cause),
        }
    } else {
        Err(LineCause::Count)
    }
}

// The fixed word before a GSI.
fn gsi_label(word: &[u8]) -> Result<bool, LineCause>
    ensures { result ≡ fixed_word (codes "gsi") word.now }
{
    if word == b"gsi".as_slice() {
        Ok(true)
    } else {
        Err(LineCause::Count)
    }
}

// A GSI, or a dash for none.
fn gsi_or_none(word: &[u8]) -> Result<Option<u16>, LineCause>
    ensures { result ≡ fields.gsi_or_none word.now }
{
    if word == b"-".as_slice() {
        return Ok(None);
    }
    match number16(word) {
        Ok(gsi) => Ok(Some(gsi)),
        Err(cause) => Err(cause),
    }
}

// `pic N gsi G` or `io N gsi G`
fn acked(tail: &[u8]) -> Result<Event, LineCause>
    ensures { result ≡ fields.acked (more_words tail.now) }
{
    let Some((kind, tail)) = next_word(tail) else {
        return Err(LineCause::Count);
    };
    let Some((n, tail)) = next_word(tail) else {
        return Err(LineCause::Count);
    };
    let Some((label, tail)) = next_word(tail) else {
        return Err(LineCause::Count);
    };
    let Some((gsi, tail)) = next_word(tail) else {
        return Err(LineCause::Count);
    };
    if !is_none(tail) {
        return Err(LineCause::Count);
    }
    match all_three(pin(kind, n), gsi_label(label), gsi_or_none(gsi)) {
        Ok((pin, _, gsi)) => Ok(Event::Acked { pin, gsi }),
        Err(cause) => Err(cause),
    }
}

// `gsi G STATUS`
fn injected(tail: &[u8]) -> Result<Event, LineCause>
    ensures { result ≡ fields.injected (more_words tail.now) }
{
    let Some((label, tail)) = next_word(tail) else {
        return Err(LineCause::Word);
    };
    let Some((gsi, tail)) = next_word(tail) else {
        return Err(LineCause::Word);
    };
    match all_three(gsi_label(label), number16(gsi), status(tail)) {
        Ok((_, gsi, status)) => Ok(Event::Injected { gsi, status }),
        Err(cause) => Err(cause),
    }
}

// `N STATUS`
fn resent(tail: &[u8]) -> Result<Event, LineCause>
    ensures { result ≡ fields.resent (more_words tail.now) }
{
    let Some((n, tail)) = next_word(tail) else {
        return Err(LineCause::Word);
    };
    match both(number8(n), status(tail)) {
        Ok((pin, status)) => Ok(Event::Resent { pin, status }),
        Err(cause) => Err(cause),
    }
}

// A counter, and no more.
fn counter(tail: &[u8]) -> Result<u16, LineCause>
    ensures { result ≡ one (more_words tail.now) number16 }
{
    match one_word(tail) {
        None => Err(LineCause::Count),
        Some(word) => number16(word),
    }
}

// The counter of a signal, after the event's name.
fn signalled(name: &[u8], tail: &[u8]) -> Result<Event, LineCause>
    ensures { result ≡ fields.signalled name.now (more_words tail.now) }
{
    if name == b"resampled".as_slice() {
        match counter(tail) {
            Ok(c) => Ok(Event::Resampled(c)),
            Err(cause) => Err(cause),
        }
    } else if name == b"watched".as_slice() {
        match counter(tail) {
            Ok(c) => Ok(Event::Watched(c)),
            Err(cause) => Err(cause),
        }
    } else if name == b"rang".as_slice() {
        match counter(tail) {
            Ok(c) => Ok(Event::Rang(c)),
            Err(cause) => Err(cause),
        }
    } else {
        Err(LineCause::Word)
    }
}

/// The event of the words behind a `+`.
pub fn event(tail: &[u8]) -> Result<Event, LineCause>
    ensures { result ≡ fields.event (more_words tail.now) }
{
    let Some((name, tail)) = next_word(tail) else {
        return Err(LineCause::Word);
    };
    if name == b"acked".as_slice() {
        acked(tail)
    } else if name == b"injected".as_slice() {
        injected(tail)
    } else if name == b"resent".as_slice() {
        resent(tail)
    } else if name == b"ipi".as_slice() {
        match status(tail) {
            Ok(status) => Ok(Event::Ipi(status)),
            Err(cause) => Err(cause),
        }
    } else {
        signalled(name, tail)
    }
}
