//! How calls are spelled.
ghost use Rattle.std.specs.Prelude.{◌≡◌, ◌∷◌, ◌++◌, ◌≤◌, OnOk, map};
ghost use Rattle.std.specs.String.{string_bytes};
ghost use Rattle.script_text.specs.Numbers.{hex_text};
ghost use Rattle.script_text.specs.Spelling.{row_word, space_words, match_words, binding_words, resample_words, call_words, spaced, value_text};

use crate::numbers::{push_hex, value_width};
use irq_base::{Call, Row, Rows, Space};
use std::alloc::AllocError;
use std::fmt::Write;

// Puts a text and a number in hexadecimal, of at least `width` digits, at the end.
fn push_labelled(text: &mut String, label: &str, value: u64, width: u32) -> Result<(), AllocError>
    requires { width ≤ 16 }
    ensures { OnOk result (string_bytes text.new ≡ string_bytes text.old ++ (label.now ++ hex_text width value)) }
{
    text.push_str(label)?;
    push_hex(text, value, width)
}

// Puts a row, behind a space, at the end.
fn push_row(text: &mut String, row: Row) -> Result<(), AllocError>
    ensures { OnOk result (string_bytes text.new ≡ string_bytes text.old ++ (32 ∷ row_word row)) }
{
    match row {
        Row::Pic { gsi, pin } => write!(text, " {gsi}=pic.{pin}"),
        Row::Ioapic { gsi, pin } => write!(text, " {gsi}=io.{pin}"),
        Row::Msi {
            gsi,
            address,
            payload,
        } => {
            write!(text, " {gsi}=msi.")?;
            push_hex(text, address, 8)?;
            push_labelled(text, ".", u64::from(payload), 8)
        }
    }
}

// Puts rows, each behind a space, at the end.
#[tactic(auto, using(crate::proofs::Texts::row_rules))]
fn push_rows(text: &mut String, rows: &Rows) -> Result<(), AllocError>
    ensures { OnOk result (string_bytes text.new ≡ string_bytes text.old ++ spaced (map row_word rows.now)) }
{
    for k in 0..rows.len() {
        push_row(text, *rows.at(k))?;
    }
    Ok(())
}

fn push_space(text: &mut String, space: Space, address: u64) -> Result<(), AllocError>
    ensures { OnOk result (string_bytes text.new ≡ string_bytes text.old ++ spaced (space_words space address)) }
{
    match space {
        Space::Port => push_labelled(text, " port ", address, 4),
        Space::Memory => push_labelled(text, " mem ", address, 8),
    }
}

fn push_match(text: &mut String, len: u8, want: Option<u64>) -> Result<(), AllocError>
    ensures { OnOk result (string_bytes text.new ≡ string_bytes text.old ++ spaced (match_words len want)) }
{
    match want {
        None => Ok(()),
        Some(want) => push_labelled(text, " match ", want, value_width(len)),
    }
}

fn push_resample(text: &mut String, resample: Option<u16>) -> Result<(), AllocError>
    ensures { OnOk result (string_bytes text.new ≡ string_bytes text.old ++ spaced (resample_words resample)) }
{
    match resample {
        None => Ok(()),
        Some(counter) => write!(text, " resample {counter}"),
    }
}

// Puts the words of a binding at the end.
#[tactic(auto, using(crate::proofs::Texts::word_rules))]
fn push_binding(
    text: &mut String,
    space: Space,
    address: u64,
    len: u8,
    counter: u16,
    want: Option<u64>,
) -> Result<(), AllocError>
    ensures { OnOk result (string_bytes text.new ≡ string_bytes text.old ++ spaced (binding_words space address len counter want)) }
{
    push_space(text, space, address)?;
    write!(text, " {len} {counter}")?;
    push_match(text, len, want)
}

/// Puts the words of a call, each behind a space, at the end.
#[tactic(auto, using(crate::proofs::Texts::word_rules))]
pub fn push_call(text: &mut String, call: &Call) -> Result<(), AllocError>
    ensures { OnOk result (string_bytes text.new ≡ string_bytes text.old ++ spaced (call_words call.now)) }
{
    match call {
        Call::Line {
            gsi,
            line,
            high: true,
        } => write!(text, " line {gsi} {line} up"),
        Call::Line {
            gsi,
            line,
            high: false,
        } => write!(text, " line {gsi} {line} down"),
        Call::Msi { address, payload } => {
            push_labelled(text, " msi ", *address, 8)?;
            push_labelled(text, " ", u64::from(*payload), 8)
        }
        Call::Write { counter, n } => write!(text, " write {counter} {n}"),
        Call::Take { counter } => write!(text, " take {counter}"),
        Call::Assign {
            trigger,
            gsi,
            resample,
        } => {
            write!(text, " assign {trigger} {gsi}")?;
            push_resample(text, *resample)
        }
        Call::Deassign { trigger, gsi } => write!(text, " deassign {trigger} {gsi}"),
        Call::Reroute { rows } => {
            text.push_str(" reroute")?;
            push_rows(text, rows)
        }
        Call::Attach {
            space,
            address,
            len,
            counter,
            want,
        } => {
            text.push_str(" attach")?;
            push_binding(text, *space, *address, *len, *counter, *want)
        }
        Call::Detach {
            space,
            address,
            len,
            counter,
            want,
        } => {
            text.push_str(" detach")?;
            push_binding(text, *space, *address, *len, *counter, *want)
        }
        Call::Watch { counter, gsi } => write!(text, " watch {counter} {gsi}"),
        Call::Unwatch { counter, gsi } => write!(text, " unwatch {counter} {gsi}"),
        Call::Tick => text.push_str(" tick"),
        Call::TickMode { reinject: true } => text.push_str(" tickmode on"),
        Call::TickMode { reinject: false } => text.push_str(" tickmode off"),
        Call::PortOut { port, len, value } => {
            push_labelled(text, " out ", u64::from(*port), 4)?;
            write!(text, " {len}")?;
            push_labelled(text, " ", u64::from(*value), value_width(*len))
        }
        Call::PortIn { port, len } => {
            push_labelled(text, " in ", u64::from(*port), 4)?;
            write!(text, " {len}")
        }
        Call::Store {
            address,
            len,
            value,
        } => {
            push_labelled(text, " store ", *address, 8)?;
            write!(text, " {len}")?;
            push_labelled(text, " ", *value, value_width(*len))
        }
        Call::Load { address, len } => {
            push_labelled(text, " load ", *address, 8)?;
            write!(text, " {len}")
        }
        Call::Ack => text.push_str(" ack"),
        Call::Inta => text.push_str(" inta"),
        Call::Eoi => text.push_str(" eoi"),
    }
}
