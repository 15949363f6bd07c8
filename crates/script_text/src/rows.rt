//! Rows of a routing table, as `reroute` has them.
ghost use Rattle.std.specs.Prelude.{◌≡◌};
ghost use Rattle.script_text.specs.Words.{parts_of, more_words};
ghost use Rattle.script_text.specs.Causes.{Says};
ghost use Rattle.script_text.specs.Commands.{to_pin, to_message, to_target, row, rows};

use crate::causes::{LineFault, all_three, both};
use crate::numbers::{hex32, hex64, number8, number16};
use crate::words::{first_part, next_part, next_word};
use irq_base::{LineCause, Row, Rows};
use std::alloc::Global;

// `G=pic.N` or `G=io.N`, cut into its parts.
fn to_pin(gsi: &[u8], kind: &[u8], n: &[u8]) -> Result<Row, LineCause>
    ensures { result ≡ to_pin gsi.now kind.now n.now }
{
    if kind == b"pic".as_slice() {
        match both(number16(gsi), number8(n)) {
            Ok((gsi, pin)) => Ok(Row::Pic { gsi, pin }),
            Err(cause) => Err(cause),
        }
    } else if kind == b"io".as_slice() {
        match both(number16(gsi), number8(n)) {
            Ok((gsi, pin)) => Ok(Row::Ioapic { gsi, pin }),
            Err(cause) => Err(cause),
        }
    } else {
        Err(LineCause::Number)
    }
}

// `G=msi.ADDR.PAYLOAD`, cut into its parts.
fn to_message(gsi: &[u8], kind: &[u8], address: &[u8], payload: &[u8]) -> Result<Row, LineCause>
    ensures { result ≡ to_message gsi.now kind.now address.now payload.now }
{
    if kind == b"msi".as_slice() {
        match all_three(number16(gsi), hex64(address), hex32(payload)) {
            Ok((gsi, address, payload)) => Ok(Row::Msi {
                gsi,
                address,
                payload,
            }),
            Err(cause) => Err(cause),
        }
    } else {
        Err(LineCause::Number)
    }
}

// A row of its GSI and its target.
fn to_target(gsi: &[u8], target: &[u8]) -> Result<Row, LineCause>
    ensures { result ≡ to_target gsi.now (parts_of 46 target.now) }
{
    let (kind, tail) = first_part(target, b'.');
    let Some((first, tail)) = next_part(tail, b'.') else {
        return Err(LineCause::Number);
    };
    let Some((second, tail)) = next_part(tail, b'.') else {
        return to_pin(gsi, kind, first);
    };
    match next_part(tail, b'.') {
        None => to_message(gsi, kind, first, second),
        Some(_) => Err(LineCause::Number),
    }
}

// A row.
fn row(word: &[u8]) -> Result<Row, LineCause>
    ensures { result ≡ row word.now }
{
    let (gsi, tail) = first_part(word, b'=');
    let Some((target, tail)) = next_part(tail, b'=') else {
        return Err(LineCause::Number);
    };
    match next_part(tail, b'=') {
        None => to_target(gsi, target),
        Some(_) => Err(LineCause::Number),
    }
}

// Any number of rows.
#[tactic(auto, using(crate::proofs::RowLists::row_rules))]
pub fn rows(alloc: Global, tail: &[u8]) -> Result<Rows, LineFault>
    ensures { Says result (rows (more_words tail.now)) }
{
    let mut rows = Rows::empty(alloc);
    let mut left = tail;
    while let Some((word, behind)) = next_word(left) {
        match row(word) {
            Ok(row) => {
                if rows.push(row).is_err() {
                    return Err(LineFault::NoMemory);
                }
            }
            Err(cause) => return Err(LineFault::Bad(cause)),
        }
        left = behind;
    }
    Ok(rows)
}
