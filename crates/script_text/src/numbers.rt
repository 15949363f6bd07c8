//! Numbers of scripts.
ghost use Rattle.std.specs.Prelude.{◌≡◌, OnOk, ◌++◌, ◌<◌, ◌≤◌, ◌^◌, length, IfSome, IfOk, Some, None};
ghost use Rattle.script_text.specs.Numbers.{hex_value, hex_from, decimal_value, decimal_from, between, hex, decimal_in, hex_digit, hex_digits, hex_places, hex_text, value_width, hex64, hex32, hex16, hex8, number64, number16, number8};
ghost use Rattle.std.specs.String.{string_bytes};

use irq_base::LineCause;
use std::alloc::AllocError;

// The value of a hexadecimal digit.
fn hex_value(digit: u8) -> Option<u8>
    ensures value { result ≡ hex_value digit }
    ensures below { IfSome result (λ v. v < 16) }
{
    match digit {
        b'0'..=b'9' => Some(digit - b'0'),
        b'a'..=b'f' => Some(digit - b'a' + 10),
        b'A'..=b'F' => Some(digit - b'A' + 10),
        _ => None,
    }
}

// The number of these digits.
#[tactic(auto, using(crate::proofs::Digits::hex_rules))]
fn hex_number(digits: &[u8]) -> Option<u64>
    requires { length digits.now ≤ 16 }
    ensures { result ≡ hex_from 0 digits.now }
{
    let mut number: u64 = 0;
    for digit in digits {
        number = 16 * number + u64::from(hex_value(*digit)?);
    }
    Some(number)
}

// The number, where it is of the range.
fn between(least: u64, most: u64, number: Option<u64>) -> Result<u64, LineCause>
    ensures value { result ≡ between least most number }
    ensures below { IfOk result (λ n. n ≤ most) }
{
    match number {
        Some(n) if least <= n && n <= most => Ok(n),
        _ => Err(LineCause::Number),
    }
}

// A hexadecimal number that is not above the greatest.
fn hex(most: u64, word: &[u8]) -> Result<u64, LineCause>
    ensures value { result ≡ hex most word.now }
    ensures below { IfOk result (λ n. n ≤ most) }
{
    if word.is_empty() || word.len() > 16 {
        Err(LineCause::Number)
    } else {
        between(0, most, hex_number(word))
    }
}

/// A hexadecimal number of 64 bits: 1 to 16 digits of either case.
pub fn hex64(word: &[u8]) -> Result<u64, LineCause>
    ensures { result ≡ hex64 word.now }
{
    hex(0xffff_ffff_ffff_ffff, word)
}

// A hexadecimal number of 32 bits.
pub fn hex32(word: &[u8]) -> Result<u32, LineCause>
    ensures { result ≡ hex32 word.now }
{
    match hex(0xffff_ffff, word) {
        Ok(n) => Ok(n as u32),
        Err(cause) => Err(cause),
    }
}

// A hexadecimal number of 16 bits.
pub fn hex16(word: &[u8]) -> Result<u16, LineCause>
    ensures { result ≡ hex16 word.now }
{
    match hex(0xffff, word) {
        Ok(n) => Ok(n as u16),
        Err(cause) => Err(cause),
    }
}

/// A hexadecimal number of 8 bits: 1 to 16 digits of either case.
pub fn hex8(word: &[u8]) -> Result<u8, LineCause>
    ensures { result ≡ hex8 word.now }
{
    match hex(0xff, word) {
        Ok(n) => Ok(n as u8),
        Err(cause) => Err(cause),
    }
}

// The value of a decimal digit.
fn decimal_value(digit: u8) -> Option<u8>
    ensures value { result ≡ decimal_value digit }
    ensures below { IfSome result (λ v. v < 10) }
{
    match digit {
        b'0'..=b'9' => Some(digit - b'0'),
        _ => None,
    }
}

// The number of these digits, where it is not above the greatest.
#[tactic(auto, using(crate::proofs::Digits::decimal_rules))]
fn decimal_up_to(least: u64, most: u64, digits: &[u8]) -> Result<u64, LineCause>
    ensures value { result ≡ between least most (decimal_from 0 digits.now) }
    ensures below { IfOk result (λ n. n ≤ most) }
{
    let mut number: u64 = 0;
    for digit in digits {
        let Some(value) = decimal_value(*digit) else {
            return Err(LineCause::Number);
        };
        let larger = 10 * u128::from(number) + u128::from(value);
        if larger > u128::from(most) {
            return Err(LineCause::Number);
        }
        number = larger as u64;
    }
    between(least, most, Some(number))
}

// A decimal number of the range, without leading zeros.
pub fn decimal_in(least: u64, most: u64, word: &[u8]) -> Result<u64, LineCause>
    ensures value { result ≡ decimal_in least most word.now }
    ensures below { IfOk result (λ n. n ≤ most) }
{
    if word.is_empty() || (word.len() > 1 && word[0] == b'0') {
        Err(LineCause::Number)
    } else {
        decimal_up_to(least, most, word)
    }
}

/// A decimal number of 64 bits, without leading zeros.
pub fn number64(word: &[u8]) -> Result<u64, LineCause>
    ensures { result ≡ number64 word.now }
{
    decimal_in(0, 0xffff_ffff_ffff_ffff, word)
}

/// A decimal number of 16 bits, without leading zeros.
pub fn number16(word: &[u8]) -> Result<u16, LineCause>
    ensures { result ≡ number16 word.now }
{
    match decimal_in(0, 0xffff, word) {
        Ok(n) => Ok(n as u16),
        Err(cause) => Err(cause),
    }
}

/// A decimal number of 8 bits, without leading zeros.
pub fn number8(word: &[u8]) -> Result<u8, LineCause>
    ensures { result ≡ number8 word.now }
{
    match decimal_in(0, 0xff, word) {
        Ok(n) => Ok(n as u8),
        Err(cause) => Err(cause),
    }
}

// The digit of a value below 16.
fn hex_digit(value: u8) -> u8
    requires { value < 16 }
    ensures digit { result ≡ hex_digit value }
    ensures ascii { result < 128 }
{
    if value < 10 {
        b'0' + value
    } else {
        b'a' - 10 + value
    }
}

// Puts the lowest digits of the value at the end of the text.
#[tactic(auto, using(crate::proofs::Digits::digit_rules))]
fn push_digits(text: &mut String, value: u64, count: u32) -> Result<(), AllocError>
    requires { count ≤ 16 }
    ensures { OnOk result (string_bytes text.new ≡ string_bytes text.old ++ hex_digits count value) }
{
    for k in (0..count).rev() {
        let digit = (value >> (4 * k)) % 16;
        text.push(hex_digit(digit as u8) as char)?;
    }
    Ok(())
}

// How many digits the value needs; none for 0.
#[tactic(auto, using(crate::proofs::Digits::place_rules))]
fn hex_places(value: u64) -> u32
    ensures places { result ≡ hex_places 16 value }
    ensures few { result ≤ 16 }
{
    for k in (0..16).rev() {
        if value >> (4 * k) != 0 {
            return k + 1;
        }
    }
    0
}

/// Puts the value at the end of the text, in hexadecimal with at least `width` digits.
pub fn push_hex(text: &mut String, value: u64, width: u32) -> Result<(), AllocError>
    requires { width ≤ 16 }
    ensures { OnOk result (string_bytes text.new ≡ string_bytes text.old ++ hex_text width value) }
{
    push_digits(text, value, hex_places(value).max(width))
}

/// How many digits at least a value has beside that length in bytes: two a byte, of at most 8 bytes, and one where there is
/// none.
pub fn value_width(len: u8) -> u32
    ensures width { result ≡ value_width len }
    ensures few { result ≤ 16 }
{
    (2 * u32::from(len.min(8))).max(1)
}
