//! Message signalled interrupts: the message that a device's write of an address and a payload stands for (SDM volume 3,
//! message address and message data register formats).
#![tactic(auto)]

ghost use Rattle.std.specs.Prelude.{◌≡◌, ◌≢◌, ℕ, ◌↔◌, Some, None, IsErr, MatchResult};
ghost use Rattle.irq_bits.specs.Fields.{bits_of};
ghost use Rattle.msi_decode.specs.Messages.{mode_of, message_of, redirected, triggered};

use irq_base::{Message, Mode, MsiWord};

/// The address is not one of messages.
#[derive(Clone, Copy, Debug, PartialEq, Eq)]
pub struct BadMsi;

/// The message that an address and a payload stand for. `BadMsi` comes exactly where address bits 63 to 20 are not FEEh.
pub fn decode(address: u64, payload: u32) -> Result<Message, BadMsi>
    ensures message { MatchResult result (λ m. message_of address payload ≡ Some m) (λ _. message_of address payload ≡ None) }
    ensures bad { IsErr result ↔ (bits_of address 63 20 ≢ 0xfee) }
{
    if !(MsiWord { address, payload }).good() {
        return Err(BadMsi);
    }
    let is_hinted = address >> 3 & 1 == 1;
    let logical = address >> 2 & 1 == 1;
    let mode = mode_of((payload >> 8 & 7) as u8);
    Ok(Message {
        mode: redirected(is_hinted && logical, mode),
        logical,
        dest: (address >> 12 & 0xff) as u32,
        vector: (payload & 0xff) as u8,
        level: triggered(mode, payload >> 15 & 1 == 1),
    })
}

// The delivery mode that payload bits 10 to 8 name.
fn mode_of(number: u8) -> Mode
    ensures { result ≡ mode_of number }
{
    match number {
        0 => Mode::Fixed,
        1 => Mode::Lowest,
        2 => Mode::Smi,
        4 => Mode::Nmi,
        5 => Mode::Init,
        7 => Mode::ExtInt,
        _ => Mode::Reserved,
    }
}

// The mode of a message that is redirected or not.
fn redirected(is_redirected: bool, mode: Mode) -> Mode
    ensures { result ≡ redirected is_redirected mode }
{
    match mode {
        Mode::Fixed if is_redirected => Mode::Lowest,
        _ => mode,
    }
}

// Whether a message of that mode is level triggered.
fn triggered(mode: Mode, level: bool) -> bool
    ensures { result ≡ triggered mode level }
{
    match mode {
        Mode::Nmi => false,
        _ => level,
    }
}
