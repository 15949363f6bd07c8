//! How replies are spelled.
ghost use Rattle.std.specs.Prelude.{◌≡◌, ◌++◌, ◌≤◌, OnOk};
ghost use Rattle.std.specs.String.{string_bytes};
ghost use Rattle.script_text.specs.Numbers.{hex_text};
ghost use Rattle.transcript.specs.Text.{len_of, reply_text};

use irq_base::{Call, Reply};
use script_text::{push_hex, value_width};
use std::alloc::AllocError;
use std::fmt::Write;

/// The length in bytes that a call has; 0 for a call that has none.
pub fn len_of(call: &Call) -> u8
    ensures { result ≡ len_of call.now }
{
    match call {
        Call::Attach { len, .. }
        | Call::Detach { len, .. }
        | Call::PortOut { len, .. }
        | Call::PortIn { len, .. }
        | Call::Store { len, .. }
        | Call::Load { len, .. } => *len,
        _ => 0,
    }
}

// Puts a word and a number in hexadecimal, of at least `width` digits, at the end.
fn push_named(text: &mut String, name: &str, value: u64, width: u32) -> Result<(), AllocError>
    requires { width ≤ 16 }
    ensures { OnOk result (string_bytes text.new ≡ string_bytes text.old ++ (name.now ++ hex_text width value)) }
{
    text.push_str(name)?;
    push_hex(text, value, width)
}

/// Puts the reply to a call of that length at the end.
pub fn push_reply(text: &mut String, len: u8, reply: Reply) -> Result<(), AllocError>
    ensures { OnOk result (string_bytes text.new ≡ string_bytes text.old ++ reply_text len reply) }
{
    match reply {
        Reply::Signal(status) => write!(text, "{status}"),
        Reply::Done => text.push_str("done"),
        Reply::Count(n) => write!(text, "count {n}"),
        Reply::Empty => text.push_str("empty"),
        Reply::Removed(n) => write!(text, "removed {n}"),
        Reply::Value(v) => push_named(text, "value ", v, value_width(len)),
        Reply::Exit => text.push_str("exit"),
        Reply::Vector(v) => push_named(text, "vector ", u64::from(v), 2),
        Reply::Extint(v) => push_named(text, "extint ", u64::from(v), 2),
        Reply::Nmi => text.push_str("nmi"),
        Reply::Ended(v) => push_named(text, "ended ", u64::from(v), 2),
        Reply::Nothing => text.push_str("nothing"),
        Reply::Held(n) => write!(text, "held {n}"),
        Reply::Refused(refusal) => write!(text, "refused {refusal}"),
    }
}
