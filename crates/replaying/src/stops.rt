//! Actors that a limit of the board stopped.
ghost use Rattle.std.specs.Prelude.{◌≡◌, is_some};
ghost use Rattle.script_text.specs.Asks.{same_caller};
ghost use Rattle.replaying.specs.FileOrder.{stop_of};

use irq_base::{Caller, Spent};

/// An actor that was stopped, and the limit that barred its call.
#[derive(Clone, Copy, Debug, PartialEq, Eq)]
pub struct Stop {
    pub caller: Caller,
    pub spent: Spent,
}

// Whether two callers are one.
fn same_caller(one: Caller, other: Caller) -> bool
    ensures { result ≡ same_caller one other }
{
    match (one, other) {
        (Caller::Device(a), Caller::Device(b)) => a == b,
        (Caller::Cpu(a), Caller::Cpu(b)) => a == b,
        _ => false,
    }
}

/// The limit that stopped a caller, if one did.
pub fn stop_of(caller: Caller, stops: &[Stop]) -> Option<Spent>
    ensures { result ≡ stop_of caller stops.now }
{
    let mut rest = stops;
    'stops: while let Some((stop, behind)) = rest.split_first() {
        if same_caller(stop.caller, caller) {
            return Some(stop.spent);
        }
        rest = behind;
    }
    None
}
