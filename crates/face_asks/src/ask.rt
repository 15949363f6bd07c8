//! One call, asked of a face.
ghost use Rattle.std.specs.Prelude.{◌≡◌, false};
ghost use Rattle.irq_base.specs.Callers.{is_of_processor};
ghost use Rattle.face_asks.specs.Asks.{IsAnswered};

use irq_base::{Call, Done, Events, Face, Spent};

/// Asks a call that a device may ask and a processor too. A face's caller is there on its board, so that it may ask it.
pub fn ask_as_any<F: Face>(face: &mut F, call: &Call, events: &mut Events) -> Result<Done, Spent>
    requires { is_of_processor call.now ≡ false }
    ensures { IsAnswered F.Face call.now events.new.items result face.old face.new }
{
    let _caller = face.caller();
    face.ask(call, events)
}
