//! What the published words of pins and triggers tell.
ghost use Rattle.std.specs.Prelude.{◌≡◌, ◌<◌, ◌≤◌, IfSome};
ghost use Rattle.board_model.specs.Published.{gsi_in, trigger_in};

use board_model::TriggerWord;

/// The GSI that the word of a pin tells; none where no GSI has the pin.
#[inline]
pub fn decode_pin(word: u64) -> Option<u16>
    requires { word ≤ 4096 }
    ensures value { result ≡ gsi_in word }
    ensures range { IfSome result (λ gsi. gsi < 4096) }
{
    match word {
        0 => None,
        word => Some((word - 1) as u16),
    }
}

/// What the word of a trigger tells that it injects; nothing where no irqfd has the trigger.
#[inline]
pub fn decode_trigger(word: u64) -> Option<TriggerWord>
    ensures value { result ≡ trigger_in word }
    ensures range { IfSome result (λ trigger. trigger.gsi < 4096) }
{
    if word % 2 == 1 {
        Some(TriggerWord {
            gsi: (word / 2 % 4096) as u16,
            resample: word / 8192 % 2 == 1,
        })
    } else {
        None
    }
}
