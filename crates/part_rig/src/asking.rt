//! Words that are asked for.
ghost use Rattle.std.specs.Prelude.{◌≡◌, ◌<◌, ◌≤◌, IfSome, None};
ghost use Rattle.route_table.specs.Pins.{IsPin};
ghost use Rattle.route_bank.specs.Indices.{index_of_pin};
ghost use Rattle.part_rig.specs.Noted.{missing_after};
ghost use Rattle.part_rig.specs.Knowing.{noted_at};
ghost use Rattle.board_model.specs.declared.width.TheConstants.{WORDS};

use crate::known::Known;
use crate::reading::word_under;
use irq_base::Pin;
use route_bank::index_of_pin;

// What is missing once a word was asked for.
#[inline]
fn missing_after(missing: Option<u16>, word: Option<u64>, index: u16) -> Option<u16>
    ensures { result ≡ missing_after missing word index }
{
    match (missing, word) {
        (Some(other), _) => Some(other),
        (None, Some(_)) => None,
        (None, None) => Some(index),
    }
}

impl Known {
    /// The word of that index, if it counts as noted; else it is missing from now on, where none is yet.
    #[inline]
    pub(crate) fn word(&mut self, index: u16) -> Option<u64>
        requires { index < WORDS }
        ensures word { result ≡ noted_at self.old index }
        ensures missing { self.new.missing ≡ missing_after self.old.missing result index }
        ensures places { self.new.places ≡ self.old.places }
        ensures looked { self.new.looked ≡ self.old.looked }
        ensures settled { self.new.settled ≡ self.old.settled }
        ensures at { self.new.at ≡ self.old.at }
    {
        let word = if self.settled {
            word_under(self.looked, self.places[index as usize])
        } else {
            None
        };
        self.missing = missing_after(self.missing, word, index);
        word
    }

    /// The word of a pin, if it counts as noted; else it is missing from now on, where none is yet.
    #[inline]
    pub(crate) fn pin_word(&mut self, pin: Pin) -> Option<u64>
        requires { IsPin pin }
        ensures word { result ≡ noted_at self.old (index_of_pin pin) }
        ensures missing { self.new.missing ≡ missing_after self.old.missing result (index_of_pin pin) }
        ensures places { self.new.places ≡ self.old.places }
        ensures looked { self.new.looked ≡ self.old.looked }
        ensures settled { self.new.settled ≡ self.old.settled }
        ensures at { self.new.at ≡ self.old.at }
        ensures fits { IfSome result (λ w. w ≤ 4096) }
    {
        self.word(index_of_pin(pin) as u16)
    }

    /// The index of the word that is missing, if one is. That word does not count as noted.
    #[inline]
    pub fn lacks(&self) -> Option<u16>
        ensures missing { result ≡ self.now.missing }
        ensures low { IfSome result (λ k. k < WORDS) }
        ensures blank { IfSome result (λ k. noted_at self.now k ≡ None) }
    {
        self.missing
    }
}
