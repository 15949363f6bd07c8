ghost use Rattle.std.specs.Prelude.{◌≡◌, ◌≢◌, ℕ, ◌++◌, ◌∷◌, ◌||◌, ◌&&◌, not, [], length, nat_eq, true, false, None, is_some, IfOk, IfErr};
ghost use Rattle.turn_book.specs.Histories.{is_in};
ghost use Rattle.turn_book.specs.Hands.{held_at, AreHome};
ghost use Rattle.turn_book.specs.Views.{view_of, slots_of, SamePlace, SameList, SameWords};
ghost use Rattle.turn_book.specs.Many.{AllBelow, AreApart, HoldsAll, HoldsNone, HoldsJust, up_to, given_all};

use crate::book::{Took, TurnBook};
use crate::machine::Machine;
use crate::pen::Pen;

impl<M: Machine> TurnBook<M> {
    /// Gives each of the parts back, as `give` does. What is in hand is what the history has.
    pub fn give_all(&self, pen: &mut Pen<M>, parts: &[u32])
        requires book { pen.old.seat.table_id ≡ self.now.table.shared.table_id }
        requires apart { AreApart parts.now }
        requires held { HoldsAll parts.now (view_of pen.old.seat).held }
        requires home { AreHome (view_of pen.old.seat).held (slots_of pen.old.seat) }
        ensures book { pen.new.seat.table_id ≡ pen.old.seat.table_id }
        ensures home { AreHome (view_of pen.new.seat).held (slots_of pen.new.seat) }
        ensures held { (q : ℕ) → is_some (held_at q (view_of pen.new.seat).held)
            ≡ (is_some (held_at q (view_of pen.old.seat).held) && not (is_in q parts.now)) }
        ensures bare { HoldsJust parts.now (view_of pen.old.seat).held → (view_of pen.new.seat).held ≡ [] }
        ensures view { view_of pen.new.seat ≡ given_all parts.now (view_of pen.old.seat) }
    {
        if let Some((part, rest)) = parts.split_first() {
            self.give(pen, *part);
            self.give_all(pen, rest);
        }
    }

    /// Takes the turn of each part, in order; or of none, where one is found taken, which is the answer.
    ///
    /// A part that was taken before that one goes home again.
    pub fn take_all(&self, pen: &mut Pen<M>, parts: &[u32]) -> Result<(), u32>
        requires book { pen.old.seat.table_id ≡ self.now.table.shared.table_id }
        requires parts { AllBelow self.now.table.shared.table_id.slots parts.now }
        requires apart { AreApart parts.now }
        requires caller { (view_of pen.old.seat).caller ≢ None }
        requires free { HoldsNone parts.now (view_of pen.old.seat).held }
        requires home { AreHome (view_of pen.old.seat).held (slots_of pen.old.seat) }
        ensures book { pen.new.seat.table_id ≡ pen.old.seat.table_id }
        ensures home { AreHome (view_of pen.new.seat).held (slots_of pen.new.seat) }
        ensures held { IfOk result (λ done. (q : ℕ) → is_some (held_at q (view_of pen.new.seat).held)
            ≡ (is_in q parts.now || is_some (held_at q (view_of pen.old.seat).held))) }
        ensures took { IfOk result (λ done. ((view_of pen.new.seat).took ≡ (view_of pen.old.seat).took ++ parts.now)
            × ((view_of pen.new.seat).found ≡ (view_of pen.old.seat).found)) }
        ensures words { IfOk result (λ done. SameWords (view_of pen.old.seat) (view_of pen.new.seat)) }
        ensures found { IfErr result (λ p. (view_of pen.new.seat).found ≡ (view_of pen.old.seat).found ++ p ∷ []) }
        ensures one { IfErr result (λ p. is_in p parts.now ≡ true) }
        ensures until { IfErr result (λ p. (view_of pen.new.seat).took ≡ (view_of pen.old.seat).took ++ up_to p parts.now) }
        ensures same { IfErr result (λ p. (q : ℕ) → is_some (held_at q (view_of pen.new.seat).held)
            ≡ is_some (held_at q (view_of pen.old.seat).held)) }
        ensures others { IfOk result (λ done. (q : ℕ) → is_in q parts.now ≡ false → held_at q (view_of pen.new.seat).held
            ≡ held_at q (view_of pen.old.seat).held) }
        ensures unknown { IfErr result (λ p. is_in 0 parts.now ≡ false → SameWords (view_of pen.old.seat) (view_of pen.new.seat)) }
        ensures back { IfErr result (λ p. (view_of pen.new.seat).held ≡ (view_of pen.old.seat).held) }
        ensures notes { (view_of pen.new.seat).notes ≡ (view_of pen.old.seat).notes }
        ensures list { SameList (view_of pen.old.seat) (view_of pen.new.seat) }
        ensures place { SamePlace (view_of pen.old.seat) (view_of pen.new.seat) }
    {
        let Some((part, rest)) = parts.split_first() else {
            return Ok(());
        };
        match self.take(pen, *part) {
            Took::Found => Err(*part),
            Took::Got => match self.take_all(pen, rest) {
                Ok(()) => Ok(()),
                Err(found) => {
                    self.give(pen, *part);
                    Err(found)
                }
            },
        }
    }
}
