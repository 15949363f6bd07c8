ghost use Rattle.std.specs.Prelude.{◌≡◌, ◌≢◌, ℕ, ◌<◌, ◌++◌, ◌∷◌, ◌||◌, ◌&&◌, not, [], length, nat_eq, true, false, is_some, IfOk, IfErr, IfSome, None, Some, count_by};
ghost use Rattle.turn_book.specs.Histories.{IsPrefix};
ghost use Rattle.turn_book.specs.Hands.{held_at, held_without, slot_at, AreHome};
ghost use Rattle.turn_book.specs.Rule.{workings};
ghost use Rattle.turn_book.specs.Banks.{HasRegistry, NotesAreRight};
ghost use Rattle.turn_book.specs.Views.{view_of, slots_of, given_view, IsLegal, HoldsRight, HasJustEnded, HasOnlyMade, AddsNoneOfOwn, SamePlace, SameList, SameTurns, SameWords, AfterEntry};
ghost use Rattle.turn_book.specs.Plays.{IsAsHistoryHas, IsLastLook, LeadsOn, HoldsReach, HasDrafted};

use crate::book::{Took, TurnBook};
use crate::machine::{Entering, Machine};
use crate::pen::Pen;
use crate::plays::{Commit, Give, Look, Take};
use crate::slots::bring;
use crate::view::{Front, raised};

impl<M: Machine> TurnBook<M> {
    /// One load of the front.
    ///
    /// The pen's list is then the history, and the answer its length and number of publications. Each note of that
    /// generation has the published value. With the registry held, the pen knows the generation.
    #[inline]
    pub fn front(&self, pen: &mut Pen<M>) -> Front
        requires book { pen.old.seat.table_id ≡ self.now.table.shared.table_id }
        ensures book { pen.new.seat.table_id ≡ pen.old.seat.table_id }
        ensures length { result.length ≡ length (view_of pen.new.seat).seen }
        ensures generation { result.generation ≡ count_by M.is_publication (view_of pen.new.seat).seen }
        ensures seen { IsPrefix (view_of pen.old.seat).seen (view_of pen.new.seat).seen }
        ensures legal { IsLegal M.opens M.steps (view_of pen.new.seat) }
        ensures own { AddsNoneOfOwn M.caller (view_of pen.old.seat) (view_of pen.new.seat) }
        ensures holds { HoldsRight M.parts (view_of pen.new.seat) }
        ensures ended { HasJustEnded M.caller (view_of pen.new.seat) }
        ensures made { HasOnlyMade M.caller (view_of pen.new.seat) }
        ensures looks { (view_of pen.new.seat).looks ≡ (view_of pen.old.seat).looks ++ result ∷ [] }
        ensures last_look { IsLastLook result (view_of pen.new.seat) }
        ensures misses { (view_of pen.new.seat).misses ≡ (view_of pen.old.seat).misses }
        ensures place { SamePlace (view_of pen.old.seat) (view_of pen.new.seat) }
        ensures turns { SameTurns (view_of pen.old.seat) (view_of pen.new.seat) }
        ensures right { NotesAreRight M.published M.is_publication (view_of pen.new.seat) }
        ensures notes { (view_of pen.new.seat).notes ≡ (view_of pen.old.seat).notes }
        ensures drafts { (view_of pen.new.seat).drafts ≡ (view_of pen.old.seat).drafts }
        ensures knows { HasRegistry (view_of pen.old.seat) → (view_of pen.new.seat).knows ≡ Some result.generation }
        ensures unheld { is_some (held_at 0 (view_of pen.old.seat).held) ≡ false → (view_of pen.new.seat).knows
            ≡ (view_of pen.old.seat).knows }
        ensures slots { slots_of pen.new.seat ≡ slots_of pen.old.seat }
    {
        let word = self.table.shared.load::<Look<M>>(&mut pen.seat, 0);
        let found = Front::of_word(word);
        pen.looked = found.generation;
        pen.known = found.generation;
        found
    }

    /// One swap of a turn.
    ///
    /// `Found` comes exactly where the swap found the turn taken.
    #[inline]
    pub fn take(&self, pen: &mut Pen<M>, part: u32) -> Took
        requires book { pen.old.seat.table_id ≡ self.now.table.shared.table_id }
        requires part { part < self.now.table.shared.table_id.slots }
        requires caller { (view_of pen.old.seat).caller ≢ None }
        requires free { is_some (held_at part (view_of pen.old.seat).held) ≡ false }
        ensures book { pen.new.seat.table_id ≡ pen.old.seat.table_id }
        ensures got { result ≡ Took.Got → IfSome (held_at part (view_of pen.new.seat).held) (λ x.
            ((view_of pen.new.seat).held ≡ record { part = part; value = x } ∷ (view_of pen.old.seat).held)
            × (slots_of pen.new.seat ≡ (part, x) ∷ slots_of pen.old.seat)
            × IsAsHistoryHas (workings M.opens M.steps M.parts M.published M.caller M.is_publication) (view_of pen.old.seat) part x) }
        ensures held { result ≡ Took.Got → is_some (held_at part (view_of pen.new.seat).held) ≡ true }
        ensures just { result ≡ Took.Got → (q : ℕ) → is_some (held_at q (view_of pen.new.seat).held)
            ≡ (nat_eq part q || is_some (held_at q (view_of pen.old.seat).held)) }
        ensures home { AreHome (view_of pen.old.seat).held (slots_of pen.old.seat)
            → AreHome (view_of pen.new.seat).held (slots_of pen.new.seat) }
        ensures took { result ≡ Took.Got → ((view_of pen.new.seat).took ≡ (view_of pen.old.seat).took ++ part ∷ [])
            × ((view_of pen.new.seat).found ≡ (view_of pen.old.seat).found) }
        ensures found { result ≡ Took.Found → ((view_of pen.new.seat).found ≡ (view_of pen.old.seat).found ++ part ∷ [])
            × ((view_of pen.new.seat).took ≡ (view_of pen.old.seat).took) }
        ensures lost { result ≡ Took.Found → ((view_of pen.new.seat).held ≡ (view_of pen.old.seat).held)
            × (slots_of pen.new.seat ≡ slots_of pen.old.seat) }
        ensures list { SameList (view_of pen.old.seat) (view_of pen.new.seat) }
        ensures place { SamePlace (view_of pen.old.seat) (view_of pen.new.seat) }
        ensures words { SameWords (view_of pen.old.seat) (view_of pen.new.seat) }
    {
        let old = self
            .table
            .shared
            .swap::<Take<M>>(&mut pen.seat, part as usize + 1, 1);
        if old == 0 { Took::Got } else { Took::Found }
    }

    /// The part goes home, wherever it stands among those in hand.
    ///
    /// The part in hand is the one that the history has. With the registry, which is part 0, go the drafts and what the
    /// pen knows of the generation.
    #[inline]
    pub fn give(&self, pen: &mut Pen<M>, part: u32)
        requires book { pen.old.seat.table_id ≡ self.now.table.shared.table_id }
        requires held { is_some (held_at part (view_of pen.old.seat).held) ≡ true }
        requires home { slot_at part (slots_of pen.old.seat) ≡ held_at part (view_of pen.old.seat).held }
        ensures book { pen.new.seat.table_id ≡ pen.old.seat.table_id }
        ensures view { view_of pen.new.seat ≡ given_view part (view_of pen.old.seat) }
        ensures just { (q : ℕ) → is_some (held_at q (view_of pen.new.seat).held)
            ≡ (is_some (held_at q (view_of pen.old.seat).held) && not (nat_eq part q)) }
        ensures home { AreHome (view_of pen.old.seat).held (slots_of pen.old.seat)
            → AreHome (view_of pen.new.seat).held (slots_of pen.new.seat) }
        ensures gone { slot_at part (slots_of pen.new.seat) ≡ None }
        ensures slots { (q : ℕ) → nat_eq part q ≡ false → slot_at q (slots_of pen.new.seat) ≡ slot_at q (slots_of pen.old.seat) }
    {
        bring(&mut pen.seat, part as usize);
        self.table
            .shared
            .store::<Give<M>>(&mut pen.seat, part as usize + 1, 0);
    }

    /// One compare and exchange of the front: the entry that N names is added to the history, or another front is found.
    ///
    /// `had` is the pen's last look. The entry is a step from the history of `had`, has the pen's caller, and the pen
    /// holds its reach. `publish` tells whether it is a publication; then the pen holds the registry, which is part 0,
    /// and has written each word that is published after the entry to the spare bank. The answer is the place of the
    /// entry, or the front found, which differs from `had`.
    #[inline]
    pub fn commit<N: Entering<M::Entry>>(
        &self,
        pen: &mut Pen<M>,
        had: Front,
        publish: bool,
    ) -> Result<u64, Front>
        requires book { pen.old.seat.table_id ≡ self.now.table.shared.table_id }
        requires named { is_some N.entry ≡ true }
        requires last_look { IsLastLook had (view_of pen.old.seat) }
        requires step { IfSome N.entry (λ e. LeadsOn M.steps had (view_of pen.old.seat) e) }
        requires caller { IfSome N.entry (λ e. (view_of pen.old.seat).caller ≡ Some (M.caller e)) }
        requires reach { IfSome N.entry (λ e. HoldsReach M.reach had (view_of pen.old.seat) e) }
        requires publish { IfSome N.entry (λ e. publish ≡ M.is_publication e) }
        requires registry { publish ≡ true → HasRegistry (view_of pen.old.seat) }
        requires drafted { publish ≡ true → IfSome N.entry (λ e. HasDrafted M.steps M.published had (view_of pen.old.seat) e) }
        ensures book { pen.new.seat.table_id ≡ pen.old.seat.table_id }
        ensures at { IfOk result (λ at. (at ≡ had.length) × (at ≡ length (view_of pen.old.seat).seen)) }
        ensures counted { IfOk result (λ at. had.generation ≡ count_by M.is_publication (view_of pen.old.seat).seen) }
        ensures entered { IfOk result (λ at. IfSome N.entry (λ e. (view_of pen.new.seat).seen ≡ (view_of pen.old.seat).seen ++ e ∷ [])) }
        ensures follows { IfOk result (λ at. IfSome N.entry (λ e. (s t : M.State) → (view_of pen.old.seat).now ≡ Some s
            → (view_of pen.new.seat).now ≡ Some t → M.steps s e t)) }
        ensures kept { IfOk result (λ at. (view_of pen.new.seat).misses ≡ (view_of pen.old.seat).misses) }
        ensures published { IfOk result (λ at. AfterEntry publish (view_of pen.old.seat) (view_of pen.new.seat)) }
        ensures other { IfErr result (λ now. (now ≢ had) × (now.length ≡ length (view_of pen.new.seat).seen)
            × (now.generation ≡ count_by M.is_publication (view_of pen.new.seat).seen)) }
        ensures missed { IfErr result (λ now. (view_of pen.new.seat).misses ≡ (view_of pen.old.seat).misses ++ record {
          had = had;
          found = now;
        } ∷ []) }
        ensures lost { IfErr result (λ now. ((view_of pen.new.seat).held ≡ (view_of pen.old.seat).held)
            × AddsNoneOfOwn M.caller (view_of pen.old.seat) (view_of pen.new.seat)) }
        ensures words { IfErr result (λ now. SameWords (view_of pen.old.seat) (view_of pen.new.seat)) }
        ensures seen { IsPrefix (view_of pen.old.seat).seen (view_of pen.new.seat).seen }
        ensures legal { IsLegal M.opens M.steps (view_of pen.new.seat) }
        ensures holds { HoldsRight M.parts (view_of pen.new.seat) }
        ensures held { (q : ℕ) → is_some (held_at q (view_of pen.new.seat).held) ≡ is_some (held_at q (view_of pen.old.seat).held) }
        ensures ended { HasJustEnded M.caller (view_of pen.new.seat) }
        ensures made { HasOnlyMade M.caller (view_of pen.new.seat) }
        ensures looks { (view_of pen.new.seat).looks ≡ (view_of pen.old.seat).looks }
        ensures turns { ((view_of pen.new.seat).took ≡ (view_of pen.old.seat).took)
            × ((view_of pen.new.seat).found ≡ (view_of pen.old.seat).found) }
        ensures place { SamePlace (view_of pen.old.seat) (view_of pen.new.seat) }
        ensures right { NotesAreRight M.published M.is_publication (view_of pen.new.seat) }
        ensures slots { slots_of pen.new.seat ≡ slots_of pen.old.seat }
    {
        // the machine's bounds keep both numbers within the word
        let expected = had.word();
        let next = raised(expected, publish);
        let found = self
            .table
            .shared
            .compare_exchange::<Commit<M, N>>(&mut pen.seat, 0, expected, next);
        if found != expected {
            return Err(Front::of_word(found));
        }
        if publish {
            pen.known = had.generation.wrapping_add(1);
        }
        Ok(had.length)
    }
}
