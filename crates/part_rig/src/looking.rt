//! A look at the front, and loads of words.
ghost use Rattle.std.specs.Prelude.{◌≡◌, ℕ, ◌+◌, ◌<◌, ◌≤◌, ◌++◌, ◌∷◌, [], length, true, false, is_some, IfSome, slice_set, count_by, Some, None};
ghost use Rattle.board_step.specs.Publications.{words};
ghost use Rattle.board_step.specs.Step.{is_publication};
ghost use Rattle.turn_book.specs.Banks.{HasRegistry, NotesAreRight};
ghost use Rattle.turn_book.specs.Hands.{held_at};
ghost use Rattle.turn_book.specs.Histories.{IsPrefix, last_of};
ghost use Rattle.turn_book.specs.Plays.{IsLastLook};
ghost use Rattle.turn_book.specs.Views.{view_of, slots_of, noted_view, IsLegal, HoldsRight, HasJustEnded, HasOnlyMade, AddsNoneOfOwn, SamePlace, SameTurns, LookedUnder};
ghost use Rattle.part_slots.specs.Running.{Opens, IsStep, caller_of};
ghost use Rattle.part_slots.specs.Slots.{slots_of as slots_of_board};
ghost use Rattle.part_rig.specs.Readings.{AreNoted, word_under, read_at, blanks_under};
ghost use Rattle.part_rig.specs.Noted.{published_in};
ghost use Rattle.part_rig.specs.Knowing.{list_of};
ghost use Rattle.board_model.specs.declared.width.TheConstants.{WORDS};

use crate::known::Known;
use crate::reading::Reading;
use part_machine::RunningBoard;
use std::snapshot::Snapshot;
use turn_book::{Front, Pen, TurnBook};

impl Known {
    // From now on the list is that of the pen, whose last look found this generation.
    #[inline]
    fn settle(&mut self, pen: &Pen<RunningBoard>, generation: u32)
        requires legal { IsLegal Opens IsStep (view_of pen.now.seat) }
        requires generation { generation ≡ count_by is_publication (view_of pen.now.seat).seen }
        requires right { NotesAreRight words is_publication (view_of pen.now.seat) }
        requires noted { AreNoted (view_of pen.now.seat).notes self.old.places.items }
        ensures places { self.new.places.items ≡ self.old.places.items }
        ensures looked { self.new.looked ≡ generation }
        ensures settled { self.new.settled ≡ true }
        ensures missing { self.new.missing ≡ None }
        ensures list { list_of self.new ≡ published_in (view_of pen.now.seat) }
    {
        self.looked = generation;
        self.settled = true;
        self.missing = None;
        self.at = Snapshot::of(pen);
    }

    /// One look at the front, which tells what `front` tells.
    ///
    /// From now on `self` stands for the list that is published in the state of the pen's list, and nothing is missing. The
    /// words that were read under the generation that was found count as noted.
    #[inline]
    pub fn look(&mut self, book: &TurnBook<RunningBoard>, pen: &mut Pen<RunningBoard>) -> Front
        requires book { pen.old.seat.table_id ≡ book.now.table.shared.table_id }
        requires noted { AreNoted (view_of pen.old.seat).notes self.old.places.items }
        ensures noted { AreNoted (view_of pen.new.seat).notes self.new.places.items }
        ensures places { self.new.places.items ≡ self.old.places.items }
        ensures looked { self.new.looked ≡ result.generation }
        ensures under { LookedUnder self.new.looked (view_of pen.new.seat) }
        ensures few { (g : ℕ) → blanks_under g self.new.places.items ≤ WORDS }
        ensures settled { self.new.settled ≡ true }
        ensures missing { self.new.missing ≡ None }
        ensures list { list_of self.new ≡ published_in (view_of pen.new.seat) }
        ensures published { IfSome (view_of pen.new.seat).now (λ board. words board ≡ list_of self.new) }
        ensures book { pen.new.seat.table_id ≡ pen.old.seat.table_id }
        ensures length { result.length ≡ length (view_of pen.new.seat).seen }
        ensures generation { result.generation ≡ count_by is_publication (view_of pen.new.seat).seen }
        ensures seen { IsPrefix (view_of pen.old.seat).seen (view_of pen.new.seat).seen }
        ensures legal { IsLegal Opens IsStep (view_of pen.new.seat) }
        ensures own { AddsNoneOfOwn caller_of (view_of pen.old.seat) (view_of pen.new.seat) }
        ensures holds { HoldsRight slots_of_board (view_of pen.new.seat) }
        ensures ended { HasJustEnded caller_of (view_of pen.new.seat) }
        ensures made { HasOnlyMade caller_of (view_of pen.new.seat) }
        ensures looks { (view_of pen.new.seat).looks ≡ (view_of pen.old.seat).looks ++ result ∷ [] }
        ensures last_look { IsLastLook result (view_of pen.new.seat) }
        ensures misses { (view_of pen.new.seat).misses ≡ (view_of pen.old.seat).misses }
        ensures place { SamePlace (view_of pen.old.seat) (view_of pen.new.seat) }
        ensures turns { SameTurns (view_of pen.old.seat) (view_of pen.new.seat) }
        ensures right { NotesAreRight words is_publication (view_of pen.new.seat) }
        ensures notes { (view_of pen.new.seat).notes ≡ (view_of pen.old.seat).notes }
        ensures drafts { (view_of pen.new.seat).drafts ≡ (view_of pen.old.seat).drafts }
        ensures knows { HasRegistry (view_of pen.old.seat) → (view_of pen.new.seat).knows ≡ Some result.generation }
        ensures unheld { is_some (held_at 0 (view_of pen.old.seat).held) ≡ false
            → (view_of pen.new.seat).knows ≡ (view_of pen.old.seat).knows }
        ensures slots { slots_of pen.new.seat ≡ slots_of pen.old.seat }
    {
        let had = book.front(pen);
        self.settle(pen, had.generation);
        had
    }

    // Keeps a word that was read under the generation of the last look. No word counts as noted then.
    #[inline]
    fn keep(&mut self, index: u16, word: u64)
        requires { index < WORDS }
        ensures places { self.new.places.items
            ≡ slice_set self.old.places.items index (Some (record { word = word; generation = self.old.looked })) }
        ensures looked { self.new.looked ≡ self.old.looked }
        ensures settled { self.new.settled ≡ false }
        ensures missing { self.new.missing ≡ None }
    {
        self.settled = false;
        self.missing = None;
        self.places[index as usize] = Some(Reading {
            word,
            generation: self.looked,
        });
    }

    /// One load of a word, under the generation of the pen's last look, which is that of `self`; it tells what `word` tells.
    ///
    /// The word counts as noted once a look finds that generation again, and no word does before.
    #[inline]
    #[tactic(auto, using(crate::proofs::Blanks::one_fewer, crate::proofs::Noting::noted_read))]
    pub fn load(
        &mut self,
        book: &TurnBook<RunningBoard>,
        pen: &mut Pen<RunningBoard>,
        index: u16,
    ) -> u64
        requires book { pen.old.seat.table_id ≡ book.now.table.shared.table_id }
        requires width { book.now.width ≡ WORDS }
        requires looked { is_some (last_of (view_of pen.old.seat).looks) ≡ true }
        requires under { LookedUnder self.old.looked (view_of pen.old.seat) }
        requires index { index < WORDS }
        requires noted { AreNoted (view_of pen.old.seat).notes self.old.places.items }
        ensures noted { AreNoted (view_of pen.new.seat).notes self.new.places.items }
        ensures under { LookedUnder self.new.looked (view_of pen.new.seat) }
        ensures places { self.new.places.items
            ≡ slice_set self.old.places.items index (Some (record { word = result; generation = self.old.looked })) }
        ensures fewer { word_under self.old.looked (read_at self.old.places.items index) ≡ None
            → blanks_under self.old.looked self.new.places.items + 1 ≡ blanks_under self.old.looked self.old.places.items }
        ensures same { self.new.looked ≡ self.old.looked }
        ensures settled { self.new.settled ≡ false }
        ensures missing { self.new.missing ≡ None }
        ensures book { pen.new.seat.table_id ≡ pen.old.seat.table_id }
        ensures view { view_of pen.new.seat ≡ noted_view index result self.old.looked (view_of pen.old.seat) }
        ensures slots { slots_of pen.new.seat ≡ slots_of pen.old.seat }
    {
        let word = book.word(pen, u32::from(index));
        self.keep(index, word);
        word
    }
}
