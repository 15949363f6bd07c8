ghost use Rattle.std.specs.Prelude.{◌≡◌, ◌<◌, ◌+◌, ◌^◌, not, true, is_some, IfSome, Some};
ghost use Rattle.turn_book.specs.Histories.{last_of};
ghost use Rattle.turn_book.specs.Banks.{place, is_odd, IsSpareBank};
ghost use Rattle.turn_book.specs.Views.{view_of, slots_of, noted_view, drafted_view};

use crate::book::TurnBook;
use crate::machine::{Machine, Naming};
use crate::pen::Pen;
use crate::plays::{DraftWord, ReadWord};
use std::marker::Brand;

/// The spare bank of a generation, by its place in the book's table.
#[derive(Clone, Copy, Debug, PartialEq, Eq)]
pub struct SpareBank {
    /// The table's word at which the bank begins.
    pub begin: usize,
}

impl<M: Machine> TurnBook<M> {
    // The table's word of an index in the first bank, or in the second.
    #[inline]
    fn place(&self, second: bool, index: u32) -> usize
        requires index { index < self.now.width }
        ensures place { result ≡ place self.now.table.shared.table_id.slots self.now.width second index }
        ensures within { result < self.now.table.shared.table_id.words }
    {
        if second {
            self.banks + self.width + index as usize
        } else {
            self.banks + index as usize
        }
    }

    // A load of the word of the index that N names.
    #[inline]
    fn word_named<N: Naming>(&self, pen: &mut Pen<M>, index: u32) -> u64
        requires book { pen.old.seat.table_id ≡ self.now.table.shared.table_id }
        requires looked { is_some (last_of (view_of pen.old.seat).looks) ≡ true }
        requires index { index < self.now.width }
        requires named { N.named ≡ Some index }
        ensures book { pen.new.seat.table_id ≡ pen.old.seat.table_id }
        ensures noted { IfSome (last_of (view_of pen.old.seat).looks) (λ had. view_of pen.new.seat
            ≡ noted_view index result had.generation (view_of pen.old.seat)) }
        ensures slots { slots_of pen.new.seat ≡ slots_of pen.old.seat }
    {
        let place = self.place(pen.looked % 2 == 1, index);
        self.table.shared.load::<ReadWord<N>>(&mut pen.seat, place)
    }

    /// One load of a published word, from the bank of the pen's last look. The pen notes it under that generation.
    ///
    /// The pen has looked at the front. Where a later look finds the same generation, the value is the published one: the
    /// clause `right` of `front`.
    #[inline]
    pub fn word(&self, pen: &mut Pen<M>, index: u32) -> u64
        requires book { pen.old.seat.table_id ≡ self.now.table.shared.table_id }
        requires looked { is_some (last_of (view_of pen.old.seat).looks) ≡ true }
        requires index { index < self.now.width }
        ensures book { pen.new.seat.table_id ≡ pen.old.seat.table_id }
        ensures noted { IfSome (last_of (view_of pen.old.seat).looks) (λ had. view_of pen.new.seat
            ≡ noted_view index result had.generation (view_of pen.old.seat)) }
        ensures slots { slots_of pen.new.seat ≡ slots_of pen.old.seat }
    {
        self.word_named::<Brand>(pen, index)
    }

    /// The spare bank of the generation that the pen knows. It stays the spare one for as long as the pen knows this generation.
    #[inline]
    pub fn spare_bank(&self, pen: &Pen<M>) -> SpareBank
        requires knows { is_some (view_of pen.now.seat).knows ≡ true }
        ensures bank { IsSpareBank self.now.table.shared.table_id.slots self.now.width (view_of pen.now.seat) result.begin }
    {
        let begin = if pen.known % 2 == 0 {
            self.banks + self.width
        } else {
            self.banks
        };
        SpareBank { begin }
    }

    // A store to the spare word of the index that N names.
    #[inline]
    fn spare_named<N: Naming>(&self, pen: &mut Pen<M>, bank: SpareBank, index: u32, value: u64)
        requires book { pen.old.seat.table_id ≡ self.now.table.shared.table_id }
        requires knows { is_some (view_of pen.old.seat).knows ≡ true }
        requires bank { IsSpareBank self.now.table.shared.table_id.slots self.now.width (view_of pen.old.seat) bank.begin }
        requires index { index < self.now.width }
        requires named { N.named ≡ Some index }
        ensures book { pen.new.seat.table_id ≡ pen.old.seat.table_id }
        ensures drafted { view_of pen.new.seat ≡ drafted_view index value (view_of pen.old.seat) }
        ensures slots { slots_of pen.new.seat ≡ slots_of pen.old.seat }
    {
        let place = bank.begin + index as usize;
        self.table
            .shared
            .store::<DraftWord<N>>(&mut pen.seat, place, value);
    }

    /// One store of a word to the spare bank that `spare_bank` gave. The pen has it drafted.
    ///
    /// The pen knows the front's generation: it holds the registry, which is part 0, and has looked at the front since it
    /// took it.
    #[inline]
    pub fn spare_in(&self, pen: &mut Pen<M>, bank: SpareBank, index: u32, value: u64)
        requires book { pen.old.seat.table_id ≡ self.now.table.shared.table_id }
        requires knows { is_some (view_of pen.old.seat).knows ≡ true }
        requires bank { IsSpareBank self.now.table.shared.table_id.slots self.now.width (view_of pen.old.seat) bank.begin }
        requires index { index < self.now.width }
        ensures book { pen.new.seat.table_id ≡ pen.old.seat.table_id }
        ensures drafted { view_of pen.new.seat ≡ drafted_view index value (view_of pen.old.seat) }
        ensures slots { slots_of pen.new.seat ≡ slots_of pen.old.seat }
    {
        self.spare_named::<Brand>(pen, bank, index, value)
    }

    /// One store of a word to the spare bank. The pen has it drafted.
    ///
    /// The pen knows the front's generation: it holds the registry, which is part 0, and has looked at the front since it
    /// took it.
    #[inline]
    pub fn spare(&self, pen: &mut Pen<M>, index: u32, value: u64)
        requires book { pen.old.seat.table_id ≡ self.now.table.shared.table_id }
        requires knows { is_some (view_of pen.old.seat).knows ≡ true }
        requires index { index < self.now.width }
        ensures book { pen.new.seat.table_id ≡ pen.old.seat.table_id }
        ensures drafted { view_of pen.new.seat ≡ drafted_view index value (view_of pen.old.seat) }
        ensures slots { slots_of pen.new.seat ≡ slots_of pen.old.seat }
    {
        let bank = self.spare_bank(pen);
        self.spare_in(pen, bank, index, value)
    }
}
