ghost use Rattle.std.specs.Prelude.{◌≡◌, ◌≢◌, ℕ, ◌+◌, ◌<◌, ◌≤◌, ◌^◌, ◌++◌, [], length, true, false, IfOk, IfSome, replicate, None, Some, vec_capacity};
ghost use Rattle.turn_book.specs.Histories.{IsPrefix, is_in};
ghost use Rattle.turn_book.specs.Rule.{workings};
ghost use Rattle.turn_book.specs.Banks.{NotesAreRight};
ghost use Rattle.turn_book.specs.Views.{view_of, slots_of, first_view, split_view, made_view, with_end, IsLegal, HoldsRight, HasJustEnded, HasOnlyMade, AddsNoneOfOwn, SameTurns, SameWords};
ghost use Rattle.turn_book.specs.Ending.{EndsRight, AllEnded};

use crate::machine::{Machine, Naming};
use crate::pen::Pen;
use crate::plays::{Cut, CutFor, Glue, Kept, Learn, Origin};
use crate::unload::unload;
use crate::view::{Front, View};
use atomic_table::Table;
use std::alloc::{AllocError, Global};
use std::marker::Brand;
use std::snapshot::Snapshot;

/// Want of memory.
#[derive(Clone, Copy, Debug, PartialEq, Eq)]
pub struct NoMemory;

/// Whether a turn was taken.
#[derive(Clone, Copy, Debug, PartialEq, Eq)]
pub enum Took {
    /// The turn was free, and the pen holds the part.
    Got,
    /// Another pen holds the part.
    Found,
}

/// Parts behind turns, and the front of one history.
#[derive(Drop)]
pub struct TurnBook<M: Machine> {
    pub(crate) table: Table<
        M::Part,
        View<M::State, M::Entry, M::Part>,
        Origin<M::Part>,
        Kept<M>,
        Global,
    >,
    // room for the parts when the book is closed
    room: Vec<M::Part>,
    // the table's word at which the first bank begins
    pub(crate) banks: usize,
    // how many published words there are
    pub(crate) width: usize,
    ghost spare: { (room.items ≡ []) × (table.shared.table_id.slots ≤ vec_capacity room) },
    pub ghost begins: { banks ≡ table.shared.table_id.slots + 1 },
    pub ghost wide: { table.shared.table_id.words ≡ table.shared.table_id.slots + 1 + width + width },
    pub ghost fits: { table.shared.table_id.words < 2 ^ 64 },
    pub ghost bank_width: { width ≡ length table.shared.key.words.value.items },
}

// The words of a new book: the front, a turn for each part, and two banks.
fn first_words(alloc: Global, parts: usize, words: &[u64]) -> Result<Vec<u64>, AllocError>
    requires { parts + 1 < 2 ^ 64 }
    ensures { IfOk result (λ row. row.items ≡ replicate (parts + 1) 0 ++ (words.now ++ words.now)) }
{
    let mut row = vec![in alloc; 0u64; parts + 1]?;
    row.extend_from_slice(words)?;
    row.extend_from_slice(words)?;
    Ok(row)
}

impl<M: Machine> TurnBook<M> {
    /// A book over these parts, with an empty history, and its first pen, which has no caller.
    ///
    /// The parts and the published words are those of one of the machine's opening states.
    pub fn make(
        alloc: Global,
        parts: Vec<M::Part>,
        words: Vec<u64>,
    ) -> Result<(TurnBook<M>, Pen<M>), NoMemory>
        requires opens { M.opens (M.opening parts.items) }
        requires parts { M.parts (M.opening parts.items) ≡ parts.items }
        requires words { M.published (M.opening parts.items) ≡ words.items }
        ensures book { IfOk result (λ made. made.1.seat.table_id ≡ made.0.table.shared.table_id) }
        ensures opening { IfOk result (λ made. made.0.table.shared.key.parts.value.items ≡ parts.items) }
        ensures count { IfOk result (λ made. made.0.table.shared.table_id.slots ≡ length parts.items) }
        ensures width { IfOk result (λ made. made.0.width ≡ length words.items) }
        ensures pen { IfOk result (λ made. view_of made.1.seat ≡ first_view (M.opening parts.items)) }
    {
        let key = Origin {
            parts: Snapshot::of(&parts),
            words: Snapshot::of(&words),
        };
        let Ok(room) = Vec::with_capacity(alloc, parts.len()) else {
            return Err(NoMemory);
        };
        let count = parts.len();
        let Ok(row) = first_words(alloc, count, words.as_slice()) else {
            return Err(NoMemory);
        };
        let Ok((table, seat)) = Table::new(alloc, row.as_slice(), parts, &key) else {
            return Err(NoMemory);
        };
        let book = TurnBook {
            table,
            room,
            banks: count + 1,
            width: words.len(),
        };
        let pen = Pen {
            seat,
            looked: 0,
            known: 0,
        };
        Ok((book, pen))
    }

    /// A pen for the caller that N names, split from the desk's.
    fn split_for<N: Naming>(&self, pen: &mut Pen<M>, caller: u32) -> Pen<M>
        requires book { pen.old.seat.table_id ≡ self.now.table.shared.table_id }
        requires desk { (view_of pen.old.seat).is_desk ≡ true }
        requires fresh { is_in caller (view_of pen.old.seat).made ≡ false }
        requires named { N.named ≡ Some caller }
        ensures book { (pen.new.seat.table_id ≡ pen.old.seat.table_id) × (result.seat.table_id ≡ pen.old.seat.table_id) }
        ensures kept { view_of pen.new.seat ≡ made_view (Some caller) (view_of pen.old.seat) }
        ensures slots { slots_of pen.new.seat ≡ slots_of pen.old.seat }
        ensures pen { view_of result.seat ≡ split_view (Some caller) (view_of pen.old.seat) }
    {
        let seat = self.table.shared.split_seat::<CutFor<N>>(&mut pen.seat);
        Pen {
            seat,
            looked: 0,
            known: 0,
        }
    }

    /// A pen that has seen the same, for that caller or for none. It holds nothing.
    ///
    /// A caller's pen is split from that of `make`, and once for each caller.
    pub fn split(&self, pen: &mut Pen<M>, caller: Option<u32>) -> Pen<M>
        requires book { pen.old.seat.table_id ≡ self.now.table.shared.table_id }
        requires desk { IfSome caller (λ c. (view_of pen.old.seat).is_desk ≡ true) }
        requires fresh { IfSome caller (λ c. is_in c (view_of pen.old.seat).made ≡ false) }
        ensures book { (pen.new.seat.table_id ≡ pen.old.seat.table_id) × (result.seat.table_id ≡ pen.old.seat.table_id) }
        ensures kept { view_of pen.new.seat ≡ made_view caller (view_of pen.old.seat) }
        ensures slots { slots_of pen.new.seat ≡ slots_of pen.old.seat }
        ensures pen { view_of result.seat ≡ split_view caller (view_of pen.old.seat) }
    {
        match caller {
            Some(c) => self.split_for::<Brand>(pen, c),
            None => {
                let seat = self.table.shared.split_seat::<Cut>(&mut pen.seat);
                Pen {
                    seat,
                    looked: 0,
                    known: 0,
                }
            }
        }
    }

    /// The pen gets what the other has seen, and of the other's caller, where it has one, just its own entries.
    ///
    /// The other holds no part and is not the pen of `make`; where it has a caller, the pen is that of `make`.
    pub fn join(&self, pen: &mut Pen<M>, other: Pen<M>)
        requires books { (pen.old.seat.table_id ≡ self.now.table.shared.table_id) × (other.seat.table_id ≡ self.now.table.shared.table_id) }
        requires other { (view_of other.seat).is_desk ≡ false }
        requires empty { (view_of other.seat).held ≡ [] }
        requires desk { (view_of other.seat).caller ≢ None → (view_of pen.old.seat).is_desk ≡ true }
        ensures book { pen.new.seat.table_id ≡ pen.old.seat.table_id }
        ensures seen { IsPrefix (view_of pen.old.seat).seen (view_of pen.new.seat).seen }
        ensures learnt { IsPrefix (view_of other.seat).seen (view_of pen.new.seat).seen }
        ensures legal { IsLegal M.opens M.steps (view_of pen.new.seat) }
        ensures own { AddsNoneOfOwn M.caller (view_of pen.old.seat) (view_of pen.new.seat) }
        ensures holds { HoldsRight M.parts (view_of pen.new.seat) }
        ensures list { (view_of pen.new.seat).ended
            ≡ with_end M.caller (view_of other.seat).caller (view_of other.seat).seen (view_of pen.old.seat).ended }
        ensures ended { HasJustEnded M.caller (view_of pen.new.seat) }
        ensures made { HasOnlyMade M.caller (view_of pen.new.seat) }
        ensures place { ((view_of pen.new.seat).begin ≡ (view_of pen.old.seat).begin)
            × ((view_of pen.new.seat).caller ≡ (view_of pen.old.seat).caller)
            × ((view_of pen.new.seat).is_desk ≡ (view_of pen.old.seat).is_desk)
            × ((view_of pen.new.seat).made ≡ (view_of pen.old.seat).made) }
        ensures fronts { ((view_of pen.new.seat).looks ≡ (view_of pen.old.seat).looks)
            × ((view_of pen.new.seat).misses ≡ (view_of pen.old.seat).misses) }
        ensures turns { SameTurns (view_of pen.old.seat) (view_of pen.new.seat) }
        ensures right { NotesAreRight M.published M.is_publication (view_of pen.new.seat) }
        ensures words { SameWords (view_of pen.old.seat) (view_of pen.new.seat) }
        ensures slots { slots_of pen.new.seat ≡ slots_of pen.old.seat }
    {
        let Pen { seat, .. } = other;
        self.table.shared.join_seat::<Glue<M>>(&mut pen.seat, seat);
        self.table.shared.load::<Learn<M>>(&mut pen.seat, 0);
    }

    /// The parts that the history leaves, in the order of `make`, and its length and number of publications.
    ///
    /// The pen is that of `make`, and each pen that was split for a caller was joined into it.
    pub fn close(self, pen: Pen<M>) -> (Vec<M::Part>, Front)
        requires book { pen.seat.table_id ≡ self.table.shared.table_id }
        requires desk { (view_of pen.seat).is_desk ≡ true }
        requires all { AllEnded (view_of pen.seat) }
        ensures ends { EndsRight (workings M.opens M.steps M.parts M.published M.caller M.is_publication)
            (M.opening self.table.shared.key.parts.value.items) (view_of pen.seat) result.0.items result.1 }
    {
        let TurnBook {
            table,
            mut room,
            ..
        } = self;
        let Pen { seat, .. } = pen;
        let mut closed = table.close_with(seat);
        let word = closed.word(0);
        unload(&mut closed, &mut room);
        closed.free();
        (room, Front::of_word(word))
    }
}
