ghost use Rattle.std.specs.Prelude.{◌≡◌, ◌+◌, ◌%◌, ◌^◌};
ghost use Rattle.turn_book.specs.Fronts.{front_of, word_of, rise_of};

use std::collections::LinkedList;

/// The front word's content: how many publications the history has, and how many entries.
#[derive(Clone, Copy, Debug, PartialEq, Eq)]
pub struct Front {
    /// The number of publications, at most 2^20.
    pub generation: u32,
    /// The number of entries, at most 2^40.
    pub length: u64,
}

// The front word is the generation times this, and the length.
const LENGTHS: u64 = 1 << 41;

impl Front {
    /// The content of a front word.
    #[inline]
    pub(crate) fn of_word(word: u64) -> Front
        ensures { result ≡ front_of word }
    {
        Front {
            generation: (word / LENGTHS) as u32,
            length: word % LENGTHS,
        }
    }

    /// The front word with this content, which fits where the front keeps a book's limits.
    #[inline]
    pub(crate) fn word(&self) -> u64
        ensures { result ≡ word_of self.now % 2 ^ 64 }
    {
        u64::from(self.generation)
            .wrapping_mul(LENGTHS)
            .wrapping_add(self.length)
    }
}

/// The front word after one entry more.
#[inline]
pub(crate) fn raised(word: u64, publish: bool) -> u64
    ensures { result ≡ (word + rise_of publish) % 2 ^ 64 }
{
    if publish {
        word.wrapping_add(LENGTHS + 1)
    } else {
        word.wrapping_add(1)
    }
}

/// An exchange of the front that was lost: the front expected, and the front found.
pub struct Miss {
    pub had: Front,
    pub found: Front,
}

/// A part that a seat holds, with the value that the history gives it.
pub struct Held<P> {
    pub part: u32,
    pub value: P,
}

/// A caller whose pen was joined, with its entries.
pub struct Ended<E> {
    pub caller: u32,
    pub entries: LinkedList<E>,
}

/// A published word that was read, and the generation of the look before it.
pub struct Note {
    pub index: u32,
    pub value: u64,
    pub generation: u32,
}

/// A word that was written to the spare bank.
pub struct Draft {
    pub index: u32,
    pub value: u64,
}

/// What a seat at the book's table knows. It stands in contracts alone: no value of it is made.
pub struct View<S, E, P> {
    /// The opening state, which all views share.
    pub begin: Option<S>,
    /// The state that the list `seen` leaves.
    pub now: Option<S>,
    /// The seat was joined into another.
    pub spent: bool,
    /// The pen of `make`.
    pub is_desk: bool,
    /// The caller whose entries it may commit.
    pub caller: Option<u32>,
    /// The entries that the seat's own steps have taught it.
    pub seen: LinkedList<E>,
    /// Its list after its last own entry, or as it was before the last join.
    pub before: LinkedList<E>,
    /// The list of the seat that was joined last.
    pub heard: LinkedList<E>,
    /// The fronts that its loads found.
    pub looks: LinkedList<Front>,
    /// The exchanges of the front that it lost.
    pub misses: LinkedList<Miss>,
    /// The parts that it holds.
    pub held: LinkedList<Held<P>>,
    /// The parts whose turn it has ever won.
    pub took: LinkedList<u32>,
    /// The parts whose turn it found taken.
    pub found: LinkedList<u32>,
    /// The published words that it read.
    pub notes: LinkedList<Note>,
    /// The words that it wrote to the spare bank since it took the registry or last published.
    pub drafts: LinkedList<Draft>,
    /// The front's generation, where it looked since it took the registry.
    pub knows: Option<u32>,
    /// The callers for whom pens were split from the desk's.
    pub made: LinkedList<u32>,
    /// The callers whose pens were joined into the desk's.
    pub ended: LinkedList<Ended<E>>,
}
