ghost use Rattle.std.specs.Prelude.{◌≡◌, ℕ, List, length, Bool, false, slice_get, Option, None};
ghost use Rattle.turn_book.specs.Laws.{DependsOnReach, IsBounded};

use std::marker::Brand;

/// What a book keeps: parts behind turns, and a history of entries that change them.
///
/// A state and an entry stand in contracts alone.
pub trait Machine {
    /// One part, as a turn guards it.
    type Part: Drop;
    /// One entry of the history. No value of it is stored.
    type Entry;
    /// What the machine is between two entries. No value of it is made.
    type State;

    // the opening states
    ghost opens: { Self.State → Type 0 };

    // the opening state that has these parts
    ghost opening: { List Self.Part → Self.State };

    // the entry is a step from the first state to the second
    ghost steps: { Self.State → Self.Entry → Self.State → Type 0 };

    ghost parts: { Self.State → List Self.Part };

    // the published words of a state
    ghost published: { Self.State → List ℕ };

    // who makes the entry
    ghost caller: { Self.Entry → ℕ };

    ghost is_publication: { Self.Entry → Bool };

    // the parts that the entry depends on and may change
    ghost reach: { Self.State → Self.Entry → ℕ → Bool };

    // the state's limits leave room for the entry
    ghost has_room: { Self.State → Self.Entry → Type 0 };

    // an entry leads from a state to one state at most
    ghost one_step: { (s : Self.State) (e : Self.Entry) (t u : Self.State) → steps s e t → steps s e u → t ≡ u };

    // a step leaves the number of parts
    ghost count_stays: { (s : Self.State) (e : Self.Entry) (t : Self.State) → steps s e t → length (parts t) ≡ length (parts s) };

    // frame law: a step changes no part outside its reach
    ghost unreached_stays: { (s : Self.State) (e : Self.Entry) (t : Self.State) (p : ℕ) → steps s e t → reach s e p ≡ false
        → slice_get (parts t) p ≡ slice_get (parts s) p };

    // frame law: a step depends on its reach and the published words alone
    ghost depends_on_reach: { DependsOnReach opens steps parts published reach has_room };

    // a step that is no publication leaves the published words
    ghost words_stay: { (s : Self.State) (e : Self.Entry) (t : Self.State) → steps s e t → is_publication e ≡ false
        → published t ≡ published s };

    // a step leaves the number of published words
    ghost width_stays: { (s : Self.State) (e : Self.Entry) (t : Self.State) → steps s e t → length (published t) ≡ length (published s) };

    // no history has more than 2^40 entries or 2^20 publications
    ghost bounded: { IsBounded opens steps is_publication };
}

/// Names one entry, in contracts alone. A caller passes std's `Brand` for it.
pub trait Entering<E> {
    ghost entry: { Option E };
}

impl<E> Entering<E> for Brand {
    ghost entry = { None };
}

/// Names a caller, or the index of a published word, in contracts alone.
pub trait Naming {
    ghost named: { Option ℕ };
}

impl Naming for Brand {
    ghost named = { None };
}
