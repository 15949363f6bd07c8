use crate::machine::{Entering, Machine, Naming};
use crate::view::View;
use atomic_table::{Join, Play, Split, TableRule};
use std::marker::PhantomData;
use std::snapshot::Snapshot;

/// The parts and the published words that a book was made with. It has no bytes.
#[derive(Drop)]
pub struct Origin<P> {
    pub parts: Snapshot<Vec<P>>,
    pub words: Snapshot<Vec<u64>>,
}

/// The rule of the book's table.
pub struct Kept<M> {
    machine: PhantomData<M>,
}

impl<M: Machine> TableRule<M::Part, View<M::State, M::Entry, M::Part>, Origin<M::Part>>
    for Kept<M> {
    ghost use Rattle.std.specs.Prelude.{length};
    ghost use Rattle.turn_book.specs.Rule.{IsKept, workings};
    ghost use Rattle.turn_book.specs.Views.{first_view};

    ghost holds = { λ key.
        IsKept (workings M.opens M.steps M.parts M.published M.caller M.is_publication) (M.opening key.parts.value.items)
        (length key.words.value.items) };

    ghost first = { λ key. first_view (M.opening key.parts.value.items) };
}

/// The front is loaded.
pub struct Look<M> {
    machine: PhantomData<M>,
}

impl<M: Machine> Play<M::Part, View<M::State, M::Entry, M::Part>> for Look<M> {
    ghost use Rattle.turn_book.specs.Rule.{workings};
    ghost use Rattle.turn_book.specs.Plays.{Looks};

    ghost then = { Looks (workings M.opens M.steps M.parts M.published M.caller M.is_publication) };
}

/// The front is loaded at the end of a join.
pub struct Learn<M> {
    machine: PhantomData<M>,
}

impl<M: Machine> Play<M::Part, View<M::State, M::Entry, M::Part>> for Learn<M> {
    ghost use Rattle.turn_book.specs.Rule.{workings};
    ghost use Rattle.turn_book.specs.Plays.{Learns};

    ghost then = { Learns (workings M.opens M.steps M.parts M.published M.caller M.is_publication) };
}

/// The front is exchanged for one entry more, the one that N names.
pub struct Commit<M, N> {
    machine: PhantomData<(M, N)>,
}

impl<M: Machine, N: Entering<M::Entry>> Play<M::Part, View<M::State, M::Entry, M::Part>>
    for Commit<M, N> {
    ghost use Rattle.turn_book.specs.Rule.{workings};
    ghost use Rattle.turn_book.specs.Plays.{Commits};

    ghost then = { Commits (workings M.opens M.steps M.parts M.published M.caller M.is_publication) N.entry };
}

/// A turn is swapped to 1.
pub struct Take<M> {
    machine: PhantomData<M>,
}

impl<M: Machine> Play<M::Part, View<M::State, M::Entry, M::Part>> for Take<M> {
    ghost use Rattle.std.specs.Prelude.{◌-◌};
    ghost use Rattle.turn_book.specs.Rule.{workings};
    ghost use Rattle.turn_book.specs.Plays.{Takes};

    ghost then = { λ st. Takes (workings M.opens M.steps M.parts M.published M.caller M.is_publication) (st.word - 1) st };
}

/// 0 is stored to the turn of a part in hand.
pub struct Give<M> {
    machine: PhantomData<M>,
}

impl<M: Machine> Play<M::Part, View<M::State, M::Entry, M::Part>> for Give<M> {
    ghost use Rattle.std.specs.Prelude.{◌-◌};
    ghost use Rattle.turn_book.specs.Plays.{Gives};

    ghost then = { λ st. Gives (st.word - 1) st };
}

/// The published word of the index that N names is loaded, from the bank of the last look's generation.
pub struct ReadWord<N> {
    naming: PhantomData<N>,
}

impl<S, E, P, N: Naming> Play<P, View<S, E, P>> for ReadWord<N> {
    ghost use Rattle.turn_book.specs.Plays.{ReadsWord};

    ghost then = { ReadsWord N.named };
}

/// The word of the index that N names is stored to the spare bank.
pub struct DraftWord<N> {
    naming: PhantomData<N>,
}

impl<S, E, P, N: Naming> Play<P, View<S, E, P>> for DraftWord<N> {
    ghost use Rattle.turn_book.specs.Plays.{DraftsWord};

    ghost then = { DraftsWord N.named };
}

/// A seat for nobody is split off.
pub struct Cut;

impl<S, E, P> Split<View<S, E, P>> for Cut {
    ghost use Rattle.std.specs.Prelude.{None};
    ghost use Rattle.turn_book.specs.Views.{split_view};

    ghost left = { λ v. v };

    ghost right = { split_view None };
}

/// A seat for the caller that N names is split off the desk's.
pub struct CutFor<N> {
    naming: PhantomData<N>,
}

impl<S, E, P, N: Naming> Split<View<S, E, P>> for CutFor<N> {
    ghost use Rattle.turn_book.specs.Views.{made_view, split_view};

    ghost left = { made_view N.named };

    ghost right = { split_view N.named };
}

/// A seat takes in another, with its caller where it has one.
pub struct Glue<M> {
    machine: PhantomData<M>,
}

impl<M: Machine> Join<View<M::State, M::Entry, M::Part>> for Glue<M> {
    ghost use Rattle.turn_book.specs.Views.{joined_view, spent_view};

    ghost both = { joined_view M.caller };

    ghost spent = { spent_view };
}
