// A book over one registry, and entries in it.
ghost use Rattle.std.specs.Prelude.{◌≡◌, ℕ, ◌<◌, ◌++◌, ◌∷◌, [], length, true, false, ◌&&◌, nat_lt, is_some, IfOk, IfErr, IfSome, Some, None, count_by};
ghost use Rattle.std.specs.List.{list_all};
ghost use Rattle.irqfd_set.specs.declared.irqfds.Irqfd.{Irqfd as IrqfdRow};
ghost use Rattle.ack_notifiers.specs.declared.watches.Watch.{Watch as WatchRow};
ghost use Rattle.turn_book.specs.Hands.{held_at};
ghost use Rattle.turn_book.specs.Banks.{HasRegistry};
ghost use Rattle.turn_book.specs.Views.{view_of, slots_of, IsLegal, SamePlace, AfterEntry};
ghost use Rattle.turn_book.specs.Plays.{IsLastLook, LeadsOn, HoldsReach, HasDrafted};
ghost use Rattle.route_bank.specs.Indices.{AreInRange};
ghost use Rattle.book_rows.specs.Putting.{IsNew, Changed, caller_of, is_put, put_reach, words_of};

use crate::bank_machine::{Change, Registry, Routing, TICK};
use ack_notifiers::Watch;
use irqfd_set::Irqfd;
use route_bank::{publish, words_of};
use std::alloc::Global;
use std::marker::Brand;
use turn_book::{Entering, Front, NoMemory, Pen, TurnBook};

/// The most entries that a history has.
const MOST: u64 = 1 << 40;

/// The most publications that a history has.
const MOST_PUTS: u32 = 1 << 20;

/// Why an entry was not made.
#[derive(Clone, Copy, Debug, PartialEq, Eq)]
pub enum Refused {
    /// The history is as long as it may be, or the registry is none that can be published.
    Full,
    /// This front was found.
    Lost(Front),
}

// Whether irqfds have triggers and GSIs that there are.
fn irqfds_fit(rows: &[Irqfd]) -> bool
    ensures { result ≡ list_all (λ (row : IrqfdRow). nat_lt row.trigger 256 && nat_lt row.gsi 4096) rows.now }
{
    rows.iter().all(|row| row.trigger < 256 && row.gsi < 4096)
}

// Whether watches have GSIs that there are.
fn watches_fit(rows: &[Watch]) -> bool
    ensures { result ≡ list_all (λ (row : WatchRow). nat_lt row.gsi 4096) rows.now }
{
    rows.iter().all(|row| row.gsi < 4096)
}

// Whether each number of the registry is in its range.
fn fits(registry: &Registry) -> bool
    ensures { result ≡ true → AreInRange registry.now.irqfds registry.now.watches 2 }
{
    irqfds_fit(registry.irqfds.rows()) && watches_fit(registry.watches.rows())
}

/// A book over a registry, and the desk's pen.
pub fn opened(
    alloc: Global,
    registry: Registry,
) -> Result<(TurnBook<Routing>, Pen<Routing>), NoMemory>
    ensures book { IfOk result (λ made. made.1.seat.table_id ≡ made.0.table.shared.table_id) }
    ensures count { IfOk result (λ made. made.0.table.shared.table_id.slots ≡ 1) }
    ensures width { IfOk result (λ made. made.0.width ≡ 4392) }
    ensures desk { IfOk result (λ made. ((view_of made.1.seat).is_desk ≡ true) × ((view_of made.1.seat).caller ≡ None) × ((view_of made.1.seat).made ≡ []) × ((view_of made.1.seat).ended ≡ []) × ((view_of made.1.seat).held ≡ [])) }
{
    if !fits(&registry) {
        return Err(NoMemory);
    }
    let Ok(words) = words_of(
        alloc,
        &registry.table,
        &registry.irqfds,
        &registry.watches,
        TICK,
    ) else {
        return Err(NoMemory);
    };
    let mut parts = Vec::new(alloc);
    if parts.push(registry).is_err() {
        return Err(NoMemory);
    }
    match TurnBook::<Routing>::make(alloc, parts, words) {
        Ok(made) => Ok(made),
        Err(fault) => Err(fault),
    }
}

/// One exchange of the front by the entry that N names.
fn enter<N: Entering<Change>>(
    book: &TurnBook<Routing>,
    pen: &mut Pen<Routing>,
    had: Front,
    change: &Change,
    publish: bool,
) -> Result<u64, Front>
    requires book { pen.old.seat.table_id ≡ book.now.table.shared.table_id }
    requires named { N.entry ≡ Some change.now }
    requires last_look { IsLastLook had (view_of pen.old.seat) }
    requires step { LeadsOn Changed had (view_of pen.old.seat) change.now }
    requires caller { (view_of pen.old.seat).caller ≡ Some (caller_of change.now) }
    requires reach { HoldsReach (λ s e. put_reach e) had (view_of pen.old.seat) change.now }
    requires publish { publish ≡ is_put change.now }
    requires registry { publish ≡ true → HasRegistry (view_of pen.old.seat) }
    requires drafted { publish ≡ true → HasDrafted Changed words_of had (view_of pen.old.seat) change.now }
    ensures book { pen.new.seat.table_id ≡ pen.old.seat.table_id }
    ensures at { IfOk result (λ at. at ≡ length (view_of pen.old.seat).seen) }
    ensures held { (q : ℕ) → is_some (held_at q (view_of pen.new.seat).held) ≡ is_some (held_at q (view_of pen.old.seat).held) }
    ensures place { SamePlace (view_of pen.old.seat) (view_of pen.new.seat) }
{
    book.commit::<N>(pen, had, publish)
}

/// One exchange of the front by this entry.
fn add(
    book: &TurnBook<Routing>,
    pen: &mut Pen<Routing>,
    had: Front,
    change: &Change,
    publish: bool,
) -> Result<u64, Front>
    requires book { pen.old.seat.table_id ≡ book.now.table.shared.table_id }
    requires last_look { IsLastLook had (view_of pen.old.seat) }
    requires step { LeadsOn Changed had (view_of pen.old.seat) change.now }
    requires caller { (view_of pen.old.seat).caller ≡ Some (caller_of change.now) }
    requires reach { HoldsReach (λ s e. put_reach e) had (view_of pen.old.seat) change.now }
    requires publish { publish ≡ is_put change.now }
    requires registry { publish ≡ true → HasRegistry (view_of pen.old.seat) }
    requires drafted { publish ≡ true → HasDrafted Changed words_of had (view_of pen.old.seat) change.now }
    ensures book { pen.new.seat.table_id ≡ pen.old.seat.table_id }
    ensures at { IfOk result (λ at. at ≡ length (view_of pen.old.seat).seen) }
    ensures held { (q : ℕ) → is_some (held_at q (view_of pen.new.seat).held) ≡ is_some (held_at q (view_of pen.old.seat).held) }
    ensures place { SamePlace (view_of pen.old.seat) (view_of pen.new.seat) }
{
    enter::<Brand>(book, pen, had, change, publish)
}

/// Publishes the registry of a put with one exchange of the front, and answers the entry's place. The pen holds the registry.
pub fn put_once(
    book: &TurnBook<Routing>,
    pen: &mut Pen<Routing>,
    had: Front,
    change: &Change,
) -> Result<u64, Refused>
    requires book { pen.old.seat.table_id ≡ book.now.table.shared.table_id }
    requires width { book.now.width ≡ 4392 }
    requires last_look { IsLastLook had (view_of pen.old.seat) }
    requires generation { had.generation ≡ count_by is_put (view_of pen.old.seat).seen }
    requires legal { IsLegal IsNew Changed (view_of pen.old.seat) }
    requires caller { (view_of pen.old.seat).caller ≡ Some (caller_of change.now) }
    requires registry { HasRegistry (view_of pen.old.seat) }
    requires knows { is_some (view_of pen.old.seat).knows ≡ true }
    ensures book { pen.new.seat.table_id ≡ pen.old.seat.table_id }
    ensures registry { HasRegistry (view_of pen.new.seat) }
    ensures place { SamePlace (view_of pen.old.seat) (view_of pen.new.seat) }
{
    if had.length >= MOST {
        return Err(Refused::Full);
    }
    if had.generation >= MOST_PUTS {
        return Err(Refused::Full);
    }
    match change {
        Change::Put(_, registry) => {
            if !fits(registry) {
                return Err(Refused::Full);
            }
            publish(
                book,
                pen,
                &registry.table,
                &registry.irqfds,
                &registry.watches,
                TICK,
            );
            match add(book, pen, had, change, true) {
                Ok(at) => Ok(at),
                Err(now) => Err(Refused::Lost(now)),
            }
        }
        Change::Pass(_) => Err(Refused::Full),
    }
}

/// Looks, and publishes the registry of a put. The pen holds the registry.
pub fn put(
    book: &TurnBook<Routing>,
    pen: &mut Pen<Routing>,
    change: &Change,
) -> Result<u64, Refused>
    requires book { pen.old.seat.table_id ≡ book.now.table.shared.table_id }
    requires width { book.now.width ≡ 4392 }
    requires caller { (view_of pen.old.seat).caller ≡ Some (caller_of change.now) }
    requires registry { HasRegistry (view_of pen.old.seat) }
    ensures book { pen.new.seat.table_id ≡ pen.old.seat.table_id }
    ensures registry { HasRegistry (view_of pen.new.seat) }
    ensures place { SamePlace (view_of pen.old.seat) (view_of pen.new.seat) }
{
    let had = book.front(pen);
    put_once(book, pen, had, change)
}

// Makes an entry that changes nothing, with one exchange of the front.
fn pass_once(
    book: &TurnBook<Routing>,
    pen: &mut Pen<Routing>,
    had: Front,
    caller: u32,
) -> Result<u64, Refused>
    requires book { pen.old.seat.table_id ≡ book.now.table.shared.table_id }
    requires last_look { IsLastLook had (view_of pen.old.seat) }
    requires legal { IsLegal IsNew Changed (view_of pen.old.seat) }
    requires caller { (view_of pen.old.seat).caller ≡ Some caller }
    ensures book { pen.new.seat.table_id ≡ pen.old.seat.table_id }
    ensures place { SamePlace (view_of pen.old.seat) (view_of pen.new.seat) }
{
    if had.length >= MOST {
        return Err(Refused::Full);
    }
    let change = Change::Pass(caller);
    match add(book, pen, had, &change, false) {
        Ok(at) => Ok(at),
        Err(now) => Err(Refused::Lost(now)),
    }
}

/// Looks, and makes an entry that changes nothing.
pub fn pass(book: &TurnBook<Routing>, pen: &mut Pen<Routing>, caller: u32) -> Result<u64, Refused>
    requires book { pen.old.seat.table_id ≡ book.now.table.shared.table_id }
    requires caller { (view_of pen.old.seat).caller ≡ Some caller }
    ensures book { pen.new.seat.table_id ≡ pen.old.seat.table_id }
    ensures place { SamePlace (view_of pen.old.seat) (view_of pen.new.seat) }
{
    let had = book.front(pen);
    pass_once(book, pen, had, caller)
}
