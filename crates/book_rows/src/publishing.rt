// Words that are published by one pen and read by another.
ghost use Rattle.std.specs.Prelude.{◌≡◌, ◌≢◌, ℕ, ◌+◌, ◌<◌, ◌^◌, ◌++◌, ◌∷◌, [], length, true, false, is_some, IfOk, IfErr, IfSome, Some, None, count_by};
ghost use Rattle.turn_book.specs.Histories.{last_of};
ghost use Rattle.turn_book.specs.Hands.{held_at, slot_at};
ghost use Rattle.turn_book.specs.Banks.{HasRegistry};
ghost use Rattle.turn_book.specs.Views.{view_of, slots_of, IsLegal, SamePlace, AfterEntry};
ghost use Rattle.turn_book.specs.Plays.{IsLastLook, LeadsOn, HoldsReach, HasDrafted};
ghost use Rattle.book_rows.specs.Posting.{IsNew, Posted, poster_of, is_post, post_reach, words_of, HasNewest};

use crate::asking::{MOST, Refused};
use crate::posting::{Post, Posting};
use std::alloc::Global;
use std::marker::Brand;
use turn_book::{Entering, Front, NoMemory, Pen, Took, TurnBook, part_of};

/// The most publications that a history has.
const MOST_POSTS: u32 = 1 << 20;

/// A book over one number, and the desk's pen.
pub(crate) fn posted(
    alloc: Global,
    number: u64,
) -> Result<(TurnBook<Posting>, Pen<Posting>), NoMemory>
    requires { number < 2 ^ 63 }
    ensures book { IfOk result (λ made. made.1.seat.table_id ≡ made.0.table.shared.table_id) }
    ensures count { IfOk result (λ made. made.0.table.shared.table_id.slots ≡ 1) }
    ensures width { IfOk result (λ made. made.0.width ≡ 2) }
    ensures desk { IfOk result (λ made. ((view_of made.1.seat).is_desk ≡ true) × ((view_of made.1.seat).caller ≡ None) × ((view_of made.1.seat).made ≡ []) × ((view_of made.1.seat).ended ≡ []) × ((view_of made.1.seat).held ≡ [])) }
{
    let Ok(parts) = vec![in alloc; number] else {
        return Err(NoMemory);
    };
    let Ok(words) = vec![in alloc; number, number + 1] else {
        return Err(NoMemory);
    };
    TurnBook::<Posting>::make(alloc, parts, words)
}

/// One exchange of the front by the entry that N names.
fn enter<N: Entering<Post>>(
    book: &TurnBook<Posting>,
    pen: &mut Pen<Posting>,
    had: Front,
    post: Post,
    publish: bool,
) -> Result<u64, Front>
    requires book { pen.old.seat.table_id ≡ book.now.table.shared.table_id }
    requires named { N.entry ≡ Some post }
    requires last_look { IsLastLook had (view_of pen.old.seat) }
    requires step { LeadsOn Posted had (view_of pen.old.seat) post }
    requires caller { (view_of pen.old.seat).caller ≡ Some (poster_of post) }
    requires reach { HoldsReach (λ s e. post_reach e) had (view_of pen.old.seat) post }
    requires publish { publish ≡ is_post post }
    requires registry { publish ≡ true → HasRegistry (view_of pen.old.seat) }
    requires drafted { publish ≡ true → HasDrafted Posted words_of had (view_of pen.old.seat) post }
    ensures book { pen.new.seat.table_id ≡ pen.old.seat.table_id }
    ensures at { IfOk result (λ at. at ≡ length (view_of pen.old.seat).seen) }
    ensures entered { IfOk result (λ at. (view_of pen.new.seat).seen ≡ (view_of pen.old.seat).seen ++ post ∷ []) }
    ensures published { IfOk result (λ at. AfterEntry publish (view_of pen.old.seat) (view_of pen.new.seat)) }
    ensures held { (q : ℕ) → is_some (held_at q (view_of pen.new.seat).held) ≡ is_some (held_at q (view_of pen.old.seat).held) }
    ensures place { SamePlace (view_of pen.old.seat) (view_of pen.new.seat) }
    ensures slots { slots_of pen.new.seat ≡ slots_of pen.old.seat }
{
    book.commit::<N>(pen, had, publish)
}

/// One exchange of the front by this entry.
fn add_post(
    book: &TurnBook<Posting>,
    pen: &mut Pen<Posting>,
    had: Front,
    post: Post,
    publish: bool,
) -> Result<u64, Front>
    requires book { pen.old.seat.table_id ≡ book.now.table.shared.table_id }
    requires last_look { IsLastLook had (view_of pen.old.seat) }
    requires step { LeadsOn Posted had (view_of pen.old.seat) post }
    requires caller { (view_of pen.old.seat).caller ≡ Some (poster_of post) }
    requires reach { HoldsReach (λ s e. post_reach e) had (view_of pen.old.seat) post }
    requires publish { publish ≡ is_post post }
    requires registry { publish ≡ true → HasRegistry (view_of pen.old.seat) }
    requires drafted { publish ≡ true → HasDrafted Posted words_of had (view_of pen.old.seat) post }
    ensures book { pen.new.seat.table_id ≡ pen.old.seat.table_id }
    ensures at { IfOk result (λ at. at ≡ length (view_of pen.old.seat).seen) }
    ensures entered { IfOk result (λ at. (view_of pen.new.seat).seen ≡ (view_of pen.old.seat).seen ++ post ∷ []) }
    ensures published { IfOk result (λ at. AfterEntry publish (view_of pen.old.seat) (view_of pen.new.seat)) }
    ensures held { (q : ℕ) → is_some (held_at q (view_of pen.new.seat).held) ≡ is_some (held_at q (view_of pen.old.seat).held) }
    ensures place { SamePlace (view_of pen.old.seat) (view_of pen.new.seat) }
    ensures slots { slots_of pen.new.seat ≡ slots_of pen.old.seat }
{
    enter::<Brand>(book, pen, had, post, publish)
}

/// Posts a number with one exchange of the front, and answers the entry's place. The pen holds the number.
fn post_once(
    book: &TurnBook<Posting>,
    pen: &mut Pen<Posting>,
    had: Front,
    caller: u32,
    number: u64,
) -> Result<u64, Refused>
    requires book { pen.old.seat.table_id ≡ book.now.table.shared.table_id }
    requires width { book.now.width ≡ 2 }
    requires last_look { IsLastLook had (view_of pen.old.seat) }
    requires generation { had.generation ≡ count_by is_post (view_of pen.old.seat).seen }
    requires legal { IsLegal IsNew Posted (view_of pen.old.seat) }
    requires caller { (view_of pen.old.seat).caller ≡ Some caller }
    requires registry { HasRegistry (view_of pen.old.seat) }
    requires knows { is_some (view_of pen.old.seat).knows ≡ true }
    requires number { number < 2 ^ 63 }
    ensures book { pen.new.seat.table_id ≡ pen.old.seat.table_id }
    ensures registry { HasRegistry (view_of pen.new.seat) }
    ensures place { SamePlace (view_of pen.old.seat) (view_of pen.new.seat) }
    ensures posted { IfOk result (λ at. (view_of pen.new.seat).seen ≡ (view_of pen.old.seat).seen ++ Post.Set caller number ∷ []) }
{
    if had.length >= MOST {
        return Err(Refused::Full);
    }
    if had.generation >= MOST_POSTS {
        return Err(Refused::Full);
    }
    book.spare(pen, 0, number);
    book.spare(pen, 1, number + 1);
    match add_post(book, pen, had, Post::Set(caller, number), true) {
        Ok(at) => {
            *part_of(pen, book, 0) = number;
            Ok(at)
        }
        Err(now) => Err(Refused::Lost(now)),
    }
}

/// Makes an entry that changes nothing, with one exchange of the front, and answers its place.
fn pass_once(
    book: &TurnBook<Posting>,
    pen: &mut Pen<Posting>,
    had: Front,
    caller: u32,
) -> Result<u64, Refused>
    requires book { pen.old.seat.table_id ≡ book.now.table.shared.table_id }
    requires last_look { IsLastLook had (view_of pen.old.seat) }
    requires legal { IsLegal IsNew Posted (view_of pen.old.seat) }
    requires caller { (view_of pen.old.seat).caller ≡ Some caller }
    ensures book { pen.new.seat.table_id ≡ pen.old.seat.table_id }
    ensures place { SamePlace (view_of pen.old.seat) (view_of pen.new.seat) }
    ensures passed { IfOk result (λ at. (view_of pen.new.seat).seen ≡ (view_of pen.old.seat).seen ++ Post.Pass caller ∷ []) }
{
    if had.length >= MOST {
        return Err(Refused::Full);
    }
    match add_post(book, pen, had, Post::Pass(caller), false) {
        Ok(at) => Ok(at),
        Err(now) => Err(Refused::Lost(now)),
    }
}

/// Looks and posts a number. The pen holds the number.
pub(crate) fn post(
    book: &TurnBook<Posting>,
    pen: &mut Pen<Posting>,
    caller: u32,
    number: u64,
) -> Result<u64, Refused>
    requires book { pen.old.seat.table_id ≡ book.now.table.shared.table_id }
    requires width { book.now.width ≡ 2 }
    requires caller { (view_of pen.old.seat).caller ≡ Some caller }
    requires registry { HasRegistry (view_of pen.old.seat) }
    requires number { number < 2 ^ 63 }
    ensures book { pen.new.seat.table_id ≡ pen.old.seat.table_id }
    ensures registry { HasRegistry (view_of pen.new.seat) }
    ensures place { SamePlace (view_of pen.old.seat) (view_of pen.new.seat) }
{
    let had = book.front(pen);
    post_once(book, pen, had, caller, number)
}

/// Looks and makes an entry that changes nothing.
fn pass(book: &TurnBook<Posting>, pen: &mut Pen<Posting>, caller: u32) -> Result<u64, Refused>
    requires book { pen.old.seat.table_id ≡ book.now.table.shared.table_id }
    requires caller { (view_of pen.old.seat).caller ≡ Some caller }
    ensures book { pen.new.seat.table_id ≡ pen.old.seat.table_id }
    ensures place { SamePlace (view_of pen.old.seat) (view_of pen.new.seat) }
{
    let had = book.front(pen);
    pass_once(book, pen, had, caller)
}

/// Looks and reads the first word.
pub(crate) fn read_first(book: &TurnBook<Posting>, pen: &mut Pen<Posting>) -> (Front, u64)
    requires book { pen.old.seat.table_id ≡ book.now.table.shared.table_id }
    requires width { book.now.width ≡ 2 }
    ensures book { pen.new.seat.table_id ≡ pen.old.seat.table_id }
    ensures last_look { IsLastLook result.0 (view_of pen.new.seat) }
    ensures noted { HasNewest 0 result.1 result.0.generation (view_of pen.new.seat) }
{
    let had = book.front(pen);
    let first = book.word(pen, 0);
    (had, first)
}

/// Reads the second word and looks again: both words are the published ones, unless a publication came between.
pub(crate) fn read_second(
    book: &TurnBook<Posting>,
    pen: &mut Pen<Posting>,
    had: Front,
    first: u64,
) -> Option<(u64, u64)>
    requires book { pen.old.seat.table_id ≡ book.now.table.shared.table_id }
    requires width { book.now.width ≡ 2 }
    requires last_look { IsLastLook had (view_of pen.old.seat) }
    requires noted { HasNewest 0 first had.generation (view_of pen.old.seat) }
    ensures book { pen.new.seat.table_id ≡ pen.old.seat.table_id }
    ensures right { IfSome result (λ both. IfSome (view_of pen.new.seat).now (λ s. words_of s ≡ both.0 ∷ both.1 ∷ [])) }
{
    let second = book.word(pen, 1);
    let now = book.front(pen);
    if now.generation == had.generation {
        Some((first, second))
    } else {
        None
    }
}

#[test]
fn words_read_under_one_generation_are_the_published_ones(rt: HostRuntime) -> Result<(), NoMemory> {
    let (book, mut desk) = posted(rt.alloc(), 7)?;
    let mut publisher = book.split(&mut desk, Some(1));
    let mut reader = book.split(&mut desk, Some(2));
    let took = book.take(&mut publisher, 0);
    let Took::Got = took else {
        return Ok(());
    };
    let mut last = 7;
    for k in 0..2000 {
        let (had, first) = read_first(&book, &mut reader);
        let publishes = k % 2 == 0;
        if publishes {
            last = 10 * k;
            let at = post(&book, &mut publisher, 1, last);
            assert!(rt; at == Ok(k / 2));
        }
        let both = read_second(&book, &mut reader, had, first);
        let wanted = if publishes {
            None
        } else {
            Some((last, last + 1))
        };
        assert!(rt; both == wanted);
    }
    Ok(())
}

#[test]
fn a_lost_publication_is_tried_again(rt: HostRuntime) -> Result<(), NoMemory> {
    let (book, mut desk) = posted(rt.alloc(), 7)?;
    let mut one = book.split(&mut desk, Some(1));
    let mut two = book.split(&mut desk, Some(2));
    let took = book.take(&mut one, 0);
    let Took::Got = took else {
        return Ok(());
    };
    let had = book.front(&mut one);
    let passed = pass(&book, &mut two, 2);
    let lost = post_once(&book, &mut one, had, 1, 8);
    let now = Front {
        generation: 0,
        length: 1,
    };
    assert!(rt; passed == Ok(0) && lost == Err(Refused::Lost(now)));
    let (had, first) = read_first(&book, &mut two);
    let before = read_second(&book, &mut two, had, first);
    assert!(rt; before == Some((7, 8)));
    let again = post(&book, &mut one, 1, 8);
    assert!(rt; again == Ok(1));
    let (had, first) = read_first(&book, &mut two);
    let after = read_second(&book, &mut two, had, first);
    assert!(rt; after == Some((8, 9)));
    let front = book.front(&mut desk);
    assert!(rt;
        front
            == (Front {
                generation: 1,
                length: 2
            })
    );
    Ok(())
}
