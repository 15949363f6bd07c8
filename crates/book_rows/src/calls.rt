// The book's calls, one after another in one thread.
use crate::asking::{Refused, add, add_once};
use crate::machine::Counting;
use crate::threads::opened;
use turn_book::{Front, NoMemory, Took, TurnBook};

#[test]
fn a_turn_is_found_taken_until_it_is_given_back(rt: HostRuntime) -> Result<(), NoMemory> {
    let alloc = rt.alloc();
    let Ok(parts) = vec![in alloc; 0u64, 0, 0, 0] else {
        return Err(NoMemory);
    };
    let (book, mut desk) = TurnBook::<Counting>::make(alloc, parts, Vec::new(alloc))?;
    let mut one = book.split(&mut desk, Some(1));
    let mut two = book.split(&mut desk, Some(2));
    let first = book.take(&mut one, 3);
    assert!(rt; first == Took::Got);
    let second = book.take(&mut two, 3);
    assert!(rt; second == Took::Found);
    book.give(&mut one, 3);
    let third = book.take(&mut two, 3);
    assert!(rt; third == Took::Got);
    Ok(())
}

#[test]
fn a_change_is_committed_and_left_by_the_book(rt: HostRuntime) -> Result<(), NoMemory> {
    let (book, mut desk) = opened(rt.alloc(), 5, 7)?;
    let mut pen = book.split(&mut desk, Some(9));
    let first = add(&rt, &book, &mut pen, 9, 0, 10);
    let second = add(&rt, &book, &mut pen, 9, 1, 20);
    let over = add(&rt, &book, &mut pen, 9, 1, u64::MAX);
    assert!(rt; first == Some(0) && second == Some(1) && over == None);
    let front = book.front(&mut desk);
    assert!(rt;
        front
            == (Front {
                generation: 0,
                length: 2
            })
    );
    book.join(&mut desk, pen);
    let (parts, front) = book.close(desk);
    assert!(rt; front.length == 2 && parts.as_slice() == [15, 27].as_slice());
    Ok(())
}

#[test]
fn a_note_carries_what_was_seen(rt: HostRuntime) -> Result<(), NoMemory> {
    let (book, mut desk) = opened(rt.alloc(), 0, 0)?;
    let mut one = book.split(&mut desk, Some(1));
    let two = book.split(&mut desk, Some(2));
    let mut three = book.split(&mut desk, None);
    add(&rt, &book, &mut one, 1, 0, 1);
    let note = book.split(&mut one, None);
    book.join(&mut three, note);
    book.join(&mut desk, three);
    book.join(&mut desk, two);
    book.join(&mut desk, one);
    let (parts, front) = book.close(desk);
    assert!(rt; front.length == 1 && parts.as_slice() == [1, 0].as_slice());
    Ok(())
}

#[test]
fn of_two_commits_the_later_loses_its_first_exchange(rt: HostRuntime) -> Result<(), NoMemory> {
    let (book, mut desk) = opened(rt.alloc(), 0, 0)?;
    let mut one = book.split(&mut desk, Some(1));
    let mut two = book.split(&mut desk, Some(2));
    let first = book.take(&mut one, 0);
    assert!(rt; first == Took::Got);
    let second = book.take(&mut two, 1);
    assert!(rt; second == Took::Got);
    let had_one = book.front(&mut one);
    let had_two = book.front(&mut two);
    let won = add_once(&book, &mut one, had_one, 1, 0, 5);
    let lost = add_once(&book, &mut two, had_two, 2, 1, 6);
    let now = Front {
        generation: 0,
        length: 1,
    };
    assert!(rt; won == Ok(0) && lost == Err(Refused::Lost(now)));
    let had = book.front(&mut two);
    let again = add_once(&book, &mut two, had, 2, 1, 6);
    assert!(rt; had == now && again == Ok(1));
    book.give(&mut one, 0);
    book.give(&mut two, 1);
    Ok(())
}
