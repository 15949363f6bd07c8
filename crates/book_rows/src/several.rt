// Several parts taken and given back at once.
ghost use Rattle.std.specs.Prelude.{◌≡◌, [], true, IfOk};
ghost use Rattle.turn_book.specs.Views.{view_of};

use crate::machine::Counting;
use std::alloc::Global;
use turn_book::{NoMemory, Pen, TurnBook};

/// A book over four counters, and the desk's pen.
fn four(alloc: Global) -> Result<(TurnBook<Counting>, Pen<Counting>), NoMemory>
    ensures book { IfOk result (λ made. made.1.seat.table_id ≡ made.0.table.shared.table_id) }
    ensures count { IfOk result (λ made. made.0.table.shared.table_id.slots ≡ 4) }
    ensures desk { IfOk result (λ made. ((view_of made.1.seat).is_desk ≡ true) × ((view_of made.1.seat).made ≡ [])) }
{
    let Ok(parts) = vec![in alloc; 0u64, 0, 0, 0] else {
        return Err(NoMemory);
    };
    TurnBook::<Counting>::make(alloc, parts, Vec::new(alloc))
}

#[test]
fn all_parts_are_taken_or_none(rt: HostRuntime) -> Result<(), NoMemory> {
    let (book, mut desk) = four(rt.alloc())?;
    let mut one = book.split(&mut desk, Some(1));
    let mut two = book.split(&mut desk, Some(2));
    let first = book.take_all(&mut one, &[2, 0]);
    assert!(rt; first == Ok(()));
    let found = book.take_all(&mut two, &[3, 1, 0]);
    assert!(rt; found == Err(0));
    let free = book.take_all(&mut two, &[1, 3]);
    assert!(rt; free == Ok(()));
    book.give_all(&mut one, &[0, 2]);
    let more = book.take_all(&mut two, &[0, 2]);
    assert!(rt; more == Ok(()));
    book.give_all(&mut two, &[0, 1, 2, 3]);
    let mut three = book.split(&mut desk, Some(3));
    let again = book.take_all(&mut three, &[3, 2, 1, 0]);
    assert!(rt; again == Ok(()));
    Ok(())
}
