// Two threads with a pen each, on one book.
ghost use Rattle.std.specs.Prelude.{◌≡◌, ◌≢◌, ◌≤◌, [], length, false, true, IfOk, Some, None};
ghost use Rattle.turn_book.specs.Views.{view_of, first_view};

use crate::asking::add;
use crate::machine::Counting;
use std::alloc::Global;
use std::sync::Wait;
use std::thread::join;
use turn_book::{NoMemory, Pen, TurnBook};

/// A book over two counters, and the desk's pen.
pub(crate) fn opened(
    alloc: Global,
    first: u64,
    second: u64,
) -> Result<(TurnBook<Counting>, Pen<Counting>), NoMemory>
    ensures book { IfOk result (λ made. made.1.seat.table_id ≡ made.0.table.shared.table_id) }
    ensures count { IfOk result (λ made. made.0.table.shared.table_id.slots ≡ 2) }
    ensures desk { IfOk result (λ made. ((view_of made.1.seat).is_desk ≡ true) × ((view_of made.1.seat).caller ≡ None) × ((view_of made.1.seat).made ≡ []) × ((view_of made.1.seat).ended ≡ []) × ((view_of made.1.seat).held ≡ [])) }
{
    let Ok(parts) = vec![in alloc; first, second] else {
        return Err(NoMemory);
    };
    TurnBook::<Counting>::make(alloc, parts, Vec::new(alloc))
}

/// Adds 1 to the two counters in turn, this many times in all.
fn count_up<R: Wait>(
    rt: &R,
    book: &TurnBook<Counting>,
    mut pen: Pen<Counting>,
    caller: u32,
    times: u32,
) -> Pen<Counting>
    requires book { pen.seat.table_id ≡ book.now.table.shared.table_id }
    requires parts { 2 ≤ book.now.table.shared.table_id.slots }
    requires caller { (view_of pen.seat).caller ≡ Some caller }
    requires bare { (view_of pen.seat).held ≡ [] }
    ensures book { result.seat.table_id ≡ pen.seat.table_id }
    ensures bare { (view_of result.seat).held ≡ [] }
    ensures caller { ((view_of result.seat).caller ≡ (view_of pen.seat).caller) × ((view_of result.seat).is_desk ≡ (view_of pen.seat).is_desk) }
{
    for k in 0..times {
        add(rt, book, &mut pen, caller, k % 2, 1);
    }
    pen
}

#[test]
fn two_threads_make_a_thousand_entries_each(rt: HostRuntime) -> Result<(), NoMemory> {
    let (book, mut desk) = opened(rt.alloc(), 0, 0)?;
    let one = book.split(&mut desk, Some(1));
    let two = book.split(&mut desk, Some(2));
    let shared = &book;
    let (one, two) = join(
        &rt,
        || count_up(&rt, shared, one, 1, 1000),
        || count_up(&rt, shared, two, 2, 1000),
    );
    book.join(&mut desk, one);
    book.join(&mut desk, two);
    let (parts, front) = book.close(desk);
    assert!(rt; front.length == 2000 && parts.as_slice() == [1000, 1000].as_slice());
    Ok(())
}
