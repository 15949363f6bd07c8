// Words that one thread publishes and another reads.
ghost use Rattle.std.specs.Prelude.{◌≡◌, Some};
ghost use Rattle.turn_book.specs.Banks.{HasRegistry};
ghost use Rattle.turn_book.specs.Views.{view_of};

use crate::posting::Posting;
use crate::publishing::{post, posted, read_first, read_second};
use std::thread::join;
use turn_book::{NoMemory, Pen, Took, TurnBook};

/// Posts this many numbers, each greater by 1, and answers how many were posted. The pen holds the number.
fn post_up(book: &TurnBook<Posting>, mut pen: Pen<Posting>, caller: u32, times: u32) -> u32
    requires book { pen.seat.table_id ≡ book.now.table.shared.table_id }
    requires width { book.now.width ≡ 2 }
    requires caller { (view_of pen.seat).caller ≡ Some caller }
    requires registry { HasRegistry (view_of pen.seat) }
{
    let mut made: u32 = 0;
    for k in 0..times {
        if post(book, &mut pen, caller, u64::from(k)).is_ok() {
            made = made.saturating_add(1);
        }
    }
    made
}

/// Reads both words this many times, and answers how often they were none that a number has.
fn count_wrong(book: &TurnBook<Posting>, mut pen: Pen<Posting>, times: u32) -> u32
    requires book { pen.seat.table_id ≡ book.now.table.shared.table_id }
    requires width { book.now.width ≡ 2 }
{
    let mut wrong: u32 = 0;
    for _ in 0..times {
        let (had, first) = read_first(book, &mut pen);
        if let Some((a, b)) = read_second(book, &mut pen, had, first) {
            if b != a.wrapping_add(1) {
                wrong = wrong.saturating_add(1);
            }
        }
    }
    wrong
}

#[test]
fn words_read_beside_a_publisher_are_those_of_one_number(rt: HostRuntime) -> Result<(), NoMemory> {
    let (book, mut desk) = posted(rt.alloc(), 7)?;
    let mut publisher = book.split(&mut desk, Some(1));
    let reader = book.split(&mut desk, Some(2));
    let took = book.take(&mut publisher, 0);
    let Took::Got = took else {
        return Ok(());
    };
    let shared = &book;
    let (made, wrong) = join(
        &rt,
        || post_up(shared, publisher, 1, 2000),
        || count_wrong(shared, reader, 2000),
    );
    assert!(rt; made == 2000 && wrong == 0);
    Ok(())
}
