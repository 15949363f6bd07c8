//! What is known of the published words.
ghost use Rattle.std.specs.Prelude.{◌≡◌, ℕ, List, length, true, IfOk, None};
ghost use Rattle.turn_book.specs.declared.view.Note.{Note};
ghost use Rattle.turn_book.specs.Views.{view_of};
ghost use Rattle.part_rig.specs.Readings.{AreNoted, AreOf, PinsFit, read_at};
ghost use Rattle.part_rig.specs.Noted.{published_in, noted_by, is_index, is_blank};
ghost use Rattle.board_model.specs.declared.width.TheConstants.{WORDS};

use crate::reading::Reading;
use board_model::WORDS;
use irq_base::NoMemory;
use part_machine::RunningBoard;
use std::alloc::Global;
use std::snapshot::Snapshot;
use turn_book::Pen;

// So many places, in which nothing was read.
fn places(alloc: Global, count: u16) -> Result<Vec<Option<Reading>>, NoMemory>
    ensures count { IfOk result (λ places. length places.items ≡ count) }
    ensures blank { IfOk result (λ places. (k : ℕ) → read_at places.items k ≡ None) }
{
    match vec![in alloc; None; count as usize] {
        Ok(places) => Ok(places),
        Err(_) => Err(NoMemory),
    }
}

/// The published words that were read so far, each with the generation under which it was read.
///
/// It stands for one list: the words that were published at its last look. A word counts as noted where it was read under the
/// generation of that look, and then it is the list's; none does while words were loaded since. A word that is asked for
/// and does not count as noted is missing from then on, until the next look.
#[derive(Drop)]
pub struct Known {
    // at each index what was read there last
    pub(crate) places: Vec<Option<Reading>>,
    // the generation of the last look
    pub(crate) looked: u32,
    // no word was loaded since
    pub(crate) settled: bool,
    pub(crate) missing: Option<u16>,
    // the pen at the last look
    pub(crate) at: Snapshot<Pen<RunningBoard>>,
    pub ghost count: { length places.items ≡ WORDS },
    pub ghost told: { AreOf (published_in (view_of at.value.seat)) (noted_by settled looked places.items) },
    pub ghost pins: { PinsFit (noted_by settled looked places.items) },
    pub ghost low: { is_index missing ≡ true },
    pub ghost blank: { is_blank (noted_by settled looked places.items) missing ≡ true },
}

impl Known {
    /// No word was read. The pen is any of the book's: it tells which list is stood for until the first look.
    pub fn of(alloc: Global, pen: &Pen<RunningBoard>) -> Result<Known, NoMemory>
        ensures noted { IfOk result (λ known. (notes : List Note) → AreNoted notes known.places.items) }
        ensures missing { IfOk result (λ known. known.missing ≡ None) }
    {
        let places = places(alloc, WORDS)?;
        Ok(Known {
            places,
            looked: 0,
            settled: false,
            missing: None,
            at: Snapshot::of(pen),
        })
    }
}
