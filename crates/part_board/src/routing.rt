//! Where a GSI goes, read without a turn.
ghost use Rattle.std.specs.Prelude.{◌≡◌, ◌<◌, ◌≤◌, IfOk, IfErr};
ghost use Rattle.route_table.specs.Words.{named_by, pin_named};
ghost use Rattle.part_board.specs.Seen.{pass_view, pass_seen, IsPassOf, Learnt};
ghost use Rattle.part_board.specs.Routed.{IsRouted, LookedTwice, LookedUnderOne};
ghost use Rattle.turn_book.specs.Views.{SameTurns};

use crate::live::LiveBoard;
use crate::pass::Pass;
use irq_base::{MsiWord, Targets};
use route_bank::targets_word;

/// Routing was published between two looks at the front.
#[derive(Clone, Copy, Debug, PartialEq, Eq)]
pub struct Moved {
    /// How many publications the first look found.
    pub from: u32,
    /// How many the second found, which are more.
    pub to: u32,
}

// The word of a GSI, with the generations of the looks before it and behind it.
#[derive(Clone, Copy)]
struct Reading {
    from: u32,
    word: u64,
    to: u32,
}

// The pin of that number, where it is there.
#[inline]
fn pin_named(there: u64, number: u64) -> Option<u8>
    requires { number < 32 }
    ensures { result ≡ pin_named there number }
{
    if there == 1 { Some(number as u8) } else { None }
}

// The targets that the fields of a word name.
#[inline]
fn named_by(word: u64) -> Targets
    ensures { result ≡ named_by word }
{
    match word % 4 {
        1 => Targets {
            pic: pin_named(word / 4 % 2, word / 8 % 16),
            ioapic: pin_named(word / 128 % 2, word / 256 % 32),
            msi: None,
        },
        2 => Targets {
            pic: None,
            ioapic: None,
            msi: Some(MsiWord {
                address: 0xfee0_0000 + word / 4 % (1 << 20),
                payload: ((word >> 22) % (1 << 32)) as u32,
            }),
        },
        _ => Targets {
            pic: None,
            ioapic: None,
            msi: None,
        },
    }
}

impl LiveBoard {
    // A look at the front, the word of a GSI, and a look again.
    #[inline]
    fn read(&self, pass: &mut Pass, gsi: u16) -> Reading
        requires pass { IsPassOf self.now pass.old }
        requires gsi { gsi < 4096 }
        ensures pass { IsPassOf self.now pass.new }
        ensures caller { pass.new.caller ≡ pass.old.caller }
        ensures learnt { Learnt self.now.shape pass.old.caller (pass_seen pass.old) (pass_seen pass.new) }
        ensures turns { SameTurns (pass_view pass.old) (pass_view pass.new) }
        ensures misses { (pass_view pass.new).misses ≡ (pass_view pass.old).misses }
        ensures looks { LookedTwice (pass_view pass.old) (pass_view pass.new) result.from result.to }
        ensures order { result.from ≤ result.to }
        ensures right { result.to ≡ result.from → IsRouted self.now.shape gsi (named_by result.word) (pass_seen pass.new) }
    {
        let had = self.book.front(&mut pass.pen);
        let word = targets_word(&self.book, &mut pass.pen, gsi);
        let now = self.book.front(&mut pass.pen);
        Reading {
            from: had.generation,
            word,
            to: now.generation,
        }
    }

    /// Where a GSI goes: a look at the front, one published word, and a look again. It takes no turn, waits for nobody and takes no
    /// memory.
    ///
    /// `Ok`: the targets are those of the GSI in the routing table of the board where the pass now stands. `Moved`: the second look
    /// found more publications than the first.
    #[inline]
    pub fn route_now(&self, pass: &mut Pass, gsi: u16) -> Result<Targets, Moved>
        requires pass { IsPassOf self.now pass.old }
        requires gsi { gsi < 4096 }
        ensures pass { IsPassOf self.now pass.new }
        ensures caller { pass.new.caller ≡ pass.old.caller }
        ensures learnt { Learnt self.now.shape pass.old.caller (pass_seen pass.old) (pass_seen pass.new) }
        ensures turns { SameTurns (pass_view pass.old) (pass_view pass.new) }
        ensures misses { (pass_view pass.new).misses ≡ (pass_view pass.old).misses }
        ensures routed { IfOk result (λ targets. IsRouted self.now.shape gsi targets (pass_seen pass.new)) }
        ensures still { IfOk result (λ _. LookedUnderOne (pass_view pass.old) (pass_view pass.new)) }
        ensures moved { IfErr result (λ moved. LookedTwice (pass_view pass.old) (pass_view pass.new) moved.from moved.to) }
        ensures greater { IfErr result (λ moved. moved.from < moved.to) }
    {
        let Reading { from, word, to } = self.read(pass, gsi);
        if to == from {
            Ok(named_by(word))
        } else {
            Err(Moved { from, to })
        }
    }
}
