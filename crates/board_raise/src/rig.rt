//! What lends the parts of a board to a call.
ghost use Rattle.std.specs.Prelude.{◌≡◌, ℕ, List, Option, ◌<◌, Bool, false, IsTrue, IfSome, is_some};
ghost use Rattle.std.specs.Borrow.{Lends, sem};
ghost use Rattle.route_table.specs.Pins.{IsPin};
ghost use Rattle.route_table.specs.Words.{is_route};
ghost use Rattle.board_model.specs.Hand.{part_in};
ghost use Rattle.board_model.specs.Published.{routing_of_words};
ghost use Rattle.board_model.specs.Run.{Wishes, next_wish, later_wishes};
ghost use Rattle.board_raise.specs.declared.parts.Parts.{Parts};
ghost use Rattle.board_raise.specs.contracts.parts.Parts.{the_row};
ghost use Rattle.board_raise.specs.InHand.{parts_of};

use crate::parts::Parts;
use board_model::TriggerWord;
use irq_base::{Part, Pin, Targets};
use irq_bits::CpuSet;

/// Lends parts of a board, and answers its published words.
///
/// It stands for one list of published words, that of the time when it was made. It is astray once an answer was not that
/// list's, and then it stays so.
pub trait Rig {
    // the parts that it lends
    ghost held: { Self → Parts };

    // the list of words that it stands for
    ghost published: { Self → List ℕ };

    // an answer was not that list's
    ghost astray: { Self → Bool };

    // the sets that its next wishes answer
    ghost wishes: { Self → Wishes };

    // what it has noted of the words, by their indices; no call and no write to the lent parts changes it
    ghost noted: { Self → List (Option ℕ) };

    // the same rig with other parts
    ghost with_held: { Self → Parts → Self };

    /// Lends all its parts.
    fn parts(&mut self) -> &mut Parts
        ensures* writes_back { sem 𝓛 (Lends Self.row the_row self.entry result (with_held self.old)) }
        ensures value { result.now ≡ held self.old };

    /// Whether it holds the part.
    fn has(&self, part: Part) -> bool
        ensures { result ≡ is_some (part_in (parts_of (held self.now)) part) };

    /// Where a GSI goes, by the published words.
    fn targets(&mut self, gsi: u16) -> Targets
        requires { gsi < 4096 }
        ensures kept { held self.new ≡ held self.old }
        ensures stands { published self.new ≡ published self.old }
        ensures noted { noted self.new ≡ noted self.old }
        ensures wishes { wishes self.new ≡ wishes self.old }
        ensures strays { astray self.new ≡ false → astray self.old ≡ false }
        ensures told { astray self.new ≡ false → result ≡ (routing_of_words (published self.old)).targets gsi }
        ensures route { IsTrue (is_route result) };

    /// Whether an acknowledge of a GSI is of concern to anybody, by the published words.
    fn marked(&mut self, gsi: u16) -> bool
        requires { gsi < 4096 }
        ensures kept { held self.new ≡ held self.old }
        ensures stands { published self.new ≡ published self.old }
        ensures noted { noted self.new ≡ noted self.old }
        ensures wishes { wishes self.new ≡ wishes self.old }
        ensures strays { astray self.new ≡ false → astray self.old ≡ false }
        ensures told { astray self.new ≡ false → result ≡ (routing_of_words (published self.old)).marked gsi };

    /// The GSI of a pin, by the published words.
    fn gsi_of(&mut self, pin: Pin) -> Option<u16>
        requires { IsPin pin }
        ensures kept { held self.new ≡ held self.old }
        ensures stands { published self.new ≡ published self.old }
        ensures noted { noted self.new ≡ noted self.old }
        ensures wishes { wishes self.new ≡ wishes self.old }
        ensures strays { astray self.new ≡ false → astray self.old ≡ false }
        ensures told { astray self.new ≡ false → result ≡ (routing_of_words (published self.old)).gsi_of pin }
        ensures range { IfSome result (λ gsi. gsi < 4096) };

    /// What a trigger injects, by the published words.
    fn trigger(&mut self, trigger: u16) -> Option<TriggerWord>
        requires { trigger < 256 }
        ensures kept { held self.new ≡ held self.old }
        ensures stands { published self.new ≡ published self.old }
        ensures noted { noted self.new ≡ noted self.old }
        ensures wishes { wishes self.new ≡ wishes self.old }
        ensures strays { astray self.new ≡ false → astray self.old ≡ false }
        ensures told { astray self.new ≡ false → result ≡ (routing_of_words (published self.old)).trigger trigger }
        ensures range { IfSome result (λ word. word.gsi < 4096) };

    /// The processors of which a sending is to choose one, where it is free to choose; none where nothing is wished for.
    fn wish(&mut self) -> CpuSet
        ensures value { result ≡ next_wish (wishes self.old) }
        ensures later { wishes self.new ≡ later_wishes (wishes self.old) }
        ensures kept { held self.new ≡ held self.old }
        ensures stands { published self.new ≡ published self.old }
        ensures noted { noted self.new ≡ noted self.old }
        ensures strays { astray self.new ≡ astray self.old };

    ghost held_with: { (r : Self) (p : Parts) → held (with_held r p) ≡ p };

    ghost published_with: { (r : Self) (p : Parts) → published (with_held r p) ≡ published r };

    ghost wishes_with: { (r : Self) (p : Parts) → wishes (with_held r p) ≡ wishes r };

    ghost astray_with: { (r : Self) (p : Parts) → astray (with_held r p) ≡ astray r };

    ghost noted_with: { (r : Self) (p : Parts) → noted (with_held r p) ≡ noted r };
}
