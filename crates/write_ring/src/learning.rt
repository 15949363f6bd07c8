//! What was seen goes from pass to pass, and to the desk.
ghost use Rattle.std.specs.Prelude.{◌≡◌, ◌<◌, ◌≤◌, ◌+◌, ◌-◌, ◌^◌, ◌∷◌, [], ℕ, All};
ghost use Rattle.turn_book.specs.Histories.{IsPrefix};
ghost use Rattle.turn_book.specs.Views.{view_of, HasOnlyMade};
ghost use Rattle.write_ring.specs.Ring.{IsRingHistory, pass_of};
ghost use Rattle.write_ring.specs.Seen.{pass_seen, note_seen, desk_seen, IsPassOf, IsNoteOf, IsDeskOf, entries_by, end_of};

use crate::desk::RingDesk;
use crate::note::RingNote;
use crate::pass::RingPass;
use crate::ring::WriteRing;

impl RingDesk {
    // A look at the front: the desk's list is then the history. It has of each pass joined just the entries that the
    // pass had seen, and none of a pass that was not made.
    fn look(&mut self, ring: &WriteRing)
        requires desk { IsDeskOf ring.now self.old }
        ensures desk { IsDeskOf ring.now self.new }
        ensures passes { self.new.passes ≡ self.old.passes }
        ensures seen { IsPrefix (desk_seen self.old) (desk_seen self.new) }
        ensures legal { IsRingHistory (desk_seen self.new) }
        ensures ended { (view_of self.new.pen.seat).ended ≡ (view_of self.old.pen.seat).ended }
        ensures just { All (λ x. entries_by x.caller (desk_seen self.new) ≡ x.entries) (view_of self.new.pen.seat).ended }
        ensures made { HasOnlyMade pass_of (view_of self.new.pen.seat) }
    {
        let _ = ring.book.front(&mut self.pen);
    }

    /// A new pass, whose number is that of the passes made before it. It has seen what the desk has seen, and has no entry. The passes
    /// joined stay so, and the desk's list has of each just the entries that it had seen.
    ///
    /// The desk is of this ring, and has made fewer than 2^32 - 1 passes.
    pub fn pass(&mut self, ring: &WriteRing) -> RingPass
        requires desk { IsDeskOf ring.now self.old }
        requires few { self.old.passes < 2 ^ 32 - 1 }
        ensures desk { IsDeskOf ring.now self.new }
        ensures passes { self.new.passes ≡ self.old.passes + 1 }
        ensures pass { IsPassOf ring.now result }
        ensures number { result.number ≡ self.old.passes }
        ensures seen { IsPrefix (desk_seen self.old) (desk_seen self.new) }
        ensures level { pass_seen result ≡ desk_seen self.new }
        ensures legal { IsRingHistory (pass_seen result) }
        ensures fresh { entries_by result.number (pass_seen result) ≡ [] }
        ensures ended { (view_of self.new.pen.seat).ended ≡ (view_of self.old.pen.seat).ended }
        ensures just { All (λ x. entries_by x.caller (desk_seen self.new) ≡ x.entries) (view_of self.new.pen.seat).ended }
        ensures nobody_else { (n : ℕ) → self.new.passes ≤ n → entries_by n (desk_seen self.new) ≡ [] }
    {
        let number = self.passes;
        self.look(ring);
        let pen = ring.book.split(&mut self.pen, Some(number));
        self.passes += 1;
        RingPass { pen, number }
    }

    /// The desk learns what the pass has seen, and the pass is gone. The desk's list has of the pass just the entries that the pass
    /// has seen, now and later.
    ///
    /// The desk and the pass are of this ring.
    pub fn join(&mut self, ring: &WriteRing, pass: RingPass)
        requires desk { IsDeskOf ring.now self.old }
        requires pass { IsPassOf ring.now pass }
        ensures desk { IsDeskOf ring.now self.new }
        ensures passes { self.new.passes ≡ self.old.passes }
        ensures seen { IsPrefix (desk_seen self.old) (desk_seen self.new) }
        ensures learnt { IsPrefix (pass_seen pass) (desk_seen self.new) }
        ensures legal { IsRingHistory (desk_seen self.new) }
        ensures ended { (view_of self.new.pen.seat).ended ≡ end_of pass ∷ (view_of self.old.pen.seat).ended }
        ensures just { All (λ x. entries_by x.caller (desk_seen self.new) ≡ x.entries) (view_of self.new.pen.seat).ended }
        ensures nobody_else { (n : ℕ) → self.new.passes ≤ n → entries_by n (desk_seen self.new) ≡ [] }
    {
        ring.book.join(&mut self.pen, pass.pen);
    }
}

impl WriteRing {
    /// A copy of what the pass has seen, after a look at the front.
    ///
    /// The pass is of this ring.
    pub fn note(&self, pass: &mut RingPass) -> RingNote
        requires pass { IsPassOf self.now pass.old }
        ensures pass { IsPassOf self.now pass.new }
        ensures number { pass.new.number ≡ pass.old.number }
        ensures note { IsNoteOf self.now result }
        ensures copy { note_seen result ≡ pass_seen pass.new }
        ensures seen { IsPrefix (pass_seen pass.old) (pass_seen pass.new) }
        ensures legal { IsRingHistory (pass_seen pass.new) }
        ensures own { entries_by pass.old.number (pass_seen pass.new) ≡ entries_by pass.old.number (pass_seen pass.old) }
    {
        let _ = self.book.front(&mut pass.pen);
        let pen = self.book.split(&mut pass.pen, None);
        RingNote { pen }
    }

    /// The pass learns what the note tells.
    ///
    /// The pass and the note are of this ring.
    pub fn learn(&self, pass: &mut RingPass, note: RingNote)
        requires pass { IsPassOf self.now pass.old }
        requires note { IsNoteOf self.now note }
        ensures pass { IsPassOf self.now pass.new }
        ensures number { pass.new.number ≡ pass.old.number }
        ensures learnt { IsPrefix (note_seen note) (pass_seen pass.new) }
        ensures seen { IsPrefix (pass_seen pass.old) (pass_seen pass.new) }
        ensures legal { IsRingHistory (pass_seen pass.new) }
        ensures own { entries_by pass.old.number (pass_seen pass.new) ≡ entries_by pass.old.number (pass_seen pass.old) }
    {
        self.book.join(&mut pass.pen, note.pen);
    }
}
