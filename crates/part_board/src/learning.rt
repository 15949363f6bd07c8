//! What was seen goes from pass to pass, and to the desk.
ghost use Rattle.std.specs.Prelude.{◌≡◌, ◌↔◌, ◌∷◌, [], true, false, IfOk, IsErrOf, OnErr};
ghost use Rattle.irq_base.specs.Callers.{is_there};
ghost use Rattle.irq_base.specs.declared.call.Caller.{Caller as AnyCaller};
ghost use Rattle.board_step.specs.History.{Legal};
ghost use Rattle.turn_book.specs.Histories.{IsPrefix};
ghost use Rattle.turn_book.specs.Views.{SameTurns};
ghost use Rattle.part_slots.specs.Callers.{caller_number as number_of_caller};
ghost use Rattle.part_board.specs.declared.error.PassError.TheVariants as errors;
ghost use Rattle.part_board.specs.Seen.{pass_view, pass_seen, note_seen, desk_view, desk_seen, IsPassOf, IsNoteOf, IsDeskOf, entries_by, has_made, Learnt, IsNewPass};

use crate::desk::Desk;
use crate::error::PassError;
use crate::live::LiveBoard;
use crate::note::Note;
use crate::pass::Pass;
use irq_base::Caller;
use part_rig::Workroom;
use part_slots::caller_number;
use std::alloc::Global;

impl Desk {
    /// The pass of a caller, which is a device below `MAX_DEVICES` or a processor of the board.
    ///
    /// `Taken` comes exactly where the pass of that caller was made before. After a refusal the desk is unchanged. It takes all
    /// memory that the calls of the pass will ever need.
    pub fn pass(
        &mut self,
        alloc: Global,
        board: &LiveBoard,
        caller: Caller,
    ) -> Result<Pass, PassError>
        requires desk { IsDeskOf board.now self.old }
        requires there { is_there caller board.now.shape ≡ true }
        ensures desk { IsDeskOf board.now self.new }
        ensures taken { IsErrOf result errors.Taken ↔ (has_made self.old caller ≡ true) }
        ensures pass { IfOk result (IsNewPass board.now self.old caller) }
        ensures level { IfOk result (λ pass. pass_seen pass ≡ desk_seen self.new) }
        ensures made { IfOk result (λ _. (desk_view self.new).made ≡ number_of_caller caller ∷ (desk_view self.old).made) }
        ensures seen { IsPrefix (desk_seen self.old) (desk_seen self.new) }
        ensures stays { OnErr result (self.new ≡ self.old) }
    {
        if self.made.has(caller) {
            return Err(PassError::Taken);
        }
        let Ok(room) = Workroom::of(alloc, &board.shape, &self.pen) else {
            return Err(PassError::NoMemory);
        };
        let _ = board.book.front(&mut self.pen);
        let pen = board.book.split(&mut self.pen, Some(caller_number(caller)));
        self.made.insert(caller);
        Ok(Pass {
            pen,
            caller,
            shape: self.shape,
            room,
        })
    }

    /// The desk learns what the note tells.
    pub fn learn(&mut self, board: &LiveBoard, note: Note)
        requires desk { IsDeskOf board.now self.old }
        requires note { IsNoteOf board.now note }
        ensures desk { IsDeskOf board.now self.new }
        ensures seen { IsPrefix (desk_seen self.old) (desk_seen self.new) }
        ensures learnt { IsPrefix (note_seen note) (desk_seen self.new) }
        ensures legal { Legal board.now.shape (desk_seen self.new) }
        ensures made { (desk_view self.new).made ≡ (desk_view self.old).made }
        ensures others { (c : AnyCaller) → has_made self.new c ≡ false → entries_by c (desk_seen self.new) ≡ [] }
    {
        board.book.join(&mut self.pen, note.pen);
    }
}

impl LiveBoard {
    /// A copy of what the pass has seen, after a look at the front.
    pub fn note(&self, pass: &mut Pass) -> Note
        requires pass { IsPassOf self.now pass.old }
        ensures pass { IsPassOf self.now pass.new }
        ensures caller { pass.new.caller ≡ pass.old.caller }
        ensures note { IsNoteOf self.now result }
        ensures copy { note_seen result ≡ pass_seen pass.new }
        ensures learnt { Learnt self.now.shape pass.old.caller (pass_seen pass.old) (pass_seen pass.new) }
        ensures turns { SameTurns (pass_view pass.old) (pass_view pass.new) }
    {
        let _ = self.book.front(&mut pass.pen);
        let pen = self.book.split(&mut pass.pen, None);
        Note {
            pen,
            shape: self.shape,
        }
    }

    /// The pass learns what the note tells.
    pub fn learn(&self, pass: &mut Pass, note: Note)
        requires pass { IsPassOf self.now pass.old }
        requires note { IsNoteOf self.now note }
        ensures pass { IsPassOf self.now pass.new }
        ensures caller { pass.new.caller ≡ pass.old.caller }
        ensures noted { IsPrefix (note_seen note) (pass_seen pass.new) }
        ensures learnt { Learnt self.now.shape pass.old.caller (pass_seen pass.old) (pass_seen pass.new) }
        ensures turns { SameTurns (pass_view pass.old) (pass_view pass.new) }
    {
        self.book.join(&mut pass.pen, note.pen);
    }
}
