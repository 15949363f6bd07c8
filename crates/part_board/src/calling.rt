//! A call on a running board.
ghost use Rattle.std.specs.Prelude.{◌≡◌, ℕ, List, [], true, Ok, IfOk, IfErr, OnErr};
ghost use Rattle.irq_base.specs.Callers.{is_allowed};
ghost use Rattle.irq_base.specs.declared.call.Caller.{Caller as AnyCaller};
ghost use Rattle.irq_base.specs.declared.lists.Entry.{Entry};
ghost use Rattle.board_step.specs.History.{Legal};
ghost use Rattle.turn_book.specs.Histories.{IsPrefix};
ghost use Rattle.part_attempt.specs.Attempts.{IsBarred, IfEntered, IfBarred, OnNoEntry};
ghost use Rattle.part_reach.specs.Turns.{AddsReached, seen_before_own};
ghost use Rattle.part_board.specs.Seen.{pass_view, pass_seen, IsPassOf, Learnt};
ghost use Rattle.part_board.specs.Tried.{IsEntered};

use crate::live::LiveBoard;
use crate::pass::Pass;
use irq_base::{Call, Done, Events, Spent};
use part_attempt::NotNow;
use std::sync::Wait;

impl LiveBoard {
    // One attempt more, after others that began when the pass had seen `first`: what it comes to, and the turns that all have won and
    // found taken by now.
    fn try_again(
        &self,
        pass: &mut Pass,
        call: &Call,
        events: &mut Events,
    ) -> Result<Result<Done, Spent>, NotNow>
        requires pass { IsPassOf self.now pass.old }
        requires allowed { is_allowed pass.old.caller call.now self.now.shape ≡ true }
        ensures pass { IsPassOf self.now pass.new }
        ensures caller { pass.new.caller ≡ pass.old.caller }
        ensures seen { IsPrefix (pass_seen pass.old) (pass_seen pass.new) }
        ensures legal { Legal self.now.shape (pass_seen pass.new) }
        ensures entered { IfEntered result (λ done. IsEntered pass.old.caller call.now done events.new.items (pass_seen pass.old) (pass_seen pass.new)) }
        ensures barred { IfBarred result (λ spent. IsBarred self.now.shape call.now spent (pass_seen pass.new)) }
        ensures learnt { OnNoEntry result (Learnt self.now.shape pass.old.caller (pass_seen pass.old) (pass_seen pass.new)) }
        ensures quiet { OnNoEntry result (events.new.items ≡ []) }
        ensures took { (who : AnyCaller) (first : List Entry) (turns : List ℕ) → pass.old.caller ≡ who → IsPrefix first (pass_seen pass.old)
            → AddsReached self.now.shape who call.now first (pass_seen pass.old) turns (pass_view pass.old).took
            → AddsReached self.now.shape who call.now first (seen_before_own result (pass_seen pass.new)) turns (pass_view pass.new).took }
        ensures found { (who : AnyCaller) (first : List Entry) (turns : List ℕ) → pass.old.caller ≡ who → IsPrefix first (pass_seen pass.old)
            → AddsReached self.now.shape who call.now first (pass_seen pass.old) turns (pass_view pass.old).found
            → AddsReached self.now.shape who call.now first (seen_before_own result (pass_seen pass.new)) turns (pass_view pass.new).found }
    {
        self.try_call(pass, call, events)
    }

    /// A call by the pass: it is attempted, as `try_call` does, until the attempt is answered. The call is allowed to the caller of
    /// the pass.
    ///
    /// `Ok(done)`: the call has its entry, with the reply of `done` and the events that are handed out, at the place `done.at` of
    /// the history. `Err(spent)`: that limit bars the call where the pass now stands; there is no entry, no event is handed out,
    /// and no part changes. It takes the turns of parts that the call reaches, and of no others. It takes no memory. That it
    /// returns is not promised.
    pub fn call<R: Wait>(
        &self,
        rt: &R,
        pass: &mut Pass,
        call: &Call,
        events: &mut Events,
    ) -> Result<Done, Spent>
        requires pass { IsPassOf self.now pass.old }
        requires allowed { is_allowed pass.old.caller call.now self.now.shape ≡ true }
        ensures pass { IsPassOf self.now pass.new }
        ensures caller { pass.new.caller ≡ pass.old.caller }
        ensures seen { IsPrefix (pass_seen pass.old) (pass_seen pass.new) }
        ensures legal { Legal self.now.shape (pass_seen pass.new) }
        ensures entered { IfOk result (λ done.
            IsEntered pass.old.caller call.now done events.new.items (pass_seen pass.old) (pass_seen pass.new)) }
        ensures barred { IfErr result (λ spent. IsBarred self.now.shape call.now spent (pass_seen pass.new)) }
        ensures learnt { OnErr result (Learnt self.now.shape pass.old.caller (pass_seen pass.old) (pass_seen pass.new)) }
        ensures quiet { OnErr result (events.new.items ≡ []) }
        ensures took { AddsReached self.now.shape pass.old.caller call.now (pass_seen pass.old) (seen_before_own (Ok result) (pass_seen pass.new))
            (pass_view pass.old).took (pass_view pass.new).took }
        ensures found { AddsReached self.now.shape pass.old.caller call.now (pass_seen pass.old) (seen_before_own (Ok result) (pass_seen pass.new))
            (pass_view pass.old).found (pass_view pass.new).found }
    {
        for _ in rt.forever() {
            match self.try_again(pass, call, events) {
                Ok(Ok(done)) => return Ok(done),
                Ok(Err(spent)) => return Err(spent),
                Err(_) => {}
            }
        }
        unreachable!()
    }
}
