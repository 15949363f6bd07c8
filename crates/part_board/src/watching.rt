//! What a processor of a running board would be given now.
ghost use Rattle.std.specs.Prelude.{◌≡◌, ◌++◌, ℕ, List, true, IfOk, IfErr};
ghost use Rattle.irq_base.specs.declared.call.Caller.{Caller as AnyCaller};
ghost use Rattle.irq_base.specs.declared.call.Caller.TheVariants.{Cpu};
ghost use Rattle.turn_book.specs.Histories.{is_in};
ghost use Rattle.part_slots.specs.Slots.{place as place_of_part};
ghost use Rattle.part_board.specs.DueNow.{is_processor, due_turns, due_turns_won, due_turns_found, GrewBy, IsDueAfter};
ghost use Rattle.part_board.specs.Seen.{pass_view, pass_seen, IsPassOf, Learnt};

use crate::dues::{due_looked, turns_of};
use crate::live::LiveBoard;
use crate::pass::Pass;
use board_step::Due;
use irq_base::{Caller, Part};
use part_slots::part_at;
use std::sync::Wait;

/// The turn of a part was found taken.
#[derive(Clone, Copy, Debug, PartialEq, Eq)]
pub struct Busy {
    /// That part.
    pub part: Part,
}

impl LiveBoard {
    // What is due to processor n, whose pass it is.
    fn due_to(&self, pass: &mut Pass, n: u16) -> Result<Due, Busy>
        requires pass { IsPassOf self.now pass.old }
        requires processor { pass.old.caller ≡ Cpu n }
        ensures pass { IsPassOf self.now pass.new }
        ensures caller { pass.new.caller ≡ pass.old.caller }
        ensures learnt { Learnt self.now.shape pass.old.caller (pass_seen pass.old) (pass_seen pass.new) }
        ensures due { IfOk result (λ due. IsDueAfter self.now.shape pass.old.caller due (pass_seen pass.new)) }
        ensures busy { IfErr result (λ busy. is_in (place_of_part busy.part) (due_turns pass.old.caller) ≡ true) }
        ensures took { (pass_view pass.new).took ≡ (pass_view pass.old).took ++ due_turns_won pass.old.caller result }
        ensures found { (pass_view pass.new).found ≡ (pass_view pass.old).found ++ due_turns_found result }
        ensures misses { (pass_view pass.new).misses ≡ (pass_view pass.old).misses }
    {
        let turns = turns_of(n);
        if let Err(place) = self.book.take_all(&mut pass.pen, turns.as_slice()) {
            let _ = self.book.front(&mut pass.pen);
            return Err(Busy {
                part: part_at(place),
            });
        }
        let due = due_looked(&self.book, &mut pass.pen, turns.as_slice(), n);
        Ok(due)
    }

    /// What an `Ack` by the processor of the pass would answer now. It makes no entry, waits for nobody and takes no memory.
    ///
    /// `Ok`: it is what is due on the board where the pass now stands. `Busy`: it found the turn of that part taken.
    ///
    /// It takes the turn of the processor's own local APIC, and for processor 0 before it that of the 8259A pair, and holds none
    /// afterwards.
    pub fn try_due(&self, pass: &mut Pass) -> Result<Due, Busy>
        requires pass { IsPassOf self.now pass.old }
        requires processor { is_processor pass.old.caller ≡ true }
        ensures pass { IsPassOf self.now pass.new }
        ensures caller { pass.new.caller ≡ pass.old.caller }
        ensures learnt { Learnt self.now.shape pass.old.caller (pass_seen pass.old) (pass_seen pass.new) }
        ensures due { IfOk result (λ due. IsDueAfter self.now.shape pass.old.caller due (pass_seen pass.new)) }
        ensures busy { IfErr result (λ busy. is_in (place_of_part busy.part) (due_turns pass.old.caller) ≡ true) }
        ensures took { (pass_view pass.new).took ≡ (pass_view pass.old).took ++ due_turns_won pass.old.caller result }
        ensures found { (pass_view pass.new).found ≡ (pass_view pass.old).found ++ due_turns_found result }
        ensures misses { (pass_view pass.new).misses ≡ (pass_view pass.old).misses }
    {
        match pass.caller {
            Caller::Cpu(n) => self.due_to(pass, n),
            Caller::Device(_) => unreachable!(),
        }
    }

    // One attempt more, after others: what it comes to, and the turns that all have won and found taken by now.
    fn due_again(&self, pass: &mut Pass) -> Result<Due, Busy>
        requires pass { IsPassOf self.now pass.old }
        requires processor { is_processor pass.old.caller ≡ true }
        ensures pass { IsPassOf self.now pass.new }
        ensures caller { pass.new.caller ≡ pass.old.caller }
        ensures learnt { Learnt self.now.shape pass.old.caller (pass_seen pass.old) (pass_seen pass.new) }
        ensures due { IfOk result (λ due. IsDueAfter self.now.shape pass.old.caller due (pass_seen pass.new)) }
        ensures took { (who : AnyCaller) (turns : List ℕ) → pass.old.caller ≡ who
            → GrewBy (due_turns who) turns (pass_view pass.old).took → GrewBy (due_turns who) turns (pass_view pass.new).took }
        ensures found { (who : AnyCaller) (turns : List ℕ) → pass.old.caller ≡ who
            → GrewBy (due_turns who) turns (pass_view pass.old).found → GrewBy (due_turns who) turns (pass_view pass.new).found }
        ensures misses { (pass_view pass.new).misses ≡ (pass_view pass.old).misses }
    {
        self.try_due(pass)
    }

    /// What an `Ack` by the processor of the pass would answer now: it is attempted, as `try_due` does, until the attempt is
    /// answered. It is what is due on the board where the pass now stands. It makes no entry and takes no memory. That it returns
    /// is not promised.
    pub fn due<R: Wait>(&self, rt: &R, pass: &mut Pass) -> Due
        requires pass { IsPassOf self.now pass.old }
        requires processor { is_processor pass.old.caller ≡ true }
        ensures pass { IsPassOf self.now pass.new }
        ensures caller { pass.new.caller ≡ pass.old.caller }
        ensures learnt { Learnt self.now.shape pass.old.caller (pass_seen pass.old) (pass_seen pass.new) }
        ensures due { IsDueAfter self.now.shape pass.old.caller result (pass_seen pass.new) }
        ensures took { GrewBy (due_turns pass.old.caller) (pass_view pass.old).took (pass_view pass.new).took }
        ensures found { GrewBy (due_turns pass.old.caller) (pass_view pass.old).found (pass_view pass.new).found }
        ensures misses { (pass_view pass.new).misses ≡ (pass_view pass.old).misses }
    {
        for _ in rt.forever() {
            match self.due_again(pass) {
                Ok(due) => return due,
                Err(_) => {}
            }
        }
        unreachable!()
    }
}
