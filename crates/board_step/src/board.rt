//! A whole board on one thread.
ghost use Rattle.std.specs.Prelude.{◌≡◌, ◌<◌, ◌≤◌, ◌↔◌, [], IfOk, IsErrOf, Err, true, false, length, None, Some, MatchResult, OnErr};
ghost use Rattle.irq_base.specs.Callers.{is_allowed};
ghost use Rattle.irq_base.specs.declared.shape.Part.{Part as AnyPart};
ghost use Rattle.irq_base.specs.declared.shape.Part.TheVariants.{Lapic};
ghost use Rattle.board_model.specs.Board.{part_of};
ghost use Rattle.board_model.specs.Run.{Wishes};
ghost use Rattle.board_model.specs.Published.{published};
ghost use Rattle.board_model.specs.Hand.{all_parts};
ghost use Rattle.board_raise.specs.BoardRig.{words_in};
ghost use Rattle.board_raise.specs.Fit.{InLimits, Fits};
ghost use Rattle.board_raise.specs.InHand.{parts_of, chips_of};
ghost use Rattle.board_step.specs.declared.open.OpenError.TheVariants as errors;
ghost use Rattle.board_step.specs.Applied.{Applied, Ran, UnwishedStep};
ghost use Rattle.board_step.specs.Bodies.{entry_of};
ghost use Rattle.board_step.specs.Due.{AnswersDue};
ghost use Rattle.board_step.specs.History.{opening};
ghost use Rattle.board_step.specs.Reach.{reach};
ghost use Rattle.board_step.specs.Sound.{IsSound};
ghost use Rattle.board_step.specs.Step.{spent_of};
ghost use Rattle.board_step.specs.Whole.{IsWhole, board_of};

use crate::due::{Due, due_in_hand};
use crate::limits::{barred_by, would_publish_in};
use crate::open::OpenError;
use crate::opening::{is_in_limits, rig};
use crate::requests::{nmi_in_hand, requests_in_hand};
use crate::step::step_on;
use crate::typed::calls_are_typed;
use board_raise::{BoardRig, Parts, Words};
use irq_base::{Call, Caller, Done, Events, NoMemory, Shape, Spent};
use irq_bits::{CpuSet, Set256};
use std::alloc::Global;
use std::marker::Model;

/// A board: all parts of its shape, how many calls it has answered, and how many of these were publications.
///
/// Contracts see it as the board of the model. Each one is sound (`Board::keeps_sound`), as is each board of a legal history.
#[derive(Drop)]
pub struct Board {
    shape: Shape,
    /// All parts, and the words of the registry as it is now.
    rig: BoardRig,
    length: u64,
    publications: u32,
}

impl Model for Board {
    ghost use Rattle.std.specs.Coded.{codes};
    ghost use Rattle.irq_bits.specs.Members.{numbers_code};
    ghost use Rattle.route_table.specs.Tables.{table_code};
    ghost use Rattle.source_levels.specs.Holds.{holds_code};
    ghost use Rattle.lapic.specs.Registers.{apic_code};
    ghost use Rattle.board_model.specs.Board.{Board as Whole};

    ghost Value = { Whole };

    ghost coded = { Prim.hlevel (codes, numbers_code, table_code, holds_code, apic_code) };

    ghost use Rattle.board_step.specs.Owned.{board_in, IsKept};

    ghost view = { board_in };

    ghost invariant = { IsKept };
}

impl Board {
    /// The board of a shape at power-on: each chip at its power-on, every local APIC disabled, no registration, GSI n below 16
    /// on pin n of both chips and GSI n from 16 to 23 on pin n of the I/O APIC, and ticks reinjected. It takes all memory that
    /// the board will ever need.
    pub fn power_on(alloc: Global, shape: &Shape) -> Result<Board, OpenError>
        ensures bad { IsErrOf result errors.BadShape ↔ (InLimits shape.now → ⊥) }
        ensures opens { IfOk result (λ board. board ≡ opening shape.now) }
    {
        if !is_in_limits(shape) {
            return Err(OpenError::BadShape);
        }
        match rig(alloc, shape) {
            Err(NoMemory) => Err(OpenError::NoMemory),
            Ok(rig) => Ok(Board {
                shape: *shape,
                rig,
                length: 0,
                publications: 0,
            }),
        }
    }

    /// What it was made with.
    pub fn shape(&self) -> Shape
        ensures { result ≡ self.now.shape }
    {
        self.shape
    }

    /// How many calls it has answered.
    pub fn length(&self) -> u64
        ensures { result ≡ self.now.length }
    {
        self.length
    }

    /// How many of these were publications.
    pub fn publications(&self) -> u32
        ensures { result ≡ self.now.publications }
    {
        self.publications
    }

    /// Does nothing: it tells that the board is sound, as each board is.
    pub fn keeps_sound(&self)
        ensures { IsSound self.now }
    {
        let _ = &self.length;
    }

    /// One call on the board. The call is allowed to its caller. The list of events is cleared first.
    ///
    /// `Ok` comes exactly where no limit of the board bars the call, with the reply and with the number of calls that were
    /// answered before; then the board before, the entry of the call with all events that stand in the list, and the board after are
    /// a step. No part outside the call's reach changes. Nothing is wished, so that the same call on the same board has one reply, one
    /// list of events and one board after it.
    ///
    /// `Spent` names the limit that bars the call: that of calls, or, where the call would be a publication, that of
    /// publications. Then nothing changes, and the list is empty. It takes no memory.
    #[tactic(auto, using(crate::proofs::Unwished::applied_whole))]
    pub fn apply(&mut self, caller: Caller, call: &Call, events: &mut Events) -> Result<Done, Spent>
        requires { is_allowed caller call.now self.old.shape ≡ true }
        ensures spent { MatchResult result (λ _. spent_of self.old call.now ≡ None) (λ spent. spent_of self.old call.now ≡ Some spent) }
        ensures at { IfOk result (λ done. done.at ≡ self.old.length) }
        ensures whole { IfOk result (λ done.
            UnwishedStep self.old (entry_of caller call.now done.reply events.new.items) self.new) }
        ensures outside { (p : AnyPart) → reach self.old caller call.now p ≡ false → part_of self.new p ≡ part_of self.old p }
        ensures stays { OnErr result (self.new ≡ self.old) }
        ensures quiet { OnErr result (events.new.items ≡ []) }
    {
        events.clear();
        self.keeps_sound();
        self.step(&[], caller, call, events)
    }

    /// One call on the board, as `apply` makes it, where each sending that is free to choose chooses a processor of the next set
    /// that is wished for, if it has one of those.
    pub(crate) fn step(
        &mut self,
        wishes: &[CpuSet],
        caller: Caller,
        call: &Call,
        events: &mut Events,
    ) -> Result<Done, Spent>
        requires allowed { is_allowed caller call.now self.old.shape ≡ true }
        requires wishes { length wishes.now ≤ 561 }
        ensures spent { MatchResult result (λ _. spent_of self.old call.now ≡ None) (λ spent. spent_of self.old call.now ≡ Some spent) }
        ensures ran { IfOk result (λ done. Ran self.old caller call.now wishes.now done.reply events.old.items events.new.items) }
        ensures applied { IfOk result (λ done. Applied self.old caller call.now done events.old.items events.new.items self.new) }
        ensures outside { (p : AnyPart) → reach self.old caller call.now p ≡ false → part_of self.new p ≡ part_of self.old p }
        ensures stays { OnErr result (self.new ≡ self.old) }
        ensures quiet { OnErr result (events.new ≡ events.old) }
    {
        self.rig.wish_for(wishes);
        let publishes = would_publish_in(self.rig.all(), &self.shape, call);
        if let Some(spent) = barred_by(&self.shape, self.length, self.publications, publishes) {
            return Err(spent);
        }
        match step_on(&mut self.rig, &self.shape, caller, call, events) {
            Err(_) => unreachable!(),
            Ok(reply) => {
                calls_are_typed(call);
                let at = self.length;
                self.length += 1;
                if publishes {
                    self.publications += 1;
                    self.rig.publish(self.shape.tick);
                }
                Ok(Done { reply, at })
            }
        }
    }

    /// What an `Ack` by the processor would answer now. Nothing changes.
    pub fn due(&self, cpu: u16) -> Due
        requires { cpu < self.now.shape.cpus }
        ensures { (ws : Wishes) → AnswersDue self.now cpu result ws }
    {
        due_in_hand(self.rig.all(), cpu)
    }

    /// The vectors that are requested of the processor's local APIC: its IRR (SDM volume 3). It takes no memory.
    pub fn requests(&self, cpu: u16) -> Set256
        requires { cpu < self.now.shape.cpus }
        ensures { result ≡ (part_of self.now (Lapic cpu)).irr }
    {
        requests_in_hand(self.rig.all(), cpu)
    }

    /// Whether an NMI is pending at the processor's local APIC, which its next `Ack` would take.
    pub fn nmi(&self, cpu: u16) -> bool
        requires { cpu < self.now.shape.cpus }
        ensures { result ≡ (part_of self.now (Lapic cpu)).nmi }
    {
        nmi_in_hand(self.rig.all(), cpu)
    }

    /// All its parts, to be read. They fit its shape.
    pub fn parts(&self) -> &Parts
        ensures parts { parts_of result.now ≡ all_parts self.now }
        ensures whole { IsWhole self.now.shape (parts_of result.now) }
        ensures fits { Fits self.now.shape (parts_of result.now) (chips_of result.now) }
    {
        self.rig.all()
    }

    /// All its parts, which fit its shape, and the words that it publishes.
    pub fn into_parts(self) -> (Parts, Words)
        ensures parts { parts_of result.0 ≡ all_parts self }
        ensures whole { IsWhole self.shape (parts_of result.0) }
        ensures made { board_of self.shape (parts_of result.0) self.length self.publications ≡ self }
        ensures fits { Fits self.shape (parts_of result.0) (chips_of result.0) }
        ensures words { words_in result.1 ≡ published self.registry self.shape.tick }
    {
        self.rig.into_parts()
    }

    /// The board that has these parts, after so many calls and so many publications. The words are those of its registry. It
    /// takes no memory.
    pub fn of_parts(
        shape: &Shape,
        parts: Parts,
        words: Words,
        length: u64,
        publications: u32,
    ) -> Board
        requires whole { IsWhole shape.now (parts_of parts) }
        requires fits { Fits shape.now (parts_of parts) (chips_of parts) }
        requires sound { IsSound (board_of shape.now (parts_of parts) length publications) }
        requires words { words_in words ≡ published (board_of shape.now (parts_of parts) length publications).registry shape.now.tick }
        ensures { result ≡ board_of shape.now (parts_of parts) length publications }
    {
        Board {
            shape: *shape,
            rig: BoardRig::new(parts, words),
            length,
            publications,
        }
    }
}
