//! Ticks are asked of a face.
ghost use Rattle.std.specs.Prelude.{◌≡◌, ◌+◌, ◌<◌, ◌≤◌, ◌^◌, IfErr, IfSome, IfOk, OnErr, OnOk};
ghost use Rattle.face_asks.specs.Asks.{limit_in, StopTold};
ghost use Rattle.irq_base.specs.declared.call.Call.TheVariants.{Tick};
ghost use Rattle.pit_8254.specs.Asks.{answered, limit_of, one_in, HasTicked};
ghost use Rattle.pit_8254.specs.Channels.{IsChannel};
ghost use Rattle.pit_8254.specs.Clocks.{after_clocks, channel_after, channel_ticks, ticks_within, CountStandsBefore, IsCounting, StandsBefore};

use crate::channel::Channel;
use crate::countdown::Countdown;
use face_asks::ask_as_any;
use irq_base::{Call, Events, Face, Spent};

/// A limit of the board barred a tick: how many ticks were answered before it, and the limit.
#[derive(Clone, Copy, Debug, PartialEq, Eq)]
pub struct PitSpent {
    pub ticks: u64,
    pub spent: Spent,
}

// Asks one tick.
#[tactic(auto, using(crate::proofs::Asking::ask_rules))]
fn ask_tick<F: Face>(face: &mut F, events: &mut Events) -> Result<(), Spent>
    ensures asked { HasTicked F.Face (one_in result) (limit_in result) face.old face.new events.old.items events.new.items }
    ensures stops { StopTold F.Face (limit_in result) face.old face.new }
    ensures barred { IfErr result (λ spent. F.barred face.new Tick spent) }
    ensures none_left { OnErr result (IfSome (F.left face.old) (λ left. left ≡ 0)) }
{
    match ask_as_any(face, &Call::Tick, events) {
        Ok(_) => Ok(()),
        Err(spent) => Err(spent),
    }
}

impl Countdown {
    /// So many clocks go by: each tick that falls is asked of the face. Where a limit bars one, the count stands one clock before it.
    pub fn advance<F: Face>(
        &mut self,
        clocks: u64,
        face: &mut F,
        events: &mut Events,
    ) -> Result<u64, PitSpent>
        requires counting { IsCounting self.old }
        ensures counting { IsCounting self.new }
        ensures after { OnOk result (self.new ≡ after_clocks clocks self.old) }
        ensures ticks { IfOk result (λ n. n ≡ ticks_within clocks self.old) }
        ensures stands { IfErr result (λ stop. CountStandsBefore clocks stop.ticks self.old self.new) }
        ensures asked { HasTicked F.Face (answered result) (limit_of result) face.old face.new events.old.items events.new.items }
        ensures stops { StopTold F.Face (limit_of result) face.old face.new }
        ensures barred { IfErr result (λ stop. F.barred face.new Tick stop.spent) }
        ensures none_left { IfErr result (λ stop. IfSome (F.left face.old) (λ left. left ≤ stop.ticks)) }
    {
        let mut left = clocks;
        let mut ticks = 0u64;
        while let Some(gap) = self.tick_within(left) {
            self.wait(gap - 1);
            if let Err(spent) = ask_tick(face, events) {
                return Err(PitSpent { ticks, spent });
            }
            self.tick();
            left -= gap;
            ticks += 1;
        }
        self.wait(left);
        Ok(ticks)
    }
}

impl Channel {
    /// So many clocks go by: each tick that falls is asked of the face. Where a limit bars one, the channel stands one clock before it.
    pub fn advance<F: Face>(
        &mut self,
        clocks: u64,
        face: &mut F,
        events: &mut Events,
    ) -> Result<u64, PitSpent>
        requires sound { IsChannel self.old }
        ensures sound { IsChannel self.new }
        ensures after { OnOk result (self.new ≡ channel_after clocks self.old) }
        ensures ticks { IfOk result (λ n. n ≡ channel_ticks clocks self.old) }
        ensures stands { IfErr result (λ stop. StandsBefore clocks stop.ticks self.old self.new) }
        ensures asked { HasTicked F.Face (answered result) (limit_of result) face.old face.new events.old.items events.new.items }
        ensures stops { StopTold F.Face (limit_of result) face.old face.new }
        ensures barred { IfErr result (λ stop. F.barred face.new Tick stop.spent) }
        ensures none_left { IfErr result (λ stop. IfSome (F.left face.old) (λ left. left ≤ stop.ticks)) }
    {
        let Some(mut run) = self.run else {
            return Ok(0);
        };
        let answer = run.advance(clocks, face, events);
        self.run = Some(run);
        answer
    }
}
