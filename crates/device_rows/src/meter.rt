//! A face that counts what is asked of it.
ghost use Rattle.std.specs.Prelude.{◌≡◌, ◌+◌, ◌-◌, ◌^◌, ◌≤◌};
ghost use Rattle.irq_base.specs.declared.call.Caller.TheVariants.{Device};

use irq_base::{Call, Caller, Done, Events, Face, Reply, Spent, Stops};

/// A device's face: how many calls it answers, how many of them it has answered, how many of those were ticks, and the calls that it
/// has barred.
#[derive(Drop)]
pub struct Meter {
    pub calls: u64,
    pub asked: u64,
    pub ticks: u64,
    pub stops: Stops,
    ghost within: { asked ≤ calls },
    ghost ticked: { ticks ≤ asked },
}

impl Meter {
    /// A face that answers so many calls.
    pub fn of(calls: u64) -> Meter
        ensures calls { result.calls ≡ calls }
        ensures asked { result.asked ≡ 0 }
    {
        Meter {
            calls,
            asked: 0,
            ticks: 0,
            stops: Stops::none(),
        }
    }
}

impl Face for Meter {
    ghost use Rattle.std.specs.Prelude.{Some, None};
    ghost use Rattle.irq_base.specs.declared.reply.Spent.TheVariants.{Calls};

    ghost shape = { λ _. record { cpus = 1; counters = 0; tick = 0; calls = 0; publications = 0 } };

    ghost who = { λ _. Device 7 };

    ghost floor = { λ f. f.asked };

    ghost stops = { λ f. f.stops.count };

    ghost last = { λ f. f.stops.last };

    ghost own = { λ _. None };

    ghost home = { λ _. None };

    ghost left = { λ f. Some (f.calls - f.asked) };

    ghost barred = { λ f _ spent. (f.calls ≡ f.asked) × (spent ≡ Calls f.asked) };

    ghost keeps = { λ f _ _ _ g. f.asked ≤ g.asked };

    fn caller(&self) -> Caller {
        Caller::Device(7)
    }

    fn ask(&mut self, call: &Call, events: &mut Events) -> Result<Done, Spent> {
        events.clear();
        if self.asked == self.calls {
            let spent = Spent::Calls { at: self.asked };
            self.stops.stop(spent);
            return Err(spent);
        }
        let at = self.asked;
        if matches!(call, Call::Tick) {
            self.ticks += 1;
        }
        self.asked += 1;
        Ok(Done {
            reply: Reply::Done,
            at,
        })
    }
}
