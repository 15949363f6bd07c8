//! A count that runs.
ghost use Rattle.std.specs.Prelude.{◌≡◌, ◌+◌, ◌<◌, ◌≤◌, true, IfSome, IfNone};
ghost use Rattle.pit_8254.specs.Clocks.{after_clocks, clocked, due, ticks_next, IsCounting};

use crate::words::PitMode;

/// A count that runs: the mode that it was loaded in, the count from 1 to 65,536, the clocks since the load, and the count that takes its
/// place at the next tick, if there is one.
#[derive(Clone, Copy)]
pub struct Countdown {
    pub mode: PitMode,
    pub count: u32,
    pub elapsed: u32,
    pub next: Option<u32>,
}

impl Countdown {
    /// A count that is loaded now.
    pub fn loaded(mode: PitMode, count: u32) -> Countdown
        requires low { 0 < count }
        requires high { count ≤ 65536 }
        ensures value { result ≡ record { mode = mode; count = count; elapsed = 0; next = None } }
        ensures counting { IsCounting result }
    {
        Countdown {
            mode,
            count,
            elapsed: 0,
            next: None,
        }
    }

    // The clocks since the load at which a tick falls.
    fn due(&self) -> u32
        requires { IsCounting self.now }
        ensures { result ≡ due self.now }
    {
        match self.mode {
            PitMode::RateGenerator | PitMode::SquareWave => self.count,
            PitMode::TerminalCount | PitMode::SoftwareStrobe => self.count + 1,
        }
    }

    /// How many clocks there are to the next tick, where it falls in so many clocks.
    pub fn tick_within(&self, clocks: u64) -> Option<u64>
        requires { IsCounting self.now }
        ensures some { IfSome result (λ n. (0 < n) × (n ≤ clocks) × (self.now.elapsed + n ≡ due self.now)) }
        ensures none { IfNone result (self.now.elapsed < due self.now → self.now.elapsed + clocks < due self.now) }
    {
        let due = self.due();
        if self.elapsed >= due {
            return None;
        }
        let gap = u64::from(due - self.elapsed);
        if gap <= clocks { Some(gap) } else { None }
    }

    /// So many clocks go by, in which no tick falls.
    pub fn wait(&mut self, clocks: u64)
        requires counting { IsCounting self.old }
        requires quiet { self.old.elapsed < due self.old → self.old.elapsed + clocks < due self.old }
        ensures after { self.new ≡ after_clocks clocks self.old }
        ensures counting { IsCounting self.new }
    {
        if self.elapsed < self.due() {
            self.elapsed += clocks as u32;
        }
    }

    /// The clock goes by in which a tick falls.
    pub fn tick(&mut self)
        requires counting { IsCounting self.old }
        requires ticks { ticks_next self.old ≡ true }
        ensures after { self.new ≡ clocked self.old }
        ensures counting { IsCounting self.new }
    {
        if self.mode.is_periodic() {
            self.count = self.next.unwrap_or(self.count);
            self.elapsed = 0;
            self.next = None;
        } else {
            self.elapsed += 1;
        }
    }
}
