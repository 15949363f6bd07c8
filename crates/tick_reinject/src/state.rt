//! The state of tick reinjection.
ghost use Rattle.std.specs.Prelude.{◌≡◌, ◌^◌, ◌≤◌, true};
ghost use Rattle.tick_reinject.specs.Ticks.{in_mode, ticked, tick_injects, tick_acked, ack_injects, tick_injected};

use irq_base::Status;

/// Whether ticks are reinjected, how many wait for their acknowledge, and whether the next may be injected at once.
#[derive(Drop)]
pub struct TickState {
    reinjects: bool,
    pending: u64,
    free: bool,
}

impl TickState {
    /// Reinjecting, with nothing pending, and free.
    pub fn power_on() -> TickState
        ensures { result ≡ in_mode true }
    {
        TickState {
            reinjects: true,
            pending: 0,
            free: true,
        }
    }

    /// A tick falls: tells whether it is injected now. At most 2^40 are pending before.
    pub fn tick(&mut self) -> bool
        requires { self.old.pending ≤ 2 ^ 40 }
        ensures value { result ≡ tick_injects self.old }
        ensures after { self.new ≡ ticked self.old }
    {
        if !self.reinjects {
            return true;
        }
        self.pending += 1;
        self.free
    }

    /// A tick's interrupt is acknowledged: tells whether another is injected now.
    pub fn acked(&mut self) -> bool
        ensures value { result ≡ ack_injects self.old }
        ensures after { self.new ≡ tick_acked self.old }
    {
        if !self.reinjects {
            return false;
        }
        self.free = true;
        let injects = self.pending > 1;
        self.pending = self.pending.saturating_sub(1);
        injects
    }

    /// A tick was injected, with this status.
    pub fn injected(&mut self, status: &Status)
        ensures { self.new ≡ tick_injected self.old status.now }
    {
        if self.reinjects {
            self.free = matches!(status, Status::Ignored(_));
        }
    }

    /// Turns reinjection on or off; nothing is pending then, and the state is free.
    pub fn set_mode(&mut self, reinject: bool)
        ensures { self.new ≡ in_mode reinject }
    {
        self.reinjects = reinject;
        self.pending = 0;
        self.free = true;
    }

    /// How many ticks are pending.
    pub fn pending(&self) -> u64
        ensures { result ≡ self.now.pending }
    {
        self.pending
    }

    /// The same state once more.
    pub fn copy(&self) -> TickState
        ensures { result ≡ self.now }
    {
        TickState {
            reinjects: self.reinjects,
            pending: self.pending,
            free: self.free,
        }
    }

    /// Makes the state equal to the other.
    pub fn copy_from(&mut self, other: &TickState)
        ensures { self.new ≡ other.now }
    {
        self.reinjects = other.reinjects;
        self.pending = other.pending;
        self.free = other.free;
    }
}
