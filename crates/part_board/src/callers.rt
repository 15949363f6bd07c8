//! A set of callers.
ghost use Rattle.std.specs.Prelude.{◌≡◌, ◌&&◌, ◌||◌, not, true, false, MatchOption};
ghost use Rattle.irq_base.specs.declared.call.Caller.{Caller as AnyCaller};
ghost use Rattle.part_slots.specs.Callers.{is_caller};
ghost use Rattle.part_board.specs.Callers.{has_caller, is_small, IsFirst};

use irq_base::Caller;
use irq_bits::CpuSet;

/// A set of devices below `MAX_DEVICES` and processors below `MAX_CPUS`.
#[derive(Drop)]
pub struct Callers {
    pub cpus: CpuSet,
    pub devices: CpuSet,
}

impl Callers {
    /// The set with nobody in it.
    pub fn none() -> Callers
        ensures { (c : AnyCaller) → has_caller result c ≡ false }
    {
        Callers {
            cpus: CpuSet::empty(),
            devices: CpuSet::empty(),
        }
    }

    /// Whether the caller is in the set.
    pub fn has(&self, caller: Caller) -> bool
        ensures { result ≡ has_caller self.now caller }
    {
        match caller {
            Caller::Cpu(n) => self.cpus.has(n),
            Caller::Device(d) => self.devices.has(d),
        }
    }

    /// Puts the caller into the set.
    pub fn insert(&mut self, caller: Caller)
        requires { is_small caller ≡ true }
        ensures { (c : AnyCaller) → has_caller self.new c ≡ (is_caller c caller || has_caller self.old c) }
    {
        match caller {
            Caller::Cpu(n) => self.cpus.insert(n),
            Caller::Device(d) => self.devices.insert(d),
        }
    }

    /// Takes the caller out of the set.
    pub fn remove(&mut self, caller: Caller)
        ensures { (c : AnyCaller) → has_caller self.new c ≡ (not (is_caller c caller) && has_caller self.old c) }
    {
        match caller {
            Caller::Cpu(n) => self.cpus.remove(n),
            Caller::Device(d) => self.devices.remove(d),
        }
    }

    /// The first caller of the set: processors come before devices, and lesser numbers before greater ones.
    pub fn first(&self) -> Option<Caller>
        ensures { MatchOption result ((c : AnyCaller) → has_caller self.now c ≡ false) (IsFirst (has_caller self.now)) }
    {
        match self.cpus.least() {
            Some(n) => Some(Caller::Cpu(n)),
            None => match self.devices.least() {
                Some(d) => Some(Caller::Device(d)),
                None => None,
            },
        }
    }
}
