//! Whom an answer of the board concerns, and where these sleep.

use irq_base::{Event, Events, Reply, Status};
use std::sync::Wait;
use std::sync::atomic::{AtomicU64, Ordering};
use std::thread::Parker;

/// Where the threads of the monitor sleep: each processor, and each device by the counter that it waits for. A ring that comes before
/// the sleep ends it at once, so that none is lost.
#[derive(Drop)]
pub struct Bells {
    cpus: [Parker; 2],
    counters: [Parker; 5],
    // how many devices are still at work
    working: AtomicU64,
}

impl Bells {
    /// Bells that nobody has rung, for so many devices.
    pub fn new(devices: u64) -> Bells {
        Bells {
            cpus: [Parker::new(), Parker::new()],
            counters: [
                Parker::new(),
                Parker::new(),
                Parker::new(),
                Parker::new(),
                Parker::new(),
            ],
            working: AtomicU64::new(devices),
        }
    }

    // Wakes a processor.
    fn wake_cpu(&self, cpu: u16) {
        if let Some(bell) = self.cpus.get(usize::from(cpu)) {
            bell.unpark();
        }
    }

    // Wakes the device that waits for a counter.
    fn wake_device(&self, counter: u16) {
        if let Some(bell) = self.counters.get(usize::from(counter)) {
            bell.unpark();
        }
    }

    // A signal names whom it newly concerns: the processors that newly have the request, and processor 0 where the 8259A pair has it.
    fn tell(&self, status: Status) {
        if let Status::Delivered { new, pic, .. } = status {
            for cpu in 0..2 {
                if new.has(cpu) || pic && cpu == 0 {
                    self.wake_cpu(cpu);
                }
            }
        }
    }

    // An event is a signal inside the call, or names a counter that was signalled.
    fn hear(&self, event: Event) {
        match event {
            Event::Injected { status, .. } | Event::Resent { status, .. } | Event::Ipi(status) => {
                self.tell(status);
            }
            Event::Resampled(counter) | Event::Watched(counter) | Event::Rang(counter) => {
                self.wake_device(counter);
            }
            Event::Acked { .. } => {}
        }
    }

    /// Wakes whom an answer concerns: its reply, and the events of its call.
    pub fn ring(&self, reply: Reply, events: &Events) {
        if let Reply::Signal(status) = reply {
            self.tell(status);
        }
        for event in events.as_slice() {
            self.hear(*event);
        }
    }

    /// A processor sleeps until it is woken.
    pub fn sleep<R: Wait>(&self, rt: &R, cpu: u16) {
        if let Some(bell) = self.cpus.get(usize::from(cpu)) {
            bell.park(rt);
        }
    }

    /// A device sleeps until the counter is signalled.
    pub fn wait_for<R: Wait>(&self, rt: &R, counter: u16) {
        if let Some(bell) = self.counters.get(usize::from(counter)) {
            bell.park(rt);
        }
    }

    /// A device is done. The last one wakes the processors, which then stop.
    pub fn leave(&self) {
        if self.working.fetch_sub(1, Ordering::SeqCst) == 1 {
            self.wake_cpu(0);
            self.wake_cpu(1);
        }
    }

    /// Whether all devices are done.
    pub fn is_quiet(&self) -> bool {
        self.working.load(Ordering::SeqCst) == 0
    }
}
