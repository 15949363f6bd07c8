//! A gate at which two actors meet.
use io_edge::Gate;
use std::hint;
use std::sync::atomic::{AtomicBool, Ordering};

// How often a hold looks before it gives up.
const TURNS: u32 = 1_000_000_000;

/// Holds the first actor before its first call until the second is behind its first call, and the second there until the first is
/// behind its own: both are in the middle of their lines at once. A hold that ends by its turns is noted, so that actors that run one
/// after another leave a note.
#[derive(Drop)]
pub struct Meeting {
    first: AtomicBool,
    second: AtomicBool,
    noted: AtomicBool,
}

impl Meeting {
    pub fn new() -> Meeting {
        Meeting {
            first: AtomicBool::new(false),
            second: AtomicBool::new(false),
            noted: AtomicBool::new(false),
        }
    }

    // Waits until the other has come.
    fn hold(&self, other: &AtomicBool) {
        for _ in 0..TURNS {
            if other.load(Ordering::SeqCst) {
                return;
            }
            hint::spin_loop();
        }
        self.noted.store(true, Ordering::SeqCst);
    }

    /// Whether a hold ended by its turns.
    pub fn has_note(&self) -> bool {
        self.noted.load(Ordering::SeqCst)
    }
}

impl Gate for Meeting {
    fn at(&self, actor: u32, turn: u64) {
        match (actor, turn) {
            (0, 0) => self.hold(&self.second),
            (0, 1) => self.first.store(true, Ordering::SeqCst),
            (1, 1) => {
                self.second.store(true, Ordering::SeqCst);
                self.hold(&self.first);
            }
            _ => {}
        }
    }
}
