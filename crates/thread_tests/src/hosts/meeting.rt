// A gate at which two hosts wait for each other.
use std::sync::atomic::{AtomicBool, Ordering};
use std::thread;
use vol_base::{Gate, HostNo};

// How often a host looks at most.
const LOOKS: u64 = 100_000_000;

/// Host 0 is held before its turn 3 until host 1 comes to its turn 7, and host 1 before its turn 1
/// until host 0 comes to its turn 3. Who has looked in vain notes it and goes on.
#[derive(Drop)]
pub struct Meeting {
    first_came: AtomicBool,
    second_came: AtomicBool,
    missed: AtomicBool,
}

impl Meeting {
    pub fn new() -> Meeting {
        Meeting {
            first_came: AtomicBool::new(false),
            second_came: AtomicBool::new(false),
            missed: AtomicBool::new(false),
        }
    }

    /// Whether both came, and neither had looked in vain.
    pub fn was_held(&self) -> bool {
        let came = self.first_came.load(Ordering::SeqCst)
            && self.second_came.load(Ordering::SeqCst);
        came && !self.missed.load(Ordering::SeqCst)
    }

    fn wait_for(&self, came: &AtomicBool) {
        for look in 0..LOOKS {
            if came.load(Ordering::SeqCst) {
                return;
            }
            if look % 1024 == 0 {
                thread::yield_now();
            }
        }
        self.missed.store(true, Ordering::SeqCst);
    }
}

impl Gate for Meeting {
    fn pass(&self, host: HostNo, turn: u64) {
        match (host, turn) {
            (0, 3) => {
                self.first_came.store(true, Ordering::SeqCst);
                self.wait_for(&self.second_came);
            }
            (1, 1) => self.wait_for(&self.first_came),
            (1, 7) => self.second_came.store(true, Ordering::SeqCst),
            _ => {}
        }
    }
}
