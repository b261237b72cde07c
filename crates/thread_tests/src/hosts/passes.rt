// A gate that counts.
use std::sync::atomic::{AtomicBool, AtomicU64, Ordering};
use vol_base::{Gate, HostNo};

/// How often each of two hosts passed, and whether a turn came out of its order.
#[derive(Drop)]
pub struct Passes {
    first: AtomicU64,
    second: AtomicU64,
    disorder: AtomicBool,
}

impl Passes {
    pub fn new() -> Passes {
        Passes {
            first: AtomicU64::new(0),
            second: AtomicU64::new(0),
            disorder: AtomicBool::new(false),
        }
    }

    pub fn counts(&self) -> (u64, u64) {
        (
            self.first.load(Ordering::SeqCst),
            self.second.load(Ordering::SeqCst),
        )
    }

    pub fn in_order(&self) -> bool {
        !self.disorder.load(Ordering::SeqCst)
    }
}

impl Gate for Passes {
    fn pass(&self, host: HostNo, turn: u64) {
        let count = if host == 0 { &self.first } else { &self.second };
        if host > 1 || count.fetch_add(1, Ordering::SeqCst) != turn {
            self.disorder.store(true, Ordering::SeqCst);
        }
    }
}
