//! A gate that shows whether two connections are served at the same time.

ghost use Rattle.std.specs.Prelude.{◌≡◌, IfOk};

use crate::Gate;
use std::alloc::Global;
use std::sync::Arc;
use std::sync::atomic::{AtomicU64, Ordering};
use std::thread;
use voe_values::NoMemory;

// What all gates made of one share: whether call 1 has passed, and whether call 0 gave up waiting for it.
#[derive(Drop)]
struct Shared {
    passed: AtomicU64,
    failed: AtomicU64,
}

/// Holds the connection with number 0 until the one with number 1 has passed, or until it has looked for that `looks`
/// times, and lets other threads run after each look. All others pass at once.
#[derive(Drop)]
pub struct HoldGate {
    looks: u32,
    shared: Arc<Shared, Global>,
}

impl HoldGate {
    ghost use Rattle.voe_outside.specs.HoldGate.{looks_of};

    /// A gate at which nothing has passed.
    pub fn new(alloc: Global, looks: u32) -> Result<HoldGate, NoMemory>
        ensures { IfOk result (λ gate. looks_of gate ≡ looks) }
    {
        let shared = Arc::new(
            alloc,
            Shared {
                passed: AtomicU64::new(0),
                failed: AtomicU64::new(0),
            },
        )?;
        Ok(HoldGate { looks, shared })
    }

    /// Whether number 0 spent its looks and found no number 1, at this gate or at one that shares its state.
    pub fn failed(&self) -> bool {
        self.shared.failed.load(Ordering::SeqCst) != 0
    }

    fn hold(&self) {
        for _ in 0..self.looks {
            if self.shared.passed.load(Ordering::SeqCst) != 0 {
                return;
            }
            thread::yield_now();
        }
        self.shared.failed.store(1, Ordering::SeqCst);
    }
}

impl Gate for HoldGate {
    ghost use Rattle.voe_outside.specs.HoldGate.{looks_of};

    fn pass(&self, call: u32) {
        match call {
            0 => self.hold(),
            1 => self.shared.passed.store(1, Ordering::SeqCst),
            _ => {}
        }
    }

    fn another(&self) -> Result<Self, NoMemory>
        ensures { IfOk result (λ gate. looks_of gate ≡ looks_of self.now) }
    {
        let shared = Arc::try_clone(&self.shared)?;
        Ok(HoldGate {
            looks: self.looks,
            shared,
        })
    }
}
