//! What starts a job.

ghost use Rattle.std.specs.Prelude.{◌≡◌, ℕ};
ghost use Rattle.voe_outside.specs.Causes.{count_after};
ghost use Rattle.voe_outside.specs.Start.{is_begun, is_failed};

use crate::Start;

/// Work that is done once.
pub trait Job {
    /// Does it.
    fn run(self);
}

/// Starts jobs of one type, each perhaps in a thread of its own.
pub trait Spawner<J: Job + Drop + Send + 'static> {
    /// How often a job could not be started, up to the end of the counter.
    ghost fault_count: { Self → ℕ };

    /// How many jobs were started, up to the end of the counter.
    ghost begin_count: { Self → ℕ };

    /// Starts a job. One that could not be started is dropped.
    fn start(&mut self, job: J) -> Start
        ensures faults { fault_count self.new ≡ count_after (fault_count self.old) (is_failed result) }
        ensures begun { begin_count self.new ≡ count_after (begin_count self.old) (is_begun result) };

    /// How often a job could not be started, up to 2^64 - 1.
    fn faults(&self) -> u64
        ensures { result ≡ fault_count self.now };

    /// How many jobs were started, up to 2^64 - 1.
    fn begun(&self) -> u64
        ensures { result ≡ begin_count self.now };
}
