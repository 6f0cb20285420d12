//! A reader of std as a source.
ghost use Rattle.std.specs.Prelude.{None};

use crate::retry::read_again;
use std::io::Read;
use voe_outside::{Got, Source};

/// Any reader of std, as standard input, with a count of its failures.
#[derive(Drop)]
pub struct Reading<R> {
    reader: R,
    faults: u64,
}

impl<R: Read> Reading<R> {
    ghost use Rattle.std.specs.Prelude.{◌≡◌};
    ghost use Rattle.voe_outside_real.specs.Reading.{reading_faults};

    pub fn new(reader: R) -> Self
        ensures { reading_faults result ≡ 0 }
    {
        Reading { reader, faults: 0 }
    }
}

impl<R: Read> Source for Reading<R> {
    ghost left = { λ _. None };

    ghost fault_count = { λ s. s.faults };

    fn read(&mut self, buf: &mut [u8]) -> Got {
        match read_again(&mut self.reader, buf) {
            Ok(0) => Got::End,
            Ok(count) => Got::Took(count),
            Err(_) => {
                self.faults = self.faults.saturating_add(1);
                Got::Failed
            }
        }
    }

    fn faults(&self) -> u64 {
        self.faults
    }
}
