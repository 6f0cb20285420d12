//! A writer of std as a sink.
ghost use Rattle.std.specs.Prelude.{None, ◌-◌, ◌^◌};

use crate::retry::write_again;
use std::io::Write;
use voe_outside::{Put, Sink};
use voe_values::NoMemory;

/// Any writer of std, as standard output, with a count of its failures. A write that takes nothing is one.
#[derive(Drop)]
pub struct Writing<W> {
    writer: W,
    faults: u64,
}

impl<W: Write> Writing<W> {
    ghost use Rattle.std.specs.Prelude.{◌≡◌};
    ghost use Rattle.voe_outside_real.specs.Writing.{writing_faults};

    pub fn new(writer: W) -> Self
        ensures { writing_faults result ≡ 0 }
    {
        Writing { writer, faults: 0 }
    }
}

impl<W: Write> Sink for Writing<W> {
    ghost held = { λ _. None };

    ghost spare = { λ _. 2 ^ 64 - 1 };

    ghost fault_count = { λ s. s.faults };

    fn write(&mut self, piece: &[u8]) -> Put {
        match write_again(&mut self.writer, piece) {
            Ok(count) if count > 0 => Put::Took(count),
            _ => {
                self.faults = self.faults.saturating_add(1);
                Put::Failed
            }
        }
    }

    fn reserve(&mut self, _bytes: usize) -> Result<(), NoMemory> {
        Ok(())
    }

    fn faults(&self) -> u64 {
        self.faults
    }
}
