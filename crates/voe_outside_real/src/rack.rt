//! The rack of the program: disks in memory for trials, and a file.

ghost use Rattle.std.specs.Prelude.{◌≡◌, ◌<◌, ℕ, [], IsSome, Some, IfOk, refl};
ghost use Rattle.voe_disk.specs.Runs.{IsFresh};
ghost use Rattle.voe_disk.specs.Stops.{none_beyond};

use std::alloc::Global;
use std::fs::File;
use std::rt::Files;
use voe_disk::{Disk, FileDisk, MemoryDisk, MemoryRack, Rack};
use voe_values::{NoMemory, Text};

/// Sixty-four empty disks in memory, and the file of a node's journal.
#[derive(Drop)]
pub struct FileRack<R: Files<File = File> + Drop> {
    trials: MemoryRack,
    real: Option<FileDisk<R>>,
}

impl<R: Files<File = File> + Drop> FileRack<R> {
    /// Empty disks, and the file at this path, which is opened at its first call.
    pub fn new(rt: R, alloc: Global, path: Text) -> Result<FileRack<R>, NoMemory>
        ensures trials { IfOk result (λ rack. (k : ℕ) → k < 64 → (disk : _) × (⟦<FileRack<R> as Rack>⟧.trial rack k ≡ Some disk) × IsFresh ⟦<MemoryDisk as Disk>⟧ disk [] []) }
        ensures real { IfOk result (λ rack. IsSome (⟦<FileRack<R> as Rack>⟧.real rack)) }
    {
        Ok(FileRack {
            trials: MemoryRack::new(alloc)?,
            real: Some(FileDisk::new(rt, path)),
        })
    }
}

impl<R: Files<File = File> + Drop> Rack for FileRack<R> {
    type Trial = MemoryDisk;

    type Real = FileDisk<R>;

    ghost trial = { λ rack k. ⟦<MemoryRack as Rack>⟧.trial rack.trials k };

    ghost real = { λ rack. rack.real };

    ghost none_past = { λ rack k past. none_beyond rack.trials.trials.items k rack.trials.count past };

    ghost unarmed = { λ rack k disk is. rack.trials.trials_unarmed k disk is };

    ghost real_unarmed = { λ rack disk is. refl };

    fn lend(&mut self, k: u8) -> Option<MemoryDisk> {
        self.trials.lend(k)
    }

    fn put_back(&mut self, k: u8, disk: MemoryDisk) {
        self.trials.put_back(k, disk);
    }

    fn lend_real(&mut self) -> Option<FileDisk<R>> {
        self.real.take()
    }

    fn put_back_real(&mut self, disk: FileDisk<R>) {
        self.real = Some(disk);
    }
}
