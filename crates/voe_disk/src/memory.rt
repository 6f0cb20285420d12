//! A disk in memory.

ghost use Rattle.std.specs.Prelude.{◌≡◌, ◌^◌, ◌<◌, ℕ, length, Some, None, refl};
ghost use Rattle.voe_disk.specs.Disk.{IsDurable};
ghost use Rattle.voe_disk.specs.Surface.{IsImage, filled};
ghost use Rattle.voe_disk.specs.Images.{bytes_are_image, filled_is_image};
ghost use Rattle.voe_disk.specs.Trace.{IsLater, LeftBetween};
ghost use Rattle.voe_disk.specs.Laws.{later_itself, later_on, one_moment_alone, first_is_left, last_is_left, split_between, join_between};
ghost use Rattle.voe_disk.specs.Contents.{surface_of, trace_of, room_of};
ghost use Rattle.voe_disk.specs.Schedule.{arming_of, failing_of};
ghost use Rattle.voe_disk.specs.Runs.{IsFresh};
ghost use Rattle.voe_disk.specs.Reserved.{OnlyReserved, reserved_itself, reserved_again};

use crate::contents::Contents;
use crate::schedule::Schedule;
use crate::{CrashDisk, Disk, DiskFail};
use std::alloc::Global;
use voe_values::{Bytes, NoMemory};

/// A disk in memory. It tells its bytes, what a crash may leave, what a crash leaves exactly, and which calls fail.
/// It keeps a record of its writes since the last crash.
#[derive(Drop)]
pub struct MemoryDisk {
    contents: Contents,
    schedule: Schedule,
}

impl MemoryDisk {
    /// A disk with these bytes, all of them synced. Its device calls are numbered from 0, and those that have one of
    /// these numbers fail.
    pub fn new(alloc: Global, bytes: Bytes, fails: Bytes) -> Self
        ensures { IsFresh ⟦<MemoryDisk as Disk>⟧ result bytes fails }
    {
        MemoryDisk {
            contents: Contents::new(alloc, bytes),
            schedule: Schedule::new(fails),
        }
    }

    /// What a read gives.
    pub fn bytes(&self) -> &[u8]
        ensures { Some result.now ≡ ⟦<MemoryDisk as Disk>⟧.reads self.now }
    {
        self.contents.bytes()
    }
}

impl Disk for MemoryDisk {
    ghost reads = { λ d. Some (surface_of d.contents).bytes };

    ghost tells_images = { λ d. Unit {0} };

    ghost may_leave = { λ d. IsImage (surface_of d.contents) };

    ghost is_since = { λ first last. IsLater (trace_of first.contents) (trace_of last.contents) };

    ghost left_since = { λ first last. LeftBetween (trace_of first.contents) (trace_of last.contents) };

    ghost crash_image = { λ d fill. Some (filled fill (surface_of d.contents).unsynced (surface_of d.contents).bytes) };

    ghost arming = { λ d. arming_of d.schedule };

    ghost room = { λ d. room_of d.contents };

    ghost faults = { λ d. d.schedule.faults };

    ghost failing = { λ d. Some (failing_of d.schedule) };

    ghost only_reserved = { OnlyReserved };

    ghost images_told = { λ d image now. tt };

    ghost reading_counts = { λ d bytes told is. bytes_are_image (surface_of d.contents) bytes d.contents.synced_within is };

    ghost exact_counts = { λ d fill image is. filled_is_image (surface_of d.contents) fill image d.contents.synced_within is };

    ghost since_itself = { λ d. later_itself (trace_of d.contents) };

    ghost since_earlier = { λ first second third one two. later_on (trace_of first.contents) (trace_of second.contents) (trace_of third.contents) one two };

    ghost one_moment = { λ d image left. one_moment_alone (trace_of d.contents) image left };

    ghost first_counts = { λ first last image later now. first_is_left (trace_of first.contents) (trace_of last.contents) image later now };

    ghost last_counts = { λ first last image later now. last_is_left (trace_of first.contents) (trace_of last.contents) image later now };

    ghost splits = { λ first second third image one two left. split_between (trace_of first.contents) (trace_of second.contents) (trace_of third.contents) image one two left };

    ghost joins = { λ first second third image one two left. join_between (trace_of first.contents) (trace_of second.contents) (trace_of third.contents) image one two left };

    ghost reserved_itself = { reserved_itself };

    ghost reserved_again = { reserved_again };

    fn size(&mut self) -> Result<u64, DiskFail> {
        self.schedule.begin_read()?;
        Ok(self.contents.bytes().len() as u64)
    }

    fn read_at(&mut self, place: u64, buf: &mut [u8]) -> Result<(), DiskFail> {
        self.schedule.begin_read()?;
        let place = place as usize;
        buf.copy_from_slice(&self.contents.bytes()[place..place + buf.len()]);
        Ok(())
    }

    fn write_at(&mut self, place: u64, piece: &[u8]) -> Result<(), DiskFail> {
        self.schedule.begin_write()?;
        self.contents.write(place, piece);
        Ok(())
    }

    fn sync(&mut self) -> Result<(), DiskFail> {
        self.schedule.begin_write()?;
        self.contents.sync();
        Ok(())
    }

    fn reserve(&mut self, end: u64, calls: u64, bytes: u64) -> Result<(), NoMemory> {
        match self.contents.reserve(end, calls, bytes) {
            Ok(()) => Ok(()),
            Err(_) => Err(NoMemory),
        }
    }

    fn faults(&self) -> u64 {
        self.schedule.faults
    }
}

impl CrashDisk for MemoryDisk {
    ghost tells = { λ d. refl };

    ghost tells_all = { λ d. tt };

    fn arm(&mut self, calls: u8, fill: u8) {
        self.schedule.stops_after = Some(calls);
        self.schedule.fill = fill;
    }

    fn crash(&mut self) {
        self.contents.crash(self.schedule.fill);
        self.schedule.stops_after = None;
    }
}
