//! A disk that is a file. It tells nothing of its bytes.

ghost use Rattle.std.specs.Prelude.{◌≡◌, ◌^◌, ◌≤◌, None, Err, refl};
ghost use Rattle.std.proofs.Common.{inl};
ghost use Rattle.voe_disk.specs.Disk.{HasCause, Rose};
ghost use Rattle.voe_disk.specs.Untold.{none_is_not_some, either_absurd, equal_again};

use crate::{Disk, DiskFail};
use std::fs::{File, OpenOptions};
use std::io;
use std::os::unix::fs::FileExt;
use std::path::Path;
use std::rt::Files;
use voe_values::{NoMemory, Text};

/// A file as a disk. It is opened at the first call, made where it is missing, its folder is synced, and from then on
/// it is locked against every other opening of it until the disk is dropped. An opening that fails, or meets a lock, is
/// a `Fault`, and the next call tries again.
#[derive(Drop)]
pub struct FileDisk<R: Files<File = File> + Drop> {
    rt: R,
    path: Text,
    file: Option<File>,
    faults: u64,
}

impl<R: Files<File = File> + Drop> FileDisk<R> {
    /// The disk of the file at this path, which is not opened yet.
    pub fn new(rt: R, path: Text) -> Self
        ensures faults { ⟦<FileDisk<R> as Disk>⟧.faults result ≡ 0 }
        ensures unarmed { (⟦<FileDisk<R> as Disk>⟧.arming result).calls ≡ None }
    {
        FileDisk {
            rt,
            path,
            file: None,
            faults: 0,
        }
    }

    fn open(&mut self) -> Result<(), DiskFail>
        ensures not_stopped { result ≡ Err DiskFail.Stopped → ⊥ }
        ensures cause { HasCause self.old.faults self.new.faults result }
    {
        if self.file.is_some() {
            return Ok(());
        }
        match open_locked(&self.rt, self.path.as_str()) {
            Ok(file) => {
                self.file = Some(file);
                Ok(())
            }
            Err(_) => Err(self.count_fault()),
        }
    }

    fn count_fault(&mut self) -> DiskFail
        ensures which { result ≡ DiskFail.Fault }
        ensures later { self.old.faults ≤ self.new.faults }
        ensures rose { Rose self.old.faults self.new.faults }
    {
        self.faults = self.faults.saturating_add(1);
        DiskFail::Fault
    }
}

// The lock is the system's own on the open file. It ends where the file is closed, however the process ends.
fn open_locked<R: Files<File = File>>(rt: &R, path: &str) -> io::Result<File> {
    let mut options = OpenOptions::new();
    options.read(true).write(true).create(true);
    let file = options.open(rt, path)?;
    file.try_lock()?;
    sync_folder(rt, path)?;
    Ok(file)
}

// A file that was made here outlives a crash only once its folder is on the disk too.
fn sync_folder<R: Files<File = File>>(rt: &R, path: &str) -> io::Result<()> {
    let folder = match Path::new(path).parent() {
        Some(folder) if !folder.as_str().is_empty() => folder.as_str(),
        _ => ".",
    };
    File::open(rt, folder)?.sync_all()
}

fn size_of(file: &Option<File>) -> io::Result<u64> {
    match file {
        Some(file) => Ok(file.metadata()?.len()),
        None => Err(io::ErrorKind::NotFound.into()),
    }
}

fn read_from(file: &Option<File>, place: u64, buf: &mut [u8]) -> io::Result<()> {
    match file {
        Some(file) => file.read_exact_at(buf, place),
        None => Err(io::ErrorKind::NotFound.into()),
    }
}

fn write_to(file: &Option<File>, place: u64, piece: &[u8]) -> io::Result<()> {
    match file {
        Some(file) => file.write_all_at(piece, place),
        None => Err(io::ErrorKind::NotFound.into()),
    }
}

fn sync_of(file: &Option<File>) -> io::Result<()> {
    match file {
        Some(file) => file.sync_all(),
        None => Err(io::ErrorKind::NotFound.into()),
    }
}

impl<R: Files<File = File> + Drop> Disk for FileDisk<R> {
    ghost reads = { λ d. None };

    ghost tells_images = { λ d. ⊥ };

    ghost may_leave = { λ d image. ⊥ };

    ghost is_since = { λ first last. Unit {0} };

    ghost left_since = { λ first last image. ⊥ };

    ghost crash_image = { λ d fill. None };

    ghost arming = { λ d. record { calls = None; fill = 0 } };

    ghost room = { λ d. record { end = 2 ^ 64; calls = 2 ^ 64; bytes = 2 ^ 64 } };

    ghost faults = { λ d. d.faults };

    ghost failing = { λ d. None };

    ghost only_reserved = { λ first last. last ≡ first };

    ghost images_told = { λ d image now. now };

    ghost reading_counts = { λ d bytes told is. absurd told };

    ghost exact_counts = { λ d fill image is. absurd (none_is_not_some is) };

    ghost since_itself = { λ d. tt };

    ghost since_earlier = { λ first second third one two. tt };

    ghost one_moment = { λ d image left. left };

    ghost first_counts = { λ first last image later now. now };

    ghost last_counts = { λ first last image later now. now };

    ghost splits = { λ first second third image one two left. inl left };

    ghost joins = { λ first second third image one two left. either_absurd left };

    ghost reserved_itself = { λ d. refl };

    ghost reserved_again = { λ first second third one two. equal_again one two };

    fn size(&mut self) -> Result<u64, DiskFail> {
        self.open()?;
        match size_of(&self.file) {
            Ok(size) => Ok(size),
            Err(_) => Err(self.count_fault()),
        }
    }

    fn read_at(&mut self, place: u64, buf: &mut [u8]) -> Result<(), DiskFail> {
        self.open()?;
        match read_from(&self.file, place, buf) {
            Ok(()) => Ok(()),
            Err(_) => Err(self.count_fault()),
        }
    }

    fn write_at(&mut self, place: u64, piece: &[u8]) -> Result<(), DiskFail> {
        self.open()?;
        match write_to(&self.file, place, piece) {
            Ok(()) => Ok(()),
            Err(_) => Err(self.count_fault()),
        }
    }

    fn sync(&mut self) -> Result<(), DiskFail> {
        self.open()?;
        match sync_of(&self.file) {
            Ok(()) => Ok(()),
            Err(_) => Err(self.count_fault()),
        }
    }

    fn reserve(&mut self, _end: u64, _calls: u64, _bytes: u64) -> Result<(), NoMemory> {
        Ok(())
    }

    fn faults(&self) -> u64 {
        self.faults
    }
}
