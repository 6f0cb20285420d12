//! Journals over real files.

use gate_journal::{Journal, JournalFault};
use std::fs;
use std::test::Fail;
use voe_disk::{Disk, DiskFail, FileDisk};
use voe_values::{NoMemory, Text};

fn disk_at(rt: &HostRuntime, path: &str) -> Result<FileDisk<HostRuntime>, NoMemory> {
    Ok(FileDisk::new(*rt, Text::of(rt.alloc(), path)?))
}

fn made(rt: &HostRuntime, path: &str) -> Result<Journal<FileDisk<HostRuntime>>, JournalFault> {
    match Journal::make(rt.alloc(), disk_at(rt, path)?) {
        Ok(journal) => Ok(journal),
        Err((_, fault)) => Err(fault),
    }
}

fn loaded(rt: &HostRuntime, path: &str) -> Result<Journal<FileDisk<HostRuntime>>, JournalFault> {
    match Journal::load(rt.alloc(), disk_at(rt, path)?) {
        Ok(journal) => Ok(journal),
        Err((_, fault)) => Err(fault),
    }
}

fn has(journal: &Journal<FileDisk<HostRuntime>>, at: usize, payload: &[u8]) -> bool {
    match journal.payload(at) {
        Some(found) => found == payload,
        None => false,
    }
}

fn count(rt: &HostRuntime, path: &str) -> Result<usize, JournalFault> {
    let journal = loaded(rt, path)?;
    Ok(journal.payloads())
}

#[test]
fn a_journal_in_a_file_is_loaded_again(rt: HostRuntime) -> Result<(), Fail> {
    assert_eq!(rt; count(&rt, "journal"), Err(JournalFault::Unmade));
    let mut journal = made(&rt, "journal")?;
    journal.append(b"ab")?;
    journal.append(b"c")?;
    drop(journal);
    let mut journal = loaded(&rt, "journal")?;
    assert_eq!(rt; journal.payloads(), 2);
    assert!(rt; has(&journal, 0, b"ab"));
    assert!(rt; has(&journal, 1, b"c"));
    journal.append(b"d")?;
    let mut disk = journal.into_disk();
    let mut bytes = [0; 36];
    assert_eq!(rt; disk.size(), Ok(36));
    assert_eq!(rt; disk.read_at(0, &mut bytes), Ok(()));
    assert_eq!(rt;
        bytes.as_slice(),
        b"\x01VOEVENT JRNL 1\n\x01\0\0\0\x02ab\x01\0\0\0\x01c\x01\0\0\0\x01d\0".as_slice()
    );
    Ok(())
}

#[test]
fn a_file_cut_at_each_length_is_refused(rt: HostRuntime) -> Result<(), Fail> {
    let bytes = *b"\x01VOEVENT JRNL 1\n\x01\0\0\0\x02ab\0";
    for length in 0..25 {
        let outcome = match length {
            0..=1 => Err(JournalFault::Unmade),
            2..=16 => Err(JournalFault::NotJournal {
                place: length as u64,
            }),
            17..=23 => Err(JournalFault::Damaged { place: 16 }),
            _ => Ok(1),
        };
        fs::write(&rt, "cut", &bytes[..length])?;
        assert_eq!(rt; count(&rt, "cut"), outcome, "{length}");
        let read = fs::read(&rt, "cut")?;
        assert_eq!(rt; read.as_slice(), &bytes[..length], "{length}");
    }
    Ok(())
}

#[test]
fn a_file_is_locked_while_its_disk_is_held(rt: HostRuntime) -> Result<(), Fail> {
    let mut first = disk_at(&rt, "held")?;
    assert_eq!(rt; first.size(), Ok(0));
    let mut second = disk_at(&rt, "held")?;
    assert_eq!(rt; second.size(), Err(DiskFail::Fault));
    assert_eq!(rt; second.sync(), Err(DiskFail::Fault));
    assert_eq!(rt; second.faults(), 2);
    assert_eq!(rt; count(&rt, "held"), Err(JournalFault::DiskFault));
    drop(first);
    assert_eq!(rt; second.size(), Ok(0));
    assert_eq!(rt; second.faults(), 2);
    Ok(())
}

#[test]
fn a_file_is_read_and_written_at_places(rt: HostRuntime) -> Result<(), Fail> {
    let mut disk = disk_at(&rt, "places")?;
    disk.reserve(9, 3, 9)?;
    assert_eq!(rt; disk.write_at(0, b"abcdef"), Ok(()));
    assert_eq!(rt; disk.write_at(4, b"xyz"), Ok(()));
    assert_eq!(rt; disk.sync(), Ok(()));
    assert_eq!(rt; disk.size(), Ok(7));
    let mut piece = [0; 3];
    assert_eq!(rt; disk.read_at(3, &mut piece), Ok(()));
    assert_eq!(rt; &piece, b"dxy");
    assert_eq!(rt; disk.read_at(5, &mut piece), Err(DiskFail::Fault));
    drop(disk);
    let read = fs::read(&rt, "places")?;
    assert_eq!(rt; read.as_slice(), b"abcdxyz".as_slice());
    let mut missing = disk_at(&rt, "no/such/folder")?;
    assert_eq!(rt; missing.size(), Err(DiskFail::Fault));
    Ok(())
}

fn block(rt: &HostRuntime, count: usize) -> Result<Vec<u8>, NoMemory> {
    Ok(vec![in rt.alloc(); 7u8; count]?)
}

fn added(journal: &mut Journal<FileDisk<HostRuntime>>, payload: &[u8]) -> Result<(), JournalFault> {
    if payload.is_empty() || payload.len() > 1_100_000 {
        return Err(JournalFault::Unmade);
    }
    journal.append(payload)
}

#[test]
fn a_full_journal_takes_no_more_and_is_loaded(rt: HostRuntime) -> Result<(), Fail> {
    let mut journal = made(&rt, "full")?;
    let large = block(&rt, 1_100_000)?;
    for number in 0..61 {
        assert_eq!(rt; added(&mut journal, &large), Ok(()), "{number}");
    }
    let rest = block(&rt, 8_538)?;
    assert_eq!(rt; added(&mut journal, &rest), Err(JournalFault::Full));
    let rest = block(&rt, 8_537)?;
    assert_eq!(rt; added(&mut journal, &rest), Ok(()));
    assert_eq!(rt; added(&mut journal, b"a"), Err(JournalFault::Full));
    let mut disk = journal.into_disk();
    assert_eq!(rt; disk.size(), Ok(67_108_864));
    drop(disk);
    let journal = loaded(&rt, "full")?;
    assert_eq!(rt; journal.payloads(), 62);
    assert_eq!(rt; journal.place(61), Some(67_100_321));
    assert_eq!(rt; journal.payload(61), Some(rest.as_slice()));
    Ok(())
}
