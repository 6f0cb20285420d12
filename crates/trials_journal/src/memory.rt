//! Journals over disks in memory.

use gate_journal::{Journal, JournalFault};
use std::test::Fail;
use voe_disk::{CrashDisk, Disk, DiskFail, MemoryDisk, MemoryRack, Rack};
use voe_values::{Bytes, NoMemory};

const HEADER: &[u8] = b"\x01VOEVENT JRNL 1\n";

fn disk_of(rt: &HostRuntime, bytes: &[u8], fails: &[u8]) -> Result<MemoryDisk, NoMemory> {
    let alloc = rt.alloc();
    Ok(MemoryDisk::new(alloc, Bytes::of(alloc, bytes)?, Bytes::of(alloc, fails)?))
}

fn made(rt: &HostRuntime, disk: MemoryDisk) -> Result<Journal<MemoryDisk>, JournalFault> {
    match Journal::make(rt.alloc(), disk) {
        Ok(journal) => Ok(journal),
        Err((_, fault)) => Err(fault),
    }
}

fn loaded(rt: &HostRuntime, disk: MemoryDisk) -> Result<usize, JournalFault> {
    match Journal::load(rt.alloc(), disk) {
        Ok(journal) => Ok(journal.payloads()),
        Err((_, fault)) => Err(fault),
    }
}

#[test]
fn make_and_append_write_the_named_bytes(rt: HostRuntime) -> Result<(), Fail> {
    let journal = made(&rt, disk_of(&rt, b"", b"")?)?;
    let disk = journal.into_disk();
    assert_eq!(rt; disk.bytes(), b"\x01VOEVENT JRNL 1\n\0".as_slice());
    let mut journal = made(&rt, disk_of(&rt, b"", b"")?)?;
    journal.append(b"ab")?;
    let disk = journal.into_disk();
    assert_eq!(rt;
        disk.bytes(),
        b"\x01VOEVENT JRNL 1\n\x01\0\0\0\x02ab\0".as_slice()
    );
    Ok(())
}

// An append that is stopped after so many calls, and a crash with this byte: how many payloads are there.
fn crashed_append(rt: &HostRuntime, calls: u8, fill: u8) -> Result<usize, JournalFault> {
    let mut journal = made(rt, disk_of(rt, b"", b"")?)?;
    journal.arm(calls, fill);
    if journal.append(b"ab") != Err(JournalFault::Stopped) {
        return Ok(99);
    }
    let mut disk = journal.into_disk();
    disk.crash();
    loaded(rt, disk)
}

#[test]
fn a_stopped_append_leaves_the_payload_or_not(rt: HostRuntime) -> Result<(), Fail> {
    let rows = [
        (0, 1, 0),
        (1, 1, 0),
        (2, 1, 0),
        (3, 0, 0),
        (3, 1, 1),
        (3, 2, 0),
        (4, 0, 99),
    ];
    for (calls, fill, payloads) in rows {
        assert_eq!(rt;
            crashed_append(&rt, calls, fill)?,
            payloads,
            "{calls} {fill}"
        );
    }
    Ok(())
}

// The making of a journal that is stopped after so many calls, and a crash with this byte.
fn crashed_make(rt: &HostRuntime, calls: u8, fill: u8) -> Result<usize, JournalFault> {
    let mut disk = disk_of(rt, b"", b"")?;
    disk.arm(calls, fill);
    match Journal::make(rt.alloc(), disk) {
        Ok(_) => Ok(99),
        Err((mut disk, _)) => {
            disk.crash();
            loaded(rt, disk)
        }
    }
}

#[test]
fn a_stopped_making_leaves_an_empty_journal_or_none(rt: HostRuntime) -> Result<(), Fail> {
    let rows = [
        (0, 1, Err(JournalFault::Unmade)),
        (2, 1, Err(JournalFault::Unmade)),
        (4, 1, Err(JournalFault::Unmade)),
        (6, 0, Err(JournalFault::Unmade)),
        (6, 1, Ok(0)),
        (7, 0, Ok(99)),
    ];
    for (calls, fill, outcome) in rows {
        assert_eq!(rt; crashed_make(&rt, calls, fill), outcome, "{calls} {fill}");
    }
    Ok(())
}

#[test]
fn other_files_are_refused_with_their_place(rt: HostRuntime) -> Result<(), Fail> {
    let rows: [(&[u8], Result<usize, JournalFault>); 15] = [
        (b"", Err(JournalFault::Unmade)),
        (b"\x01", Err(JournalFault::Unmade)),
        (b"\0VOEVENT JRNL 1\n\0", Err(JournalFault::Unmade)),
        (b"hello, foreign on", Err(JournalFault::Unmade)),
        (
            b"hello, foreign one",
            Err(JournalFault::NotJournal { place: 0 }),
        ),
        (b"\x01V", Err(JournalFault::NotJournal { place: 2 })),
        (
            b"\x01VOEVENT JRNL 2\n\0",
            Err(JournalFault::NotJournal { place: 14 }),
        ),
        (
            b"\x01VOEVENT JRNL 1\n",
            Err(JournalFault::NotJournal { place: 16 }),
        ),
        (b"\x01VOEVENT JRNL 1\n\0", Ok(0)),
        (b"\x01VOEVENT JRNL 1\n\x02any", Ok(0)),
        (
            b"\x01VOEVENT JRNL 1\n\x01\0\0\0\x02ab",
            Err(JournalFault::Damaged { place: 16 }),
        ),
        (
            b"\x01VOEVENT JRNL 1\n\x01\0\0\0\0ab\0",
            Err(JournalFault::Damaged { place: 16 }),
        ),
        (
            b"\x01VOEVENT JRNL 1\n\x01\0\x10\xc8\xe1ab\0",
            Err(JournalFault::Damaged { place: 16 }),
        ),
        (
            b"\x01VOEVENT JRNL 1\n\x01\0\0\0\x02ab\x01",
            Err(JournalFault::Damaged { place: 23 }),
        ),
        (b"\x01VOEVENT JRNL 1\n\x01\0\0\0\x02ab\0\x01\x01", Ok(1)),
    ];
    for (bytes, outcome) in rows {
        assert_eq!(rt;
            loaded(&rt, disk_of(&rt, bytes, b"")?),
            outcome,
            "{bytes:?}"
        );
    }
    Ok(())
}

#[test]
fn a_journal_is_made_where_none_is(rt: HostRuntime) -> Result<(), Fail> {
    let rows: [(&[u8], Result<usize, JournalFault>); 6] = [
        (b"", Ok(0)),
        (b"\x01", Ok(0)),
        (b"hello, foreign on", Ok(0)),
        (b"hello, foreign one", Err(JournalFault::AlreadyMade)),
        (b"\x01V", Err(JournalFault::AlreadyMade)),
        (b"\x01VOEVENT JRNL 1\n\0", Err(JournalFault::AlreadyMade)),
    ];
    for (bytes, outcome) in rows {
        let journal = made(&rt, disk_of(&rt, bytes, b"")?);
        assert_eq!(rt;
            journal.map(|journal| journal.payloads()),
            outcome,
            "{bytes:?}"
        );
    }
    Ok(())
}

// The answers of two appends where the call of this number fails, and how many payloads are there then.
fn failed(
    rt: &HostRuntime,
    call: u8,
) -> Result<(Result<(), JournalFault>, Result<(), JournalFault>, usize), JournalFault> {
    let mut journal = made(rt, disk_of(rt, b"", &[call])?)?;
    let first = journal.append(b"ab");
    let second = journal.append(b"cd");
    let payloads = loaded(rt, journal.into_disk())?;
    Ok((first, second, payloads))
}

#[test]
fn a_failed_call_is_told_until_the_disk_is_loaded_again(rt: HostRuntime) -> Result<(), Fail> {
    let fault = Err(JournalFault::DiskFault);
    // The making has eight calls: a sync, the size, and six that write or sync.
    for call in 0..8 {
        assert_eq!(rt; failed(&rt, call), Err(JournalFault::DiskFault), "{call}");
    }
    let rows = [
        (8, (fault, fault, 0)),
        (9, (fault, fault, 0)),
        (10, (fault, fault, 0)),
        (11, (fault, fault, 1)),
        (12, (Ok(()), fault, 1)),
        (20, (Ok(()), Ok(()), 2)),
    ];
    for (call, outcome) in rows {
        assert_eq!(rt; failed(&rt, call), Ok(outcome), "{call}");
    }
    Ok(())
}

#[test]
fn a_journal_tells_its_payloads_and_their_places(rt: HostRuntime) -> Result<(), Fail> {
    let mut journal = made(&rt, disk_of(&rt, b"", b"")?)?;
    journal.append(b"ab")?;
    journal.append(b"c")?;
    assert_eq!(rt; journal.payloads(), 2);
    assert_eq!(rt; journal.payload(0), Some(b"ab".as_slice()));
    assert_eq!(rt; journal.payload(1), Some(b"c".as_slice()));
    assert_eq!(rt; journal.payload(2), None);
    assert_eq!(rt; journal.place(0), Some(16));
    assert_eq!(rt; journal.place(1), Some(23));
    assert_eq!(rt; journal.place(2), None);
    assert_eq!(rt; journal.down(), None);
    assert_eq!(rt; journal.faults(), 0);
    let disk = journal.into_disk();
    assert!(rt; disk.bytes().starts_with(HEADER));
    assert_eq!(rt; disk.faults(), 0);
    Ok(())
}

#[test]
fn a_journal_goes_on_when_its_payloads_are_let_go(rt: HostRuntime) -> Result<(), Fail> {
    let mut journal = made(&rt, disk_of(&rt, b"", b"")?)?;
    journal.append(b"ab")?;
    let mut appender = journal.into_appender();
    appender.append(b"c")?;
    appender.append(b"def")?;
    assert_eq!(rt; appender.down(), None);
    assert_eq!(rt; appender.faults(), 0);
    // The header has 16 bytes, the entries 7, 6 and 8: the closed gate stands at 37.
    assert!(rt; appender.has_room(67_108_864 - 37 - 6));
    assert!(rt; !appender.has_room(67_108_864 - 37 - 5));
    let Ok(journal) = Journal::load(rt.alloc(), appender.into_disk()) else {
        return Err("not loaded".into());
    };
    assert_eq!(rt; journal.payloads(), 3);
    assert_eq!(rt; journal.payload(0), Some(b"ab".as_slice()));
    assert_eq!(rt; journal.payload(1), Some(b"c".as_slice()));
    assert_eq!(rt; journal.payload(2), Some(b"def".as_slice()));
    let mut appender = journal.into_appender();
    appender.arm(3, 1);
    assert_eq!(rt; appender.append(b"g"), Err(JournalFault::Stopped));
    assert_eq!(rt; appender.down(), Some(DiskFail::Stopped));
    let mut disk = appender.into_disk();
    disk.crash();
    assert_eq!(rt; loaded(&rt, disk)?, 4);
    Ok(())
}

#[test]
fn a_rack_lends_empty_disks_and_takes_them_back(rt: HostRuntime) -> Result<(), Fail> {
    let mut rack = MemoryRack::new(rt.alloc())?;
    for k in 0..64 {
        let disk = rack.lend(k).ok_or("no disk")?;
        assert_eq!(rt; disk.bytes(), b"".as_slice(), "{k}");
        assert!(rt; rack.lend(k).is_none(), "{k}");
        rack.put_back(k, disk);
    }
    assert!(rt; rack.lend(64).is_none());
    let mut disk = rack.lend_real().ok_or("no real disk")?;
    assert!(rt; rack.lend_real().is_none());
    disk.reserve(2, 2, 2)?;
    assert_eq!(rt; disk.size(), Ok(0));
    rack.put_back_real(disk);
    assert!(rt; rack.lend_real().is_some());
    Ok(())
}
