//! Journals of nodes, made from configurations.

ghost use Rattle.std.specs.Prelude.{IfOk};
ghost use Rattle.voevent_cli.specs.Racks.{IsWhole, disks};

use std::process::Abort;
use std::test::Fail;
use voe_disk::{MemoryDisk, MemoryRack, Rack};
use voe_outside::{MemorySink, MemorySource};
use voe_values::{Bytes, NoMemory, Text};
use voevent_cli::offline;

/// The journal of the subscriber `ivo://s/x`: the header, the configuration, and a closed gate.
const SUBSCRIBER: &[u8] = b"\x01VOEVENT JRNL 1\n\x01\0\0\0\x0e\0s\0\x09ivo://s/x\0\0";

/// A rack whose real disk has these bytes, and fails at the calls of these numbers.
fn rack_over(
    rt: &(impl Abort + AllocGlobal),
    bytes: &[u8],
    fails: &[u8],
) -> Result<MemoryRack, NoMemory>
    ensures { IfOk result (λ rack. IsWhole (disks (λ k. ⟦<MemoryRack as Rack>⟧.trial rack k) (⟦<MemoryRack as Rack>⟧.real rack))) }
{
    let alloc = rt.alloc();
    let disk = MemoryDisk::new(alloc, Bytes::of(alloc, bytes)?, Bytes::of(alloc, fails)?);
    let mut rack = MemoryRack::new(alloc)?;
    match rack.lend_real() {
        Some(_) => {
            rack.put_back_real(disk);
            Ok(rack)
        }
        None => unreachable!(),
    }
}

fn failed(_: NoMemory) -> Fail {
    Fail::from("no memory")
}

/// Makes a journal from this configuration on a disk of these bytes, and checks the status, the line that was written,
/// and what the disk has afterwards.
fn init(
    rt: &(impl Abort + AllocGlobal),
    config: &str,
    bytes: &[u8],
    fails: &[u8],
    status: u8,
    output: &str,
    after: &[u8],
) -> Result<(), Fail> {
    let alloc = rt.alloc();
    let mut source = MemorySource::new(
        Bytes::of(alloc, config.as_bytes()).map_err(failed)?,
        100,
        Bytes::new(alloc),
    );
    let mut sink = MemorySink::new(alloc, 100, Bytes::new(alloc));
    let word = Text::of(alloc, "init").map_err(failed)?;
    let mut rack = rack_over(rt, bytes, fails).map_err(failed)?;
    let answer = offline(alloc, &[word], &mut source, &mut sink, &mut rack);
    assert_eq!(rt; answer, status, "status");
    assert!(rt; sink.held() == output.as_bytes());
    match rack.lend_real() {
        Some(disk) => assert!(rt; disk.bytes() == after),
        None => return Err(Fail::from("the disk is lent out")),
    }
    Ok(())
}

#[test]
fn a_journal_is_made_from_a_configuration(rt: HostRuntime) -> Result<(), Fail> {
    let subscriber = "subscriber ivo://s/x\n";
    init(&rt, subscriber, b"", b"", 0, "made\n", SUBSCRIBER)?;
    // A journal is there, or another file.
    init(
        &rt,
        subscriber,
        SUBSCRIBER,
        b"",
        8,
        "refused G5\n",
        SUBSCRIBER,
    )?;
    let foreign = b"hello, foreign one";
    init(
        &rt,
        subscriber,
        foreign,
        b"",
        8,
        "refused G2 at 0\n",
        foreign,
    )?;
    // The disk fails at its first call.
    init(&rt, subscriber, b"", b"\0", 6, "", b"")?;
    Ok(())
}

#[test]
fn a_refused_configuration_calls_no_disk(rt: HostRuntime) -> Result<(), Fail> {
    let table: [(&str, &str); 5] = [
        (
            "broker ivo://b/x\nlink ivo://s/x\nlink ivo://s/x\n",
            "refused S02 line 3\n",
        ),
        ("link a\n", "refused S01 line 1\n"),
        ("", "refused S01 line 1\n"),
        (
            "broker ivo://b/x\nlink ivo://s/x\nfilter //a[\n",
            "refused S06 line 3\n",
        ),
        ("author ivo://a/x\nfilter //a\n", "refused S01 line 2\n"),
    ];
    for (config, output) in table {
        init(&rt, config, b"", b"\0", 3, output, b"")?;
    }
    Ok(())
}
