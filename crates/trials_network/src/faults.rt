//! Sources and sinks that fail.

use crate::call::{Call, check, failed, whole_rack};
use std::test::Fail;
use voe_outside::{MemorySink, MemorySource, Source};
use voe_values::{Bytes, Text};
use voevent_cli::offline;

const ONE_PACKET: &str =
    "author\nbroker\nsubscriber\nline 0 1\nlink 1 2\npacket ivo://a/k#1 test\nwrite 0 0\nsend 0\ndown 0\nup 0\nsend 1\ndown 1\nup 1\n";

#[test]
fn faults_end_the_call(rt: HostRuntime) -> Result<(), Fail> {
    // The first read, a later read, and the read that would find the end.
    let reads: [&[u8]; 3] = [&[0], &[2], &[15]];
    for read_fails in &reads {
        let call = Call {
            words: &["net"],
            input: ONE_PACKET.as_bytes(),
            piece: 8,
            read_fails,
            write_fails: &[],
        };
        check(&rt, &call, 4, "")?;
    }
    let writes: [(&[u8], &str); 2] = [(&[0], ""), (&[2, 3], "node 0 author up")];
    for (write_fails, output) in &writes {
        let call = Call {
            words: &["net"],
            input: ONE_PACKET.as_bytes(),
            piece: 8,
            read_fails: &[],
            write_fails,
        };
        check(&rt, &call, 5, output)?;
    }
    Ok(())
}

#[test]
fn a_failing_source_counts(rt: HostRuntime) -> Result<(), Fail> {
    let alloc = rt.alloc();
    let fails = Bytes::of(alloc, &[0, 1]).map_err(failed)?;
    let mut source = MemorySource::new(Bytes::new(alloc), 1, fails);
    let word = Text::of(alloc, "net").map_err(failed)?;
    let mut sink = MemorySink::new(alloc, 1, Bytes::new(alloc));
    let mut rack = whole_rack(alloc).map_err(failed)?;
    let answer = offline(alloc, &[word], &mut source, &mut sink, &mut rack);
    assert_eq!(rt; answer, 4);
    assert_eq!(rt; source.faults(), 1);
    Ok(())
}
