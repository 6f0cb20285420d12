//! Texts and words that are refused.

use crate::call::{Call, check, run};
use std::test::Fail;
use voe_outside::{ReadFault, Source, read_all};

const ONE_PACKET: &str =
    "author\nbroker\nsubscriber\nline 0 1\nlink 1 2\npacket ivo://a/k#1 test\nwrite 0 0\nsend 0\ndown 0\nup 0\nsend 1\ndown 1\nup 1\n";

fn unread(_: ReadFault) -> Fail {
    Fail::from("the source was not read")
}

#[test]
fn a_refused_line_by_its_least_number(rt: HostRuntime) -> Result<(), Fail> {
    let table: [(&str, &str); 23] = [
        // No line of the grammar, wherever it stands.
        (
            "author\nbroker\nline 0 1\nwrite 0\n",
            "refused S01 line 4\n",
        ),
        ("author \n", "refused S01 line 1\n"),
        ("\n#\nAuthor", "refused S01 line 3\n"),
        ("author\nbroker\nline  0 1\n", "refused S01 line 3\n"),
        ("author\nbroker\nline 00 1\n", "refused S01 line 3\n"),
        ("author\nbroker\nline 0 12345678\n", "refused S01 line 3\n"),
        ("author\r\n", "refused S01 line 1\n"),
        ("packet ivo://a/k#1 probe\n", "refused S01 line 1\n"),
        ("packet ivo://a/k#1 test x\n", "refused S01 line 1\n"),
        // A stop of more than four calls, or of what is no step.
        (
            "author\nbroker\nline 0 1\nstop 5 0 down 0\n",
            "refused S01 line 4\n",
        ),
        (
            "author\nbroker\nline 0 1\nstop 4 0 send 0\n",
            "refused S01 line 4\n",
        ),
        // A line of the set-up behind the first event.
        (
            "author\nbroker\nline 0 1\nsend 0\nauthor\n",
            "refused S01 line 5\n",
        ),
        // Nothing of the kind has this number yet.
        ("line 0 1\n", "refused S02 line 1\n"),
        ("author\nbroker\nline 1 0\n", "refused S02 line 3\n"),
        ("author\nbroker\nlink 1 0\n", "refused S02 line 3\n"),
        ("author\nbroker\nwrite 0 0\n", "refused S02 line 3\n"),
        (
            "author\nbroker\npacket ivo://a/k#1 test\nwrite 1 0\n",
            "refused S02 line 4\n",
        ),
        (
            "author\nbroker\nline 0 1\nfilter 0 //a\n",
            "refused S02 line 4\n",
        ),
        ("author\ncrash 1\n", "refused S02 line 2\n"),
        // An identifier, a parameter's name, a filter.
        ("packet ivo://a/k test\n", "refused S04 line 1\n"),
        ("packet ivo://a/k#1 test =v\n", "refused S05 line 1\n"),
        (
            "author\nbroker\nsubscriber\nlink 1 2\nfilter 0 //a[\n",
            "refused S06 line 5\n",
        ),
        // The first refused line decides.
        ("send 0\nauthor x\n", "refused S02 line 1\n"),
    ];
    for (input, output) in &table {
        check(&rt, &Call::net(input.as_bytes(), 1), 3, output)?;
        check(&rt, &Call::net(input.as_bytes(), 4_096), 3, output)?;
    }
    Ok(())
}

#[test]
fn other_words_read_nothing(rt: HostRuntime) -> Result<(), Fail> {
    let alloc = rt.alloc();
    let table: [&[&str]; 5] = [&[], &["net", "extra"], &["Net"], &[""], &["net "]];
    for words in &table {
        let call = Call {
            words,
            input: ONE_PACKET.as_bytes(),
            piece: 8,
            read_fails: &[0],
            write_fails: &[],
        };
        let mut source = run(&rt, &call, 2, "refused usage\n")?;
        // No read failed. The first one of all does, and all bytes come behind it.
        assert_eq!(rt; source.faults(), 0);
        assert!(rt; read_all(alloc, &mut source, 1_000).is_err());
        let left = read_all(alloc, &mut source, 1_000).map_err(unread)?;
        assert!(rt; left.as_slice() == ONE_PACKET.as_bytes());
    }
    Ok(())
}
