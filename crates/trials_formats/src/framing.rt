//! Frames.

use std::alloc::Global;
use std::test::Fail;
use voe_values::Bytes;
use vtp_framing::{FrameFault, MOST_PAYLOAD, Unframer, frame};

/// What `next` gives once the bytes were fed in one piece.
fn first(alloc: Global, bytes: &[u8]) -> Result<Result<Option<Bytes>, FrameFault>, Fail> {
    let mut unframer = Unframer::new(alloc);
    unframer.feed(bytes)?;
    Ok(unframer.next())
}

#[test]
fn reads_counts_at_their_limits(rt: HostRuntime) -> Result<(), Fail> {
    let alloc = rt.alloc();
    let empty = first(alloc, &[0, 0, 0, 0])?;
    assert!(rt; matches!(&empty, Err(FrameFault::Empty { place: 0 })));
    let most = first(alloc, &[0, 0x10, 0, 0])?;
    assert!(rt; matches!(&most, Ok(None)));
    let long = first(alloc, &[0, 0x10, 0, 1])?;
    assert!(rt;
        matches!(
            &long,
            Err(FrameFault::TooLong {
                place: 0,
                count: 1_048_577
            })
        )
    );
    Ok(())
}

#[test]
fn gives_a_frame_that_came_byte_by_byte(rt: HostRuntime) -> Result<(), Fail> {
    let mut unframer = Unframer::new(rt.alloc());
    for byte in [0u8, 0, 0, 2, b'a'] {
        unframer.feed(&[byte])?;
        let next = unframer.next();
        assert!(rt; matches!(&next, Ok(None)));
    }
    unframer.feed(b"b")?;
    let Ok(Some(payload)) = unframer.next() else {
        panic!(rt; "no payload")
    };
    assert_eq!(rt; payload.as_slice(), b"ab".as_slice());
    let next = unframer.next();
    assert!(rt; matches!(&next, Ok(None)));
    Ok(())
}

#[test]
fn refuses_the_count_0_behind_a_frame_again_and_again(rt: HostRuntime) -> Result<(), Fail> {
    let mut unframer = Unframer::new(rt.alloc());
    unframer.feed(&[0, 0, 0, 1, 0x61, 0, 0, 0, 0])?;
    let Ok(Some(payload)) = unframer.next() else {
        panic!(rt; "no payload")
    };
    assert_eq!(rt; payload.as_slice(), b"a".as_slice());
    for _ in 0..3 {
        let next = unframer.next();
        assert!(rt; matches!(&next, Err(FrameFault::Empty { place: 5 })));
        unframer.feed(&[0, 0, 0, 1, 0x61])?;
    }
    Ok(())
}

#[test]
fn writes_frames_one_behind_another(rt: HostRuntime) -> Result<(), Fail> {
    let alloc = rt.alloc();
    let mut out = Bytes::new(alloc);
    frame(alloc, b"ab", &mut out)?;
    frame(alloc, b"c", &mut out)?;
    let want: [u8; 11] = [0, 0, 0, 2, b'a', b'b', 0, 0, 0, 1, b'c'];
    assert_eq!(rt; out.as_slice(), want.as_slice());
    Ok(())
}

#[test]
fn carries_the_longest_payload_in_pieces(rt: HostRuntime) -> Result<(), Fail> {
    let alloc = rt.alloc();
    let mut payload = Vec::new(alloc);
    for at in 0..MOST_PAYLOAD {
        payload.push((at % 251) as u8)?;
    }
    if payload.len() < 1 || payload.len() > MOST_PAYLOAD {
        panic!(rt; "another length")
    }
    let mut out = Bytes::new(alloc);
    frame(alloc, payload.as_slice(), &mut out)?;
    let mut unframer = Unframer::new(alloc);
    for piece in out.as_slice().chunks(1000) {
        let next = unframer.next();
        assert!(rt; matches!(&next, Ok(None)));
        unframer.feed(piece)?;
    }
    let Ok(Some(got)) = unframer.next() else {
        panic!(rt; "no payload")
    };
    assert!(rt; got.as_slice() == payload.as_slice());
    unframer.feed(&[0xFF; 4])?;
    for _ in 0..2 {
        let next = unframer.next();
        assert!(rt;
            matches!(
                &next,
                Err(FrameFault::TooLong {
                    place: 1_048_580,
                    count: 0xFFFF_FFFF
                })
            )
        );
    }
    Ok(())
}
