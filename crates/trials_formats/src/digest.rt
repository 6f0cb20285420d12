//! Digests.

use std::test::Fail;
use voe_digest::Digest;

#[test]
fn prints_the_standard_s_digests(rt: HostRuntime) -> Result<(), Fail> {
    for (bytes, want) in [
        ("", "da39a3ee5e6b4b0d3255bfef95601890afd80709"),
        ("abc", "a9993e364706816aba3e25717850c26c9cd0d89d"),
        (
            "abcdbcdecdefdefgefghfghighijhijkijkljklmklmnlmnomnopnopq",
            "84983e441c3bd26ebaae4aa1f95129e5e54670f1",
        ),
    ] {
        let text = Digest::of(bytes.as_bytes()).text(rt.alloc())?;
        assert_eq!(rt; text.as_str(), want, "of {bytes:?}");
    }
    assert!(rt; Digest::of(b"abc") == Digest::of(b"abc"));
    assert!(rt; Digest::of(b"abc") != Digest::of(b"abd"));
    Ok(())
}
