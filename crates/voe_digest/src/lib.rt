//! Digests of packets: SHA-1 (FIPS 180-4), and how they are printed.
//!
//! A digest tells one packet of an identifier from another. It is a fingerprint, and no security rests on it.
#![tactic(auto)]

ghost use Rattle.std.specs.Prelude.{◌≡◌, IfOk};
ghost use Rattle.hex.specs.Hex.{encode_lower};
ghost use Rattle.sha1.specs.Sha1.{sha1};

use sha1::Sha1;
use std::alloc::Global;
use voe_values::{NoMemory, Text};

/// The SHA-1 digest of some bytes (FIPS 180-4, section 6.1).
#[derive(Clone, Copy, Debug, PartialEq, Eq)]
pub struct Digest {
    /// Its twenty bytes, the first of the digest first.
    pub bytes: [u8; 20],
}

impl Digest {
    /// The digest of these bytes. It takes no memory.
    pub fn of(bytes: &[u8]) -> Digest
        ensures { result.bytes ≡ sha1 bytes.now }
    {
        Digest {
            bytes: Sha1::digest(bytes),
        }
    }

    /// The digest as forty lower-case hexadecimal digits.
    pub fn text(&self, alloc: Global) -> Result<Text, NoMemory>
        ensures { IfOk result (λ t. t ≡ encode_lower self.now.bytes) }
    {
        let digits = hex::encode(alloc, self.bytes)?;
        Ok(Text::from_string(digits))
    }
}
