//! A message is put on a link, and a line on a sink.

ghost use Rattle.std.specs.Prelude.{◌≡◌, ◌≤◌, ◌<◌, ◌++◌, ℕ, List, [], length, Err, OnOk, true, false};
ghost use Rattle.voe_outside.specs.Causes.{Rose};
ghost use Rattle.vtp_framing.specs.Frames.{frame as framed};
ghost use Rattle.vtp_server.specs.Carried.{Carried};

use std::alloc::Global;
use voe_outside::{Link, Put};
use voe_values::Bytes;
use vtp_framing::{Payload, frame};

/// Why a message was not put whole.
#[derive(Clone, Copy, Debug, PartialEq, Eq)]
pub enum PutFault {
    Failed,
    NoMemory,
}

/// Puts bytes for which there is room.
fn put_all<L: Link>(link: &mut L, bytes: &[u8]) -> bool
    requires { length bytes.now ≤ L.spare link.old }
    ensures whole { result ≡ true → Carried (L.traffic link.old) (L.traffic link.new) [] bytes.now }
    ensures part { result ≡ false → (put : List ℕ) × (lost : List ℕ) × (put ++ lost ≡ bytes.now) × Carried (L.traffic link.old) (L.traffic link.new) [] put }
    ensures failed { result ≡ false → Rose (L.fault_count link.old) (L.fault_count link.new) }
    ensures faults { L.fault_count link.old ≤ L.fault_count link.new }
    ensures idles { L.idle_count link.new ≡ L.idle_count link.old }
    ensures ends { L.end_count link.new ≡ L.end_count link.old }
{
    let mut at = 0;
    while at < bytes.len() {
        match link.put(&bytes[at..]) {
            Put::Took(count) => at += count,
            Put::Failed => return false,
        }
    }
    true
}

/// Puts a message in its frame, with all the room made before the first byte.
pub fn put_message<L: Link>(alloc: Global, link: &mut L, message: &Payload) -> Result<(), PutFault>
    ensures whole { OnOk result (Carried (L.traffic link.old) (L.traffic link.new) [] (framed message.now)) }
    ensures part { result ≡ Err PutFault.Failed → (put : List ℕ) × (lost : List ℕ) × (put ++ lost ≡ framed message.now) × Carried (L.traffic link.old) (L.traffic link.new) [] put }
    ensures failed { result ≡ Err PutFault.Failed → Rose (L.fault_count link.old) (L.fault_count link.new) }
    ensures no_memory { result ≡ Err PutFault.NoMemory → L.traffic link.new ≡ L.traffic link.old }
    ensures faults { L.fault_count link.old ≤ L.fault_count link.new }
    ensures idles { L.idle_count link.new ≡ L.idle_count link.old }
    ensures ends { L.end_count link.new ≡ L.end_count link.old }
{
    let mut bytes = Bytes::new(alloc);
    let Ok(()) = frame(alloc, message.as_slice(), &mut bytes) else {
        return Err(PutFault::NoMemory);
    };
    let Ok(()) = link.reserve(bytes.len()) else {
        return Err(PutFault::NoMemory);
    };
    if put_all(link, bytes.as_slice()) {
        Ok(())
    } else {
        Err(PutFault::Failed)
    }
}
