//! A packet that is to be sent.

ghost use Rattle.std.specs.Prelude.{◌≡◌, true, IfOk};
ghost use Rattle.node_notes.specs.Forms.{is_identifier, is_packet};
ghost use Rattle.vtp_server.specs.declared.side.Next.TheVariants as next;

use crate::side::Next;
use std::alloc::Global;
use std::str;
use voe_values::{Bytes, Ivorn, NoMemory};
use vtp_framing::Payload;

#[tactic(auto, using(node_notes::proofs::Texts::identifier_is, node_notes::proofs::Texts::no_identifier))]
fn ivorn_of(alloc: Global, identifier: &Bytes) -> Result<Ivorn, NoMemory>
    requires { is_identifier identifier.now ≡ true }
    ensures { IfOk result (λ made. made ≡ identifier.now) }
{
    let Ok(text) = str::from_utf8(identifier.as_slice()) else {
        unreachable!()
    };
    Ivorn::of(alloc, text)
}

#[tactic(auto, using(crate::proofs::Goods::fits_frame))]
/// The move that sends a packet under its identifier.
pub fn send<A, E>(alloc: Global, identifier: &Bytes, packet: Bytes) -> Result<Next<A, E>, NoMemory>
    requires identifier { is_identifier identifier.now ≡ true }
    requires packet { is_packet packet ≡ true }
    ensures { IfOk result (λ n. n ≡ next.Send identifier.now packet) }
{
    let identifier = ivorn_of(alloc, identifier)?;
    match Payload::of(packet) {
        Ok(packet) => Ok(Next::Send { identifier, packet }),
        Err(_) => unreachable!(),
    }
}
