//! What an answer says that comes over a line or a link.

ghost use Rattle.std.specs.Prelude.{◌≡◌, IfOk};
ghost use Rattle.voe_net.specs.Heard.{heard_of, named_so};

use net_model::Verdict;
use std::alloc::Global;
use std::str;
use voe_values::{Bytes, Ivorn, NoMemory, ivorn_fault};

/// An answer that names a packet.
#[derive(Drop)]
pub struct Heard {
    pub identifier: Ivorn,
    pub ack: bool,
}

/// What an answer says, where it names a packet by an identifier.
pub fn hear_answer(alloc: Global, answer: &Verdict) -> Result<Option<Heard>, NoMemory>
    ensures { IfOk result (λ heard. heard ≡ heard_of answer.now) }
{
    match answer {
        Verdict::Ack { identifier } => named(alloc, identifier.as_slice(), true),
        Verdict::Nak {
            identifier: Some(identifier),
            ..
        } => named(alloc, identifier.as_slice(), false),
        Verdict::Nak {
            identifier: None,
            ..
        } => Ok(None),
    }
}

#[tactic(auto, using(node_notes::proofs::Texts::identifier_is, node_notes::proofs::Texts::no_identifier))]
fn named(alloc: Global, name: &[u8], ack: bool) -> Result<Option<Heard>, NoMemory>
    ensures { IfOk result (λ heard. heard ≡ named_so name.now ack) }
{
    let Ok(text) = str::from_utf8(name) else {
        return Ok(None);
    };
    if ivorn_fault(text).is_some() {
        return Ok(None);
    }
    let identifier = Ivorn::of(alloc, text)?;
    Ok(Some(Heard { identifier, ack }))
}
