//! The command `show`.

ghost use Rattle.std.specs.Prelude.{◌≡◌, ◌≤◌, IfOk, length};
ghost use Rattle.voe_tree.specs.Validity.{least_broken_row};
ghost use Rattle.voevent_cli.specs.Documents.{WantedOf, shown, shown_by};

use crate::document::refuse_tree;
use crate::outcome::{Outcome, Status};
use crate::refusal::Refusal;
use std::alloc::Global;
use voe_packet::{Packet, show_packet};
use voe_tree::{Tree, read_tree};
use voe_validity::valid;
use voe_values::{Bytes, NoMemory};
use vtp_messages::{MessageFault, read_message, show_message};

/// What `show` answers to a tree that is judged as a packet.
fn show_as_packet(alloc: Global, tree: &Tree) -> Result<Outcome, NoMemory>
    ensures { IfOk result (λ outcome. outcome ≡ shown_by (least_broken_row tree.now.root) tree.now.root) }
{
    if let Err(number) = valid(tree) {
        return Refusal::Validity { number }.outcome(alloc);
    }
    let packet = Packet::of(alloc, tree)?;
    let lines = show_packet(alloc, &packet)?;
    Ok(Outcome {
        status: Status::Done,
        output: Bytes::of(alloc, lines.as_str().as_bytes())?,
    })
}

/// What `show` answers to a tree.
fn show_tree(alloc: Global, tree: &Tree) -> Result<Outcome, NoMemory>
    ensures { IfOk result (λ outcome. outcome ≡ shown tree.now.root) }
{
    match read_message(alloc, tree) {
        Ok(message) => Ok(Outcome {
            status: Status::Done,
            output: show_message(alloc, &message)?,
        }),
        Err(MessageFault::NotTransport) => show_as_packet(alloc, tree),
        Err(MessageFault::BadRole) => Refusal::BadRole.outcome(alloc),
        Err(MessageFault::NoOrigin) => Refusal::NoOrigin.outcome(alloc),
        Err(MessageFault::NoMemory) => Err(NoMemory),
    }
}

/// What `show` answers to an input.
pub(crate) fn answer_of_show(alloc: Global, input: &[u8]) -> Result<Outcome, NoMemory>
    requires { length input.now ≤ 1048576 }
    ensures { IfOk result (WantedOf shown input.now) }
{
    match read_tree(alloc, input) {
        Ok(tree) => {
            let outcome = show_tree(alloc, &tree)?;
            Ok(outcome)
        }
        Err(fault) => refuse_tree(alloc, fault),
    }
}
