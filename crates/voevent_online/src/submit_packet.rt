//! The packet that is to be submitted, as the source gives it.

ghost use Rattle.std.specs.Prelude.{◌≡◌, ◌≤◌, IfErr, IfOk, length};
ghost use Rattle.net_model.specs.declared.step.Judged.TheVariants.{Good};
ghost use Rattle.voe_outside.specs.Causes.{count_after};
ghost use Rattle.voe_outside.specs.Whole.{Reads, has_read_failed};
ghost use Rattle.voe_validity.specs.Judging.{IsJudged};
ghost use Rattle.voevent_online.specs.Packets.{HasNumber, IsGiven, IsNoPacket, IsNotGiven, place_of_fault};

use crate::refusal::Refusal;
use net_model::Judged;
use std::alloc::Global;
use voe_outside::{ReadFault, read_all};
use voe_tree::laws::spelled_is_not_refused;
use voe_tree::{TreeFault, read_tree};
use voe_validity::{Judging, fault_number, judge};
use voe_values::{Bytes, NoMemory};
use voe_world::World;

/// The most bytes that a document may have.
const MAX_DOCUMENT: usize = 1_048_576;

/// A good packet, with its identifier.
#[derive(Drop)]
pub struct Packet {
    pub identifier: Bytes,
    pub bytes: Bytes,
}

/// Why there is no good packet.
#[derive(Clone, Copy, Debug)]
pub enum Unready {
    Refused(Refusal),
    ReadFault,
    NoMemory,
}

/// The byte or token at which bytes are refused, for the rules that show one.
fn place_of(fault: TreeFault) -> Option<usize>
    ensures { result ≡ place_of_fault fault }
{
    match fault {
        TreeFault::NotText { place }
        | TreeFault::BadToken { place }
        | TreeFault::Doctype { place } => Some(place),
        TreeFault::Unbalanced { token }
        | TreeFault::TooDeep { token }
        | TreeFault::RepeatedAttribute { token }
        | TreeFault::UnboundPrefix { token }
        | TreeFault::AfterRoot { token } => Some(token),
        TreeFault::TooManyTokens | TreeFault::RootMissing | TreeFault::NoMemory => None,
    }
}

/// Why bytes are refused that spell no tree, with the place where the rule has one.
fn refusal_of_tree(alloc: Global, bytes: &[u8]) -> Unready
    requires small { length bytes.now ≤ 1048576 }
    requires no_tree { HasNumber bytes.now }
    ensures { IsNoPacket bytes.now result }
{
    match read_tree(alloc, bytes) {
        Ok(_) => {
            spelled_is_not_refused();
            unreachable!()
        }
        Err(fault) => match fault_number(fault) {
            Some(number) => Unready::Refused(Refusal::Tree {
                number,
                place: place_of(fault),
            }),
            None => Unready::NoMemory,
        },
    }
}

/// The packet of these bytes, where they are a good one.
fn judge_packet(alloc: Global, bytes: Bytes) -> Result<Packet, Unready>
    requires { length bytes ≤ 1048576 }
    ensures ok { IfOk result (λ packet. (packet.bytes ≡ bytes) × IsJudged bytes (Good packet.identifier)) }
    ensures err { IfErr result (λ why. IsNoPacket bytes why) }
{
    let Ok(Judging { judged, .. }) = judge(alloc, bytes.as_slice()) else {
        return Err(Unready::NoMemory);
    };
    match judged {
        Judged::BadTree { .. } => Err(refusal_of_tree(alloc, bytes.as_slice())),
        Judged::BadPacket { number, .. } => Err(Unready::Refused(Refusal::Validity { number })),
        Judged::Good { identifier } => Ok(Packet { identifier, bytes }),
    }
}

/// Reads the source to its end, or until it has more bytes than a document may have.
fn read_source<W: World>(alloc: Global, world: &mut W) -> Result<Bytes, ReadFault>
    ensures parts { W.parts world.new ≡ record (W.parts world.old) { source = (W.parts world.new).source } }
    ensures bytes { Reads 1048576 (W.So.left (W.parts world.old).source) (W.So.left (W.parts world.new).source) result }
    ensures faults { W.So.fault_count (W.parts world.new).source ≡ count_after (W.So.fault_count (W.parts world.old).source) (has_read_failed result) }
{
    read_all(alloc, world.source(), MAX_DOCUMENT)
}

/// The good packet that the source has, or why it has none. Nothing else of the world changes.
pub(crate) fn read_packet<W: World>(alloc: Global, world: &mut W) -> Result<Packet, Unready>
    ensures parts { W.parts world.new ≡ record (W.parts world.old) { source = (W.parts world.new).source } }
    ensures ok { IfOk result (λ packet. IsGiven W.So.Source packet.identifier packet.bytes (W.parts world.old).source (W.parts world.new).source) }
    ensures err { IfErr result (λ why. IsNotGiven W.So.Source why (W.parts world.old).source (W.parts world.new).source) }
{
    match read_source(alloc, world) {
        Ok(bytes) => judge_packet(alloc, bytes),
        Err(ReadFault::TooLong) => Err(Unready::Refused(Refusal::TooLong)),
        Err(ReadFault::Failed) => Err(Unready::ReadFault),
        Err(ReadFault::NoMemory) => Err(Unready::NoMemory),
    }
}
