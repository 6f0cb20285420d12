//! The sessions of a broker's links.

ghost use Rattle.std.specs.Prelude.{◌≡◌, ◌≤◌, ◌<◌, true, length, map, IfOk, Some, None};
ghost use Rattle.voe_values.specs.declared.kind.NodeKind.TheVariants.{Broker};
ghost use Rattle.net_model.specs.Rules.{NodeRules};
ghost use Rattle.net_model.specs.Steps.{broker_acked, broker_join, broker_next, last_of, place_of_name as place_among};
ghost use Rattle.node_book.specs.Ends.{with_sessions};
ghost use Rattle.node_book.specs.EndSteps.{HasRoomOf, Happens, IsReady, IsUnchanged, KeepsRest, lacked_memory};
ghost use Rattle.broker_end.specs.Broker.{fate_of, names_of};

use net_model::{BrokerStep, Note};
use node_book::{Added, EndBook, Given, LinkConfig};
use std::alloc::{AllocError, Global};
use voe_disk::Disk;
use voe_values::{Bytes, EndName, Ivorn, Listing};

/// No session has begun of any link.
pub fn no_sessions(alloc: Global, links: &[LinkConfig]) -> Result<Listing<u64>, AllocError>
    ensures { IfOk result (λ sessions. sessions ≡ map (λ link. 0) links.now) }
{
    let sessions: Vec<u64> = links.iter().map(|_| 0u64).collect(alloc)?;
    Ok(Listing::from_vec(sessions))
}

/// A subscriber comes: a session of its link begins, or it is a guest.
pub fn join<D: Disk>(end: &mut EndBook<D>, name: &EndName) -> BrokerStep
    requires ready { IsReady D.Disk end.old }
    requires each { length end.old.sessions ≡ length end.old.config.links }
    ensures after { end.new ≡ with_sessions end.old (broker_join (names_of end.old.config.links) end.old.notes end.old.sessions name.now).sessions }
    ensures answer { result ≡ (broker_join (names_of end.old.config.links) end.old.notes end.old.sessions name.now).answer }
{
    match place_of_name(end.book().config().links.as_slice(), name) {
        None => BrokerStep::Guest {
            after: end.book().notes(),
        },
        Some(link) => {
            let session = end.join(link);
            BrokerStep::Joined {
                link: link as u16,
                session,
            }
        }
    }
}

/// The first link of a name.
fn place_of_name(links: &[LinkConfig], name: &EndName) -> Option<usize>
    ensures { result ≡ place_among (names_of links.now) name.now 0 }
{
    for (at, link) in links.iter().enumerate() {
        if name.as_str() == link.name.as_str() {
            return Some(at);
        }
    }
    None
}

/// The first packet at or past a place that is owed on a link, unless a newer session of it has begun.
pub fn next<D: Disk>(end: &EndBook<D>, link: u16, session: u64, after: usize) -> BrokerStep
    requires ready { IsReady D.Disk end.now }
    requires kind { end.now.config.kind ≡ Broker }
    requires link { link < length end.now.config.links }
    ensures { Happens D.Disk end.now end.now (broker_next end.now.notes end.now.sessions link session after) result (fate_of result) }
{
    let newer = end.last_session(link as usize);
    if session < newer {
        return BrokerStep::Replaced { newer };
    }
    match end.next(link, after) {
        Ok(Some(given)) => packet_step(given),
        Ok(None) => BrokerStep::Nothing,
        Err(_) => BrokerStep::NoMemory,
    }
}

/// The answer that gives a packet.
pub fn packet_step(given: Given) -> BrokerStep
    ensures { result ≡ BrokerStep.Packet given.at given.identifier given.packet }
{
    let Given {
        at,
        identifier,
        packet,
    } = given;
    BrokerStep::Packet {
        at,
        identifier,
        packet,
    }
}

/// Records that what was owed on a link was taken, unless a newer session of it has begun.
pub fn acked<D: Disk>(
    end: &mut EndBook<D>,
    link: u16,
    session: u64,
    identifier: &Ivorn,
) -> BrokerStep
    requires ready { IsReady D.Disk end.old }
    requires kind { end.old.config.kind ≡ Broker }
    requires link { link < length end.old.config.links }
    ensures rest { KeepsRest D.Disk end.old end.new }
    ensures happens { (rules : NodeRules) → HasRoomOf end.old.config rules
        → Happens D.Disk end.old end.new (broker_acked rules end.old.notes end.old.sessions link session identifier.now) result (fate_of result) }
    ensures no_memory { fate_of result ≡ lacked_memory → IsUnchanged D.Disk end.old end.new }
{
    let newer = end.last_session(link as usize);
    if session < newer {
        return BrokerStep::Replaced { newer };
    }
    let name = identifier.as_str().as_bytes();
    if !end.book().is_open(link, name) {
        return BrokerStep::Passed;
    }
    let Ok(identifier) = Bytes::of(end.alloc(), name) else {
        return BrokerStep::NoMemory;
    };
    match end.add(Note::Done { link, identifier }) {
        Added::Kept => BrokerStep::Noted,
        Added::Full => BrokerStep::Full,
        Added::Down { fallen } => BrokerStep::Down {
            faults: fallen.faults,
            stopped: fallen.stopped,
        },
        Added::NoMemory => BrokerStep::NoMemory,
    }
}
