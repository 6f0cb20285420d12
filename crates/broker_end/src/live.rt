//! What a guest is given.

ghost use Rattle.std.specs.Prelude.{◌≡◌, ◌≤◌, ◌<◌, ◌↔◌, ℕ, List, Bool, IsTrue, IfOk, MatchOption, Some, length, slice_get};
ghost use Rattle.voe_values.specs.declared.kind.NodeKind.TheVariants.{Broker};
ghost use Rattle.net_model.specs.Steps.{broker_live};
ghost use Rattle.node_book.specs.EndSteps.{Happens, IsReady};
ghost use Rattle.broker_end.specs.Broker.{IsLiveAnswer, IsShort, IsShown, IsShownBy, NoneIsShown, fate_of};

use crate::sessions::packet_step;
use net_model::{BrokerStep, Note};
use node_book::EndBook;
use path_filter::FilterSet;
use std::alloc::Global;
use voe_disk::Disk;
use voe_tree::laws::spelled_is_not_refused;
use voe_tree::{TreeFault, read_tree};
use voe_values::NoMemory;

/// The first packet at or past a place that a guest's filters pass.
pub fn live<D: Disk>(end: &EndBook<D>, after: usize, filters: &FilterSet) -> BrokerStep
    requires ready { IsReady D.Disk end.now }
    ensures happens { (shows : List ℕ → Bool) → IsShownBy end.now.notes filters.now shows
        → Happens D.Disk end.now end.now (broker_live end.now.notes after shows) result (fate_of result) }
    ensures plain { IsLiveAnswer end.now.notes after filters.now result }
{
    let Ok(found) = first_shown(end, after, filters) else {
        return BrokerStep::NoMemory;
    };
    match found {
        None => BrokerStep::Nothing,
        Some(at) => match end.give(at) {
            Ok(given) => packet_step(given),
            Err(_) => BrokerStep::NoMemory,
        },
    }
}

/// The place of the first note at or past another that accepts a packet which the filters pass.
fn first_shown<D: Disk>(
    end: &EndBook<D>,
    after: usize,
    filters: &FilterSet,
) -> Result<Option<usize>, NoMemory>
    requires ready { IsReady D.Disk end.now }
    ensures { IfOk result (λ found. MatchOption found (NoneIsShown end.now.notes filters.now after (length end.now.notes))
        (λ at. (after ≤ at) × IsShown filters.now (slice_get end.now.notes at) × NoneIsShown end.now.notes filters.now after at)) }
{
    for at in after..end.book().notes() {
        if let Some(note) = end.book().note(at) {
            if is_shown(end.alloc(), note, filters)? {
                return Ok(Some(at));
            }
        }
    }
    Ok(None)
}

/// Whether a note accepts a packet that the filters pass.
fn is_shown(alloc: Global, note: &Note, filters: &FilterSet) -> Result<bool, NoMemory>
    requires { IsShort note.now }
    ensures { IfOk result (λ shown. IsTrue shown ↔ IsShown filters.now (Some note.now)) }
{
    match note {
        Note::Accept { packet, .. } => match read_tree(alloc, packet.as_slice()) {
            Ok(tree) => Ok(filters.passes(&tree)),
            Err(fault) => match fault {
                TreeFault::NoMemory => Err(NoMemory),
                _ => {
                    // Bytes that spell a tree are refused for nothing but want of memory.
                    spelled_is_not_refused();
                    Ok(false)
                }
            },
        },
        _ => Ok(false),
    }
}
