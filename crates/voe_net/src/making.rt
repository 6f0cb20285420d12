//! The making of a node, and what it is asked for as a whole.

ghost use Rattle.std.specs.Prelude.{◌≡◌, ◌<◌, ℕ, true, IfErr, IfOk, IfSome, IsSome, OnOk, None, Some, length, map};
ghost use Rattle.std.specs.Option.{option_copied, option_map};
ghost use Rattle.gate_journal.specs.Journal.{EachFile};
ghost use Rattle.gate_journal.specs.Reading.{IsUnmade};
ghost use Rattle.net_model.specs.Steps.{join_link};
ghost use Rattle.node_notes.specs.Forms.{is_config};
ghost use Rattle.node_book.specs.Ends.{EndView};
ghost use Rattle.node_book.specs.Keeps.{Keeps};
ghost use Rattle.path_filter.specs.Links.{AreReadable};
ghost use Rattle.voe_values.specs.declared.kind.NodeKind.TheVariants.{Author as AnAuthor, Broker as ABroker, Subscriber as ASubscriber};
ghost use Rattle.voe_net.specs.Kept.{IsKeptNode, IsNode, end_of};
ghost use Rattle.voe_net.specs.Nodes.{AreDistinct, IsBegun, IsNotBegun, TellsCrash, disk_in, faults_of, if_kind, names_of, show};
ghost use Rattle.voe_net.specs.Sessions.{IsJoined};

use crate::crashing::{into_disk, why_lost};
use crate::kept::Kept;
use author_end::AuthorEnd;
use broker_end::{BrokerEnd, BrokerEvent};
use net_machine::EndFault;
use node_book::Config;
use std::alloc::Global;
use subscriber_end::SubscriberEnd;
use voe_disk::{CrashDisk, Disk};
use voe_values::{NoMemory, NodeKind};

/// A node on a disk that has no journal, up and without records; each link of a broker is in its first session. An
/// `Err` hands the disk back, which is not armed.
pub fn make_kept<D: CrashDisk>(
    alloc: Global,
    disk: D,
    config: Config,
) -> Result<Kept<D>, (D, EndFault)>
    requires form { is_config config ≡ true }
    requires filters { AreReadable config.links }
    requires names { AreDistinct (names_of config.links) }
    requires unmade { IfSome (D.reads disk) IsUnmade }
    requires unarmed { (D.arming disk).calls ≡ None }
    ensures node { IfOk result (IsKeptNode D.Disk) }
    ensures ok { IfOk result (λ node. IsBegun D.Disk config disk (Some (end_of node))) }
    ensures err { IfErr result (λ e. IsNotBegun D.Disk disk e.0 e.1) }
{
    match config.kind {
        NodeKind::Author => make_author(alloc, disk, config),
        NodeKind::Broker => make_broker(alloc, disk, config),
        NodeKind::Subscriber => make_subscriber(alloc, disk, config),
    }
}

fn make_author<D: CrashDisk>(
    alloc: Global,
    disk: D,
    config: Config,
) -> Result<Kept<D>, (D, EndFault)>
    requires kind { config.kind ≡ AnAuthor }
    requires form { is_config config ≡ true }
    requires filters { AreReadable config.links }
    requires names { AreDistinct (names_of config.links) }
    requires unmade { IfSome (D.reads disk) IsUnmade }
    requires unarmed { (D.arming disk).calls ≡ None }
    ensures node { IfOk result (IsKeptNode D.Disk) }
    ensures ok { IfOk result (λ node. IsBegun D.Disk config disk (Some (end_of node))) }
    ensures err { IfErr result (λ e. IsNotBegun D.Disk disk e.0 e.1) }
{
    match AuthorEnd::make(alloc, disk, config) {
        Ok(end) => Ok(Kept::Author { end }),
        Err((disk, fault)) => Err((disk, why_lost(fault))),
    }
}

fn make_broker<D: CrashDisk>(
    alloc: Global,
    disk: D,
    config: Config,
) -> Result<Kept<D>, (D, EndFault)>
    requires kind { config.kind ≡ ABroker }
    requires form { is_config config ≡ true }
    requires filters { AreReadable config.links }
    requires names { AreDistinct (names_of config.links) }
    requires unmade { IfSome (D.reads disk) IsUnmade }
    requires unarmed { (D.arming disk).calls ≡ None }
    ensures node { IfOk result (IsKeptNode D.Disk) }
    ensures ok { IfOk result (λ node. IsBegun D.Disk config disk (Some (end_of node))) }
    ensures err { IfErr result (λ e. IsNotBegun D.Disk disk e.0 e.1) }
{
    let mut end = match BrokerEnd::make(alloc, disk, config) {
        Ok(end) => end,
        Err((disk, fault)) => return Err((disk, why_lost(fault))),
    };
    match begin_sessions(&mut end) {
        Ok(()) => Ok(Kept::Broker { end }),
        Err(NoMemory) => Err((end.into_disk(), EndFault::NoMemory)),
    }
}

fn make_subscriber<D: CrashDisk>(
    alloc: Global,
    disk: D,
    config: Config,
) -> Result<Kept<D>, (D, EndFault)>
    requires kind { config.kind ≡ ASubscriber }
    requires form { is_config config ≡ true }
    requires filters { AreReadable config.links }
    requires names { AreDistinct (names_of config.links) }
    requires unmade { IfSome (D.reads disk) IsUnmade }
    requires unarmed { (D.arming disk).calls ≡ None }
    ensures node { IfOk result (IsKeptNode D.Disk) }
    ensures ok { IfOk result (λ node. IsBegun D.Disk config disk (Some (end_of node))) }
    ensures err { IfErr result (λ e. IsNotBegun D.Disk disk e.0 e.1) }
{
    match SubscriberEnd::make(alloc, disk, config) {
        Ok(end) => Ok(Kept::Subscriber { end }),
        Err((disk, fault)) => Err((disk, why_lost(fault))),
    }
}

/// Begins the first session of each link. An `Err` leaves some of them unbegun.
fn begin_sessions<D: CrashDisk>(end: &mut BrokerEnd<D>) -> Result<(), NoMemory>
    requires up { end.old.down ≡ None }
    requires names { AreDistinct (names_of end.old.config.links) }
    requires sessions { end.old.sessions ≡ map (λ link. 0) end.old.config.links }
    ensures same { IsJoined D.Disk end.old end.new }
    ensures begun { OnOk result (end.new.sessions ≡ map (λ link. 1) end.old.config.links) }
{
    for link in 0..end.book().config().links.len() {
        begin_session(end, link)?;
    }
    Ok(())
}

/// Begins a session of the link of this number.
fn begin_session<D: CrashDisk>(end: &mut BrokerEnd<D>, link: usize) -> Result<(), NoMemory>
    requires up { end.old.down ≡ None }
    requires link { link < length end.old.config.links }
    requires names { AreDistinct (names_of end.old.config.links) }
    ensures same { IsJoined D.Disk end.old end.new }
    ensures begun { OnOk result (end.new.sessions ≡ join_link end.old.sessions link) }
{
    let Some(config) = end.book().config().links.get(link) else {
        unreachable!();
    };
    let name = config.name.copy()?;
    end.step(BrokerEvent::Join { name });
    Ok(())
}

/// The disk as it is.
pub fn disk_of<D: CrashDisk>(kept: Option<Kept<D>>) -> D
    requires { IsNode D.Disk kept }
    ensures its { disk_in (option_map end_of kept) ≡ Some result }
    ensures kept { is_config (show (option_map end_of kept)).config ≡ true → EachFile D.Disk result (λ file. Keeps file (show (option_map end_of kept)).config (show (option_map end_of kept)).notes) }
    ensures unarmed { (D.arming result).calls ≡ None }
    ensures faults { D.faults result ≡ faults_of D.Disk (option_map end_of kept) }
    ensures told { TellsCrash D.Disk (option_map end_of kept) → (fill : ℕ) → IsSome (D.crash_image result fill) }
{
    match kept {
        Some(node) => into_disk(node),
        None => unreachable!(),
    }
}

/// The author, if it is one whose disk has not failed.
pub fn author_of<D: CrashDisk>(kept: &Option<Kept<D>>) -> Option<&AuthorEnd<D>>
    requires { IsNode D.Disk kept.now }
    ensures { option_copied result ≡ if_kind AnAuthor (option_map end_of kept.now) }
{
    match kept {
        Some(Kept::Author { end }) => {
            if end.book().down().is_some() {
                return None;
            }
            Some(end)
        }
        _ => None,
    }
}

/// The broker, if it is one whose disk has not failed.
pub fn broker_of<D: CrashDisk>(kept: &Option<Kept<D>>) -> Option<&BrokerEnd<D>>
    requires { IsNode D.Disk kept.now }
    ensures { option_copied result ≡ if_kind ABroker (option_map end_of kept.now) }
{
    match kept {
        Some(Kept::Broker { end }) => {
            if end.book().down().is_some() {
                return None;
            }
            Some(end)
        }
        _ => None,
    }
}

/// The subscriber, if it is one whose disk has not failed.
pub fn subscriber_of<D: CrashDisk>(kept: &Option<Kept<D>>) -> Option<&SubscriberEnd<D>>
    requires { IsNode D.Disk kept.now }
    ensures { option_copied result ≡ if_kind ASubscriber (option_map end_of kept.now) }
{
    match kept {
        Some(Kept::Subscriber { end }) => {
            if end.book().down().is_some() {
                return None;
            }
            Some(end)
        }
        _ => None,
    }
}
