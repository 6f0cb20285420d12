//! A node is asked for the next packet of a line or link, or for a session.

ghost use Rattle.std.specs.Prelude.{◌≡◌, ◌≢◌, ◌<◌, IfOk, None, Some, length, slice_get};
ghost use Rattle.std.specs.Option.{option_map};
ghost use Rattle.voe_values.specs.declared.kind.NodeKind.TheVariants.{Subscriber as ASubscriber};
ghost use Rattle.net_model.specs.Steps.{last_of};
ghost use Rattle.net_machine.specs.Works.{IsOver};
ghost use Rattle.voe_net.specs.Asked.{IsAsked, IsEntered, given_by_author, given_by_broker, session_by_broker};
ghost use Rattle.voe_net.specs.Kept.{IsNode, end_of};
ghost use Rattle.voe_net.specs.Nodes.{AreDistinct, names_of, show};
ghost use Rattle.voe_net.specs.Performed.{HasFound, HasJoined};

use crate::kept::Kept;
use author_end::{AuthorEnd, AuthorEvent};
use broker_end::{BrokerEnd, BrokerEvent};
use net_machine::EndFault;
use net_model::{AuthorStep, BrokerStep};
use voe_disk::CrashDisk;
use voe_values::{Bytes, EndName, NoMemory};

/// The first packet, at or past a place, that is open on this line or owed on this link, with its record's place.
pub fn next<D: CrashDisk>(
    kept: &mut Option<Kept<D>>,
    number: u16,
    session: u64,
    after: usize,
) -> Result<Option<(usize, Bytes)>, EndFault>
    requires node { IsNode D.Disk kept.old }
    requires over { IsOver (show (option_map end_of kept.old)) number session }
    ensures node { IsNode D.Disk kept.new }
    ensures found { HasFound D.Disk number after (option_map end_of kept.old) (option_map end_of kept.new) result }
{
    match kept {
        Some(kept) => next_of(kept, number, session, after),
        None => unreachable!(),
    }
}

fn next_of<D: CrashDisk>(
    kept: &mut Kept<D>,
    number: u16,
    session: u64,
    after: usize,
) -> Result<Option<(usize, Bytes)>, EndFault>
    requires node { IsNode D.Disk (Some kept.old) }
    requires over { IsOver (show (Some (end_of kept.old))) number session }
    ensures node { IsNode D.Disk (Some kept.new) }
    ensures found { HasFound D.Disk number after (Some (end_of kept.old)) (Some (end_of kept.new)) result }
{
    match kept {
        Kept::Author { end } => author_next(end, number, after),
        Kept::Broker { end } => broker_next(end, number, session, after),
        Kept::Subscriber { .. } => unreachable!(),
        Kept::Bare { .. } => unreachable!(),
    }
}

fn author_next<D: CrashDisk>(
    end: &mut AuthorEnd<D>,
    line: u16,
    after: usize,
) -> Result<Option<(usize, Bytes)>, EndFault>
    requires up { end.old.down ≡ None }
    requires line { line < length end.old.config.links }
    ensures { IsAsked D.Disk line after end.old end.new result }
{
    // Each place is below the number of records, which fits.
    let _notes = end.book().notes();
    author_given(end.step(AuthorEvent::Next { line, after }))
}

fn author_given(step: AuthorStep) -> Result<Option<(usize, Bytes)>, EndFault>
    ensures { result ≡ given_by_author step }
{
    match step {
        AuthorStep::Packet { at, packet, .. } => Ok(Some((at, packet))),
        AuthorStep::Nothing => Ok(None),
        _ => Err(EndFault::NoMemory),
    }
}

fn broker_next<D: CrashDisk>(
    end: &mut BrokerEnd<D>,
    link: u16,
    session: u64,
    after: usize,
) -> Result<Option<(usize, Bytes)>, EndFault>
    requires up { end.old.down ≡ None }
    requires link { link < length end.old.config.links }
    requires current { session ≡ last_of end.old.sessions link }
    ensures { IsAsked D.Disk link after end.old end.new result }
{
    // Each place is below the number of records, which fits.
    let _notes = end.book().notes();
    broker_given(end.step(BrokerEvent::Next {
        link,
        session,
        after,
    }))
}

fn broker_given(step: BrokerStep) -> Result<Option<(usize, Bytes)>, EndFault>
    ensures { result ≡ given_by_broker step }
{
    match step {
        BrokerStep::Packet { at, packet, .. } => Ok(Some((at, packet))),
        BrokerStep::Nothing => Ok(None),
        _ => Err(EndFault::NoMemory),
    }
}

/// Begins a session of this link and gives its number; an author's line has none, and 0 is given.
pub fn join<D: CrashDisk>(kept: &mut Option<Kept<D>>, number: u16) -> Result<u64, EndFault>
    requires node { IsNode D.Disk kept.old }
    requires kind { (show (option_map end_of kept.old)).config.kind ≢ ASubscriber }
    requires number { number < length (show (option_map end_of kept.old)).config.links }
    ensures node { IsNode D.Disk kept.new }
    ensures joined { HasJoined D.Disk number (option_map end_of kept.old) (option_map end_of kept.new) result }
{
    match kept {
        Some(kept) => join_of(kept, number),
        None => unreachable!(),
    }
}

fn join_of<D: CrashDisk>(kept: &mut Kept<D>, number: u16) -> Result<u64, EndFault>
    requires node { IsNode D.Disk (Some kept.old) }
    requires kind { (show (Some (end_of kept.old))).config.kind ≢ ASubscriber }
    requires number { number < length (show (Some (end_of kept.old))).config.links }
    ensures node { IsNode D.Disk (Some kept.new) }
    ensures joined { HasJoined D.Disk number (Some (end_of kept.old)) (Some (end_of kept.new)) result }
{
    match kept {
        Kept::Author { .. } => Ok(0),
        Kept::Broker { end } => broker_join(end, number),
        Kept::Subscriber { .. } => unreachable!(),
        Kept::Bare { .. } => unreachable!(),
    }
}

fn broker_join<D: CrashDisk>(end: &mut BrokerEnd<D>, link: u16) -> Result<u64, EndFault>
    requires up { end.old.down ≡ None }
    requires link { link < length end.old.config.links }
    requires each { length end.old.sessions ≡ length end.old.config.links }
    requires names { AreDistinct (names_of end.old.config.links) }
    ensures { IsEntered D.Disk link end.old end.new result }
{
    let Ok(name) = name_of(end, link) else {
        return Err(EndFault::NoMemory);
    };
    entered(end.step(BrokerEvent::Join { name }))
}

fn entered(step: BrokerStep) -> Result<u64, EndFault>
    ensures { result ≡ session_by_broker step }
{
    match step {
        BrokerStep::Joined { session, .. } => Ok(session),
        _ => Err(EndFault::NoMemory),
    }
}

/// The name of a broker's link.
fn name_of<D: CrashDisk>(end: &BrokerEnd<D>, link: u16) -> Result<EndName, NoMemory>
    requires { link < length end.now.config.links }
    ensures { IfOk result (λ name. slice_get (names_of end.now.config.links) link ≡ Some name) }
{
    match end.book().config().links.get(link as usize) {
        Some(link) => link.name.copy(),
        None => unreachable!(),
    }
}
