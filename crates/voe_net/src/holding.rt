//! What a node holds.

ghost use Rattle.std.specs.Prelude.{◌≡◌, ◌≤◌, ℕ, List, IfOk, IfSome, length, slice_get, true};
ghost use Rattle.std.specs.Option.{option_copied, option_map};
ghost use Rattle.net_model.specs.Notes.{knows as knows_among};
ghost use Rattle.net_model.specs.Laws.{IsIn};
ghost use Rattle.net_model.specs.Rules.{NodeRules};
ghost use Rattle.net_model.specs.Runs.{is_new_identifier};
ghost use Rattle.node_notes.specs.Forms.{is_identifier};
ghost use Rattle.node_notes.specs.Held.{identifier_in};
ghost use Rattle.net_machine.specs.Ends.{IsPacket};
ghost use Rattle.net_machine.specs.Owed.{owed as owed_by};
ghost use Rattle.voe_net.specs.Kept.{IsNode, end_of};
ghost use Rattle.voe_net.specs.Nodes.{show};
ghost use Rattle.voe_net.specs.Right.{IsRight};
ghost use Rattle.voe_net.specs.Up.{book_if, book_up as book_of};

use crate::kept::Kept;
use net_model::{Judged, Note};
use node_book::Book;
use std::alloc::Global;
use voe_disk::CrashDisk;
use voe_validity::{Judging, judge};
use voe_values::{Bytes, NoMemory, NodeKind};

/// Tells whether the packet is bad or has an identifier that the node doesn't hold.
pub fn is_new<D: CrashDisk>(
    alloc: Global,
    kept: &Option<Kept<D>>,
    packet: &Bytes,
) -> Result<bool, NoMemory>
    requires { IsPacket packet.now }
    ensures { IfOk result (λ new. (rules : NodeRules) (packets : List (List ℕ)) → IsIn packet.now packets
        → IsRight (show (option_map end_of kept.now)).config packets rules
        → new ≡ is_new_identifier (show (option_map end_of kept.now)).notes (rules.judge packet.now)) }
{
    let Judging { judged, .. } = judge(alloc, packet.as_slice())?;
    match judged {
        Judged::Good { identifier } => Ok(!knows(kept, &identifier)),
        Judged::BadTree { .. } => Ok(true),
        Judged::BadPacket { .. } => Ok(true),
    }
}

fn knows<D: CrashDisk>(kept: &Option<Kept<D>>, identifier: &Bytes) -> bool
    ensures { result ≡ knows_among (show (option_map end_of kept.now)).notes identifier.now }
{
    match book_up(kept) {
        Some(book) => book.knows(identifier.as_slice()),
        None => false,
    }
}

/// The number of records.
pub fn notes<D: CrashDisk>(kept: &Option<Kept<D>>) -> usize
    ensures { result ≡ length (show (option_map end_of kept.now)).notes }
{
    match book_up(kept) {
        Some(book) => book.notes(),
        None => 0,
    }
}

/// The record at this place, counted from 0; nothing exactly past the end.
pub fn note<D: CrashDisk>(kept: &Option<Kept<D>>, at: usize) -> Option<&Note>
    ensures value { option_copied result ≡ slice_get (show (option_map end_of kept.now)).notes at }
    ensures identifier { IfSome result (λ note. is_identifier (identifier_in note.now) ≡ true) }
{
    match book_up(kept) {
        Some(book) => book.note(at),
        None => None,
    }
}

/// How many pairs of a link and an identifier a broker owes.
pub fn owed<D: CrashDisk>(kept: &Option<Kept<D>>) -> u128
    requires { IsNode D.Disk kept.now }
    ensures { result ≡ owed_by (show (option_map end_of kept.now)).config.kind (show (option_map end_of kept.now)).notes (length (show (option_map end_of kept.now)).config.links) }
{
    match book_up(kept) {
        Some(book) => owed_in(book),
        None => 0,
    }
}

fn owed_in<D: CrashDisk>(book: &Book<D>) -> u128
    requires { length book.now.config.links ≤ 64 }
    ensures { result ≡ owed_by book.now.config.kind book.now.notes (length book.now.config.links) }
{
    if book.config().kind != NodeKind::Broker {
        return 0;
    }
    let mut sum: u128 = 0;
    for link in 0..book.config().links.len() {
        sum += book.owed(link as u16) as u128;
    }
    sum
}

/// The book of a node that is up.
pub fn book_up<D: CrashDisk>(kept: &Option<Kept<D>>) -> Option<&Book<D>>
    ensures { option_copied result ≡ book_of (option_map end_of kept.now) }
{
    match kept {
        Some(Kept::Author { end }) => if_up(end.book()),
        Some(Kept::Broker { end }) => if_up(end.book()),
        Some(Kept::Subscriber { end }) => if_up(end.book()),
        Some(Kept::Bare { .. }) => None,
        None => None,
    }
}

fn if_up<D: CrashDisk>(book: &Book<D>) -> Option<&Book<D>>
    ensures { option_copied result ≡ book_if book.now book.now.down }
{
    if book.down().is_none() {
        Some(book)
    } else {
        None
    }
}
