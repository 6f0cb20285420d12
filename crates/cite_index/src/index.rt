//! The index of citations.

ghost use Rattle.std.specs.Prelude.{◌≡◌, [], IfOk, OnErr, OnOk};
ghost use Rattle.cite_index.specs.Cites.{citing, is_of, known_of, standing, triple_of, triples_of, with_packet};
ghost use Rattle.cite_index.specs.Threads.{ListsThread};

use crate::standing::Standing;
use crate::standings::Standings;
use crate::thread::{Thread, thread_of};
use crate::triple::Triple;
use std::alloc::Global;
use std::marker::Model;
use voe_packet::{Citation, Packet};
use voe_values::{Cite, Ivorn, Listing, NoMemory};

/// Who cites an identifier, and how.
pub type Citations = Listing<(Ivorn, Cite)>;

/// The citations of packets, which contracts see as what is known of these.
#[derive(Drop)]
pub struct CiteIndex {
    added: Vec<Ivorn>,
    cites: Vec<Triple>,
    standings: Standings,
    alloc: Global,
}

impl Model for CiteIndex {
    ghost use Rattle.cite_index.specs.Cites.{Known};
    ghost use Rattle.cite_index.specs.Kept.{AreStandings};

    ghost Value = { Known };

    ghost view = { λ i. record { added = i.added.items; cites = i.cites.items } };

    ghost invariant = { λ i. AreStandings i.cites.items i.standings };
}

impl CiteIndex {
    /// No packets. It takes no memory.
    pub fn new(alloc: Global) -> CiteIndex
        ensures { result ≡ known_of [] }
    {
        CiteIndex {
            added: Vec::new(alloc),
            cites: Vec::new(alloc),
            standings: Standings::new(alloc),
            alloc,
        }
    }

    /// Adds the citations of a packet. Without memory nothing is added.
    pub fn add(&mut self, packet: &Packet) -> Result<(), NoMemory>
        ensures ok { OnOk result (self.new ≡ with_packet self.old packet.now) }
        ensures err { OnErr result (self.new ≡ self.old) }
    {
        let identifier = packet.identifier.copy()?;
        let mut more = triples_of(self.alloc, packet)?;
        self.standings.know_all(more.as_slice())?;
        if self.added.reserve(1).is_err() || self.cites.reserve(more.len()).is_err() {
            return Err(NoMemory);
        }
        self.standings.note_all(more.as_slice());
        self.cites.append(&mut more).unwrap();
        self.added.push(identifier).unwrap();
        Ok(())
    }

    /// What the citations of this identifier leave of it. One look-up, and no memory.
    pub fn standing(&self, identifier: &Ivorn) -> Standing
        ensures { result ≡ standing self.now.cites identifier.now }
    {
        self.standings.of(identifier)
    }

    /// The citations of this identifier, in the order of adding. It goes over all citations once.
    pub fn citing(&self, identifier: &Ivorn) -> Result<Citations, NoMemory>
        ensures { IfOk result (λ found. found ≡ citing self.now.cites identifier.now) }
    {
        citing_of(self.alloc, self.cites.as_slice(), identifier)
    }

    /// The identifiers that citations connect with this one, itself among them, each once: the added ones in the order
    /// of adding, then the others in byte order. It takes time and memory in proportion to all citations, and no
    /// recursion.
    pub fn thread(&self, identifier: &Ivorn) -> Result<Thread, NoMemory>
        ensures { IfOk result (λ listed. ListsThread self.now identifier.now listed) }
    {
        thread_of(
            self.alloc,
            self.added.as_slice(),
            self.cites.as_slice(),
            identifier,
        )
    }
}

fn is_of(t: &Triple, identifier: &Ivorn) -> bool
    ensures { result ≡ is_of identifier.now t.now }
{
    t.cited.as_str() == identifier.as_str()
}

fn citing_of(alloc: Global, cites: &[Triple], identifier: &Ivorn) -> Result<Citations, NoMemory>
    ensures { IfOk result (λ found. found ≡ citing cites.now identifier.now) }
{
    let mut found = Citations::new(alloc);
    for t in cites {
        if is_of(t, identifier) {
            let by = t.citing.copy()?;
            if found.push((by, t.kind)).is_err() {
                return Err(NoMemory);
            }
        }
    }
    Ok(found)
}

/// The citations of a packet, with both ends.
fn triples_of(alloc: Global, packet: &Packet) -> Result<Vec<Triple>, NoMemory>
    ensures { IfOk result (λ made. made.items ≡ triples_of packet.now) }
{
    let mut made = Vec::new(alloc);
    for c in packet.citations.as_slice() {
        let triple = triple_of(&packet.identifier, c)?;
        if made.push(triple).is_err() {
            return Err(NoMemory);
        }
    }
    Ok(made)
}

fn triple_of(citing: &Ivorn, citation: &Citation) -> Result<Triple, NoMemory>
    ensures { IfOk result (λ t. t ≡ triple_of citing.now citation.now) }
{
    let citing = citing.copy()?;
    let cited = citation.identifier.copy()?;
    Ok(Triple {
        citing,
        cited,
        kind: citation.kind,
    })
}
