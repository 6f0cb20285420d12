//! The thread of an identifier.

ghost use Rattle.std.specs.Prelude.{◌≡◌, ◌≤◌, ◌∷◌, ◌++◌, [], if◌then◌else◌, IfOk, OnOk, IsPermutation, IsSorted, length};
ghost use Rattle.std.specs.Ordering.{nat_cmp};
ghost use Rattle.std.specs.Cmp.Lexicographic.{slice_cmp};
ghost use Rattle.cite_index.specs.Names.{AreDistinct};
ghost use Rattle.cite_index.specs.Threads.{AreEdges, IsFront, IsListed, ListsThread, firsts, known, picked};

use crate::connected::connected;
use crate::names::Names;
use crate::triple::Triple;
use std::alloc::Global;
use voe_values::{Ivorn, Listing, NoMemory};

/// Identifiers that citations connect, each once.
pub type Thread = Listing<Ivorn>;

/// The thread of an identifier, where these were added and have these citations.
pub fn thread_of(
    alloc: Global,
    added: &[Ivorn],
    cites: &[Triple],
    identifier: &Ivorn,
) -> Result<Thread, NoMemory>
    ensures { IfOk result (λ listed. ListsThread (known added.now cites.now) identifier.now listed) }
{
    let mut names = Names::new(alloc);
    number_all(&mut names, added)?;
    let count = names.len();
    let start = names.number(identifier)?;
    let edges = numbered(alloc, &mut names, cites)?;
    let Ok(marks) = connected(alloc, names.len(), edges.as_slice(), start) else {
        return Err(NoMemory);
    };
    listed(alloc, names.as_slice(), marks.as_slice(), count)
}

/// Numbers identifiers that none had a number before.
fn number_all(names: &mut Names, identifiers: &[Ivorn]) -> Result<(), NoMemory>
    requires { names.old ≡ [] }
    ensures { OnOk result (names.new ≡ firsts identifiers.now) }
{
    for identifier in identifiers {
        let _ = names.number(identifier)?;
    }
    Ok(())
}

/// The citations as edges between numbers.
fn numbered(
    alloc: Global,
    names: &mut Names,
    cites: &[Triple],
) -> Result<Vec<(usize, usize)>, NoMemory>
    ensures front { OnOk result (IsFront names.old names.new) }
    ensures edges { IfOk result (λ edges. AreEdges names.new cites.now edges.items) }
{
    let mut edges = Vec::new(alloc);
    for t in cites {
        let citing = names.number(&t.citing)?;
        let cited = names.number(&t.cited)?;
        if edges.push((citing, cited)).is_err() {
            return Err(NoMemory);
        }
    }
    Ok(edges)
}

/// The marked names: the first so many in their order, then the others in byte order.
fn listed(alloc: Global, names: &[Ivorn], marks: &[bool], count: usize) -> Result<Thread, NoMemory>
    requires within { count ≤ length names.now }
    requires same { length marks.now ≡ length names.now }
    requires distinct { AreDistinct names.now }
    ensures { IfOk result (λ listed. IsListed names.now marks.now count listed) }
{
    let mut listed = picked(alloc, &names[..count], &marks[..count])?;
    let mut others = picked(alloc, &names[count..], &marks[count..])?;
    sort(&mut others)?;
    if listed.append(&mut others).is_err() {
        return Err(NoMemory);
    }
    Ok(Thread::from_vec(listed))
}

/// The marked ones of these names.
fn picked(alloc: Global, names: &[Ivorn], marks: &[bool]) -> Result<Vec<Ivorn>, NoMemory>
    requires { length marks.now ≡ length names.now }
    ensures { IfOk result (λ found. found.items ≡ picked names.now marks.now) }
{
    let mut found = Vec::new(alloc);
    for at in 0..names.len() {
        add_if(&mut found, &names[at], marks[at])?;
    }
    Ok(found)
}

/// Adds a copy of an identifier that has a mark.
fn add_if(found: &mut Vec<Ivorn>, name: &Ivorn, mark: bool) -> Result<(), NoMemory>
    ensures { OnOk result (found.new.items ≡ found.old.items ++ (if mark then name.now ∷ [] else [])) }
{
    if !mark {
        return Ok(());
    }
    let own = name.copy()?;
    match found.push(own) {
        Ok(()) => Ok(()),
        Err(_) => Err(NoMemory),
    }
}

/// Puts identifiers into byte order.
fn sort(identifiers: &mut Vec<Ivorn>) -> Result<(), NoMemory>
    ensures permutation { IsPermutation identifiers.old.items identifiers.new.items }
    ensures sorted { OnOk result (IsSorted (slice_cmp nat_cmp) identifiers.new.items) }
{
    match identifiers.sort_by(|a, b| a.as_str().cmp(b.as_str())) {
        Ok(()) => Ok(()),
        Err(_) => Err(NoMemory),
    }
}
