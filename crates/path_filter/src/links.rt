//! Filters of links.

ghost use Rattle.std.specs.Prelude.{◌≡◌, ◌≤◌, ◌++◌, ◌∷◌, ◌^◌, ◌<◌, [], IfOk, IfErr, MatchResult, OnOk, List, length, take, IsErrOf};
ghost use Rattle.path_filter.specs.Sets.{AreRead, RefusesSet};
ghost use Rattle.path_filter.specs.declared.set_fault.SetFault.TheVariants.{NoMemory as Wanting};
ghost use Rattle.path_filter.specs.Links.{AreDecided, AreOf, ArePassing, AreReadable, HasRefused, numbers_of};

use crate::filter_set::FilterSet;
use crate::link_fault::LinkFault;
use crate::set_fault::SetFault;
use node_notes::{Config, LinkConfig};
use std::alloc::Global;
use voe_tree::Tree;
use voe_values::{Listing, NoMemory};

/// The filters of a node's links, a set for each link.
#[derive(Drop)]
pub struct LinkFilters {
    pub sets: Listing<FilterSet>,
}

impl LinkFilters {
    /// The filters of a configuration's links.
    pub fn read(alloc: Global, links: &[LinkConfig]) -> Result<LinkFilters, LinkFault>
        ensures { MatchResult result (λ filters. AreOf filters.sets links.now) (λ fault. fault ≡ LinkFault.Refused → HasRefused links.now) }
    {
        let mut sets = Listing::new(alloc);
        for link in links {
            let set = read_set(alloc, link)?;
            if let Err(_) = sets.push(set) {
                return Err(LinkFault::NoMemory);
            }
        }
        Ok(LinkFilters { sets })
    }

    /// The numbers of the links that pass a tree, rising.
    pub fn passing(&self, alloc: Global, tree: &Tree) -> Result<Listing<u16>, NoMemory>
        requires { length self.now.sets ≤ 65536 }
        ensures { IfOk result (λ numbers. ArePassing numbers self.now.sets tree.now.root) }
    {
        let bits = self.decide(alloc, tree)?;
        numbers_of(alloc, bits.as_slice())
    }

    /// Of each link, whether its filters pass the tree.
    fn decide(&self, alloc: Global, tree: &Tree) -> Result<Listing<bool>, NoMemory>
        ensures { IfOk result (λ bits. AreDecided bits self.now.sets tree.now.root) }
    {
        let mut bits = Listing::new(alloc);
        for set in self.sets.as_slice() {
            if let Err((_, fault)) = bits.push(set.passes(tree)) {
                return Err(fault);
            }
        }
        Ok(bits)
    }
}

/// The numbers of those places that are set, counted from 0.
fn numbers_of(alloc: Global, bits: &[bool]) -> Result<Listing<u16>, NoMemory>
    requires { length bits.now ≤ 65536 }
    ensures { IfOk result (λ numbers. numbers ≡ numbers_of 0 bits.now) }
{
    let mut numbers = Listing::new(alloc);
    for (number, bit) in bits.iter().enumerate() {
        if *bit {
            if let Err((_, fault)) = numbers.push(number as u16) {
                return Err(fault);
            }
        }
    }
    Ok(numbers)
}

fn read_set(alloc: Global, link: &LinkConfig) -> Result<FilterSet, LinkFault>
    ensures read { IfOk result (λ set. AreRead set link.now.filters) }
    ensures refused { IfErr result (λ fault. fault ≡ LinkFault.Refused → (refusal : _) × RefusesSet link.now.filters refusal × (refusal ≡ Wanting → ⊥)) }
{
    match FilterSet::of(alloc, link.filters.as_slice()) {
        Ok(set) => Ok(set),
        Err(SetFault::NoMemory) => Err(LinkFault::NoMemory),
        Err(_) => Err(LinkFault::Refused),
    }
}

/// Whether all filters of a configuration read.
pub fn check_filters(alloc: Global, config: &Config) -> Result<(), LinkFault>
    ensures ok { OnOk result (AreReadable config.now.links) }
    ensures err { IfErr result (λ fault. fault ≡ LinkFault.Refused → HasRefused config.now.links) }
{
    LinkFilters::read(alloc, config.links.as_slice())?;
    Ok(())
}
