//! Sets of filters.

ghost use Rattle.std.specs.Prelude.{◌≡◌, ◌≤◌, ◌↔◌, ◌∷◌, ◌++◌, List, [], IfOk, IsTrue, MatchOption, MatchResult, OnOk, Some, false, length, slice_get, take};
ghost use Rattle.xml_lexer.specs.Characters.{Text};
ghost use Rattle.filter_text.specs.Refusal.{Refuses};
ghost use Rattle.filter_text.specs.Reading.{Reads};
ghost use Rattle.filter_text.specs.View.{path_of};
ghost use Rattle.path_filter.specs.Meaning.{Passes};
ghost use Rattle.path_filter.specs.Sets.{AreRead, AreReadLeniently, Filters, IsRefused, OnePasses, RefusesSet, SetPasses};

use crate::filter::Filter;
use crate::set_fault::SetFault;
use filter_text::FilterFault;
use std::alloc::Global;
use std::marker::Model;
use voe_tree::Tree;
use voe_values::{NoMemory, Text};

/// Filters of which one has to pass a tree; without filters every tree passes. Contracts see it as the list of its
/// filters, in which a text that was refused stands as nothing.
#[derive(Drop)]
pub struct FilterSet {
    filters: Vec<Option<Filter>>,
}

impl Model for FilterSet {
    ghost use Rattle.std.specs.Prelude.{List, Option};
    ghost use Rattle.filter_text.specs.declared.filter.Path.{Path};
    ghost use Rattle.filter_text.specs.contracts.filter.Path as paths;
    ghost use Rattle.std.specs.Coded.{codes};

    ghost Value = { List (Option Path) };

    ghost coded = { Prim.hlevel (codes, paths.the_row.coded) };

    ghost view = { λ set. set.filters.items };
}

/// How many filters a set can have.
const MAX_FILTERS: usize = 16;

/// Why texts are no set, where this one is the first that is refused.
fn refused(at: usize, fault: FilterFault) -> SetFault
    ensures { (texts : List Text) (before : Filters) (s : Text) → length texts ≤ 16 → AreRead before (take at texts)
        → slice_get texts at ≡ Some s → Refuses s fault → RefusesSet texts result }
{
    match fault {
        FilterFault::NoMemory => SetFault::NoMemory,
        _ => SetFault::Refused { at, fault },
    }
}

fn add(filters: &mut Vec<Option<Filter>>, filter: Filter) -> Result<(), NoMemory>
    ensures { OnOk result (filters.new.items ≡ filters.old.items ++ Some filter ∷ []) }
{
    filters.push(Some(filter))?;
    Ok(())
}

/// The filter that the text spells, or nothing where it is refused.
fn read_leniently(alloc: Global, text: &str) -> Result<Option<Filter>, NoMemory>
    ensures { IfOk result (λ o. MatchOption o (IsRefused text.now) (λ f. Reads (path_of f) text.now)) }
{
    match Filter::read(alloc, text) {
        Ok(filter) => Ok(Some(filter)),
        Err(FilterFault::NoMemory) => Err(NoMemory),
        Err(_) => Ok(None),
    }
}

/// The first texts, as many as a set can have.
fn first(texts: &[Text]) -> &[Text]
    ensures { result.now ≡ take 16 texts.now }
{
    if texts.len() <= MAX_FILTERS {
        texts
    } else {
        &texts[..MAX_FILTERS]
    }
}

/// Whether the filter is there and passes the tree.
fn passes_alone(filter: &Option<Filter>, tree: &Tree) -> bool
    ensures { MatchOption filter.now (result ≡ false) (λ f. IsTrue result ↔ Passes (path_of f) tree.now.root) }
{
    match filter {
        None => false,
        Some(filter) => filter.passes(tree),
    }
}

/// Whether one of the filters passes the tree.
fn one_passes(filters: &[Option<Filter>], tree: &Tree) -> bool
    ensures { IsTrue result ↔ OnePasses filters.now tree.now.root }
{
    match filters {
        [] => false,
        [first, more @ ..] => passes_alone(first, tree) || one_passes(more, tree),
    }
}

impl FilterSet {
    /// No filters: every tree passes. It takes no memory.
    pub fn new(alloc: Global) -> FilterSet
        ensures { result ≡ [] }
    {
        FilterSet {
            filters: Vec::new(alloc),
        }
    }

    /// The set of the filters that the texts spell. More than 16 are refused first, and then the first text that is no
    /// filter.
    pub fn of(alloc: Global, texts: &[Text]) -> Result<FilterSet, SetFault>
        ensures { MatchResult result (λ set. (length texts.now ≤ 16) × AreRead set texts.now) (λ fault. RefusesSet texts.now fault) }
    {
        if texts.len() > MAX_FILTERS {
            return Err(SetFault::TooMany);
        }
        let mut filters = Vec::new(alloc);
        for (at, text) in texts.iter().enumerate() {
            match Filter::read(alloc, text.as_str()) {
                Ok(filter) => add(&mut filters, filter)?,
                Err(fault) => return Err(refused(at, fault)),
            }
        }
        Ok(FilterSet { filters })
    }

    /// The set of what the first 16 texts spell. A text that is refused stands as a filter that passes nothing.
    pub fn lenient(alloc: Global, texts: &[Text]) -> Result<FilterSet, NoMemory>
        ensures { IfOk result (λ set. AreReadLeniently set (take 16 texts.now)) }
    {
        let mut filters = Vec::new(alloc);
        for text in first(texts) {
            let filter = read_leniently(alloc, text.as_str())?;
            filters.push(filter)?;
        }
        Ok(FilterSet { filters })
    }

    /// An equal set.
    pub fn copy(&self) -> Result<FilterSet, NoMemory>
        ensures { IfOk result (λ set. set ≡ self.now) }
    {
        let alloc = *self.filters.allocator();
        let mut filters = Vec::new(alloc);
        for filter in self.filters.as_slice() {
            let filter = copy_alone(alloc, filter)?;
            filters.push(filter)?;
        }
        Ok(FilterSet { filters })
    }

    /// Whether one of the filters passes the tree, or there are none. It takes no memory.
    pub fn passes(&self, tree: &Tree) -> bool
        ensures { IsTrue result ↔ SetPasses self.now tree.now.root }
    {
        let filters = self.filters.as_slice();
        if filters.is_empty() {
            return true;
        }
        one_passes(filters, tree)
    }
}

fn copy_alone(alloc: Global, filter: &Option<Filter>) -> Result<Option<Filter>, NoMemory>
    ensures { IfOk result (λ o. o ≡ filter.now) }
{
    match filter {
        None => Ok(None),
        Some(filter) => {
            let filter = filter.copy(alloc)?;
            Ok(Some(filter))
        }
    }
}
