//! Facts of the definitions that the crates above cite, each told by a function that does nothing.

ghost use Rattle.std.specs.Prelude.{◌≡◌, ◌≢◌, ◌≤◌, ◌⊎◌, ◌↔◌, List, length};
ghost use Rattle.xml_lexer.specs.Characters.{Text};
ghost use Rattle.voe_tree.specs.Document.{Spells};
ghost use Rattle.voe_tree.specs.Fault.{RefusesTree};
ghost use Rattle.voe_tree.specs.declared.element.Element.{Element};
ghost use Rattle.voe_tree.specs.declared.fault.TreeFault.{TreeFault};
ghost use Rattle.voe_tree.specs.declared.fault.TreeFault.TheVariants as tree_faults;
ghost use Rattle.path_filter.specs.Sets.{AreRead, AreReadLeniently, BytesPass, Filters, RefusesSet, SetPasses, data_of, max_filters};
ghost use Rattle.path_filter.specs.declared.set_fault.SetFault.{SetFault};
ghost use Rattle.path_filter.specs.declared.set_fault.SetFault.TheVariants as set_faults;

use filter_text::laws::{filters_are_unique, read_is_not_refused, refusals_are_unique};
use voe_tree::laws::{spelled_is_not_refused, trees_are_unique};

/// A set passes the bytes of a tree exactly where it passes the tree.
pub fn bytes_pass_as_their_tree()
    ensures { (set : Filters) (bytes : Text) (root : Element) → Spells root bytes → BytesPass set bytes ↔ SetPasses set root }
{
    trees_are_unique();
}

/// Bytes that are no tree are passed by no set, not even by the one without filters.
pub fn no_set_passes_what_is_no_tree()
    ensures { (set : Filters) (bytes : Text) (fault : TreeFault) → RefusesTree bytes fault → fault ≢ tree_faults.NoMemory → BytesPass set bytes → ⊥ }
{
    spelled_is_not_refused();
}

/// Texts spell one set.
pub fn sets_are_unique()
    ensures { (texts : List Text) (a b : Filters) → AreRead a texts → AreRead b texts → data_of a ≡ data_of b }
{
    filters_are_unique();
}

/// Texts spell one lenient set.
pub fn lenient_sets_are_unique()
    ensures { (texts : List Text) (a b : Filters) → AreReadLeniently a texts → AreReadLeniently b texts → data_of a ≡ data_of b }
{
    filters_are_unique();
    read_is_not_refused();
}

/// Texts that spell a set are refused for nothing but want of memory.
pub fn read_sets_are_not_refused()
    ensures { (texts : List Text) (set : Filters) (fault : SetFault) → length texts ≤ max_filters → AreRead set texts → RefusesSet texts fault
        → fault ≡ set_faults.NoMemory }
{
    read_is_not_refused();
}

/// Texts have at most one refusal besides want of memory.
pub fn set_refusals_are_unique()
    ensures { (texts : List Text) (a b : SetFault) → RefusesSet texts a → RefusesSet texts b
        → (a ≡ set_faults.NoMemory) ⊎ ((b ≡ set_faults.NoMemory) ⊎ (a ≡ b)) }
{
    read_is_not_refused();
    refusals_are_unique();
}

/// What a set passes depends on its filters as data alone.
pub fn equal_sets_pass_the_same()
    ensures { (a b : Filters) (root : Element) → data_of a ≡ data_of b → SetPasses a root → SetPasses b root }
{}
