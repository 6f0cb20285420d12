//! Filters.

ghost use Rattle.std.specs.Prelude.{◌≡◌, ◌↔◌, IfOk, IsTrue, MatchResult};
ghost use Rattle.filter_text.specs.Refusal.{Refuses};
ghost use Rattle.filter_text.specs.Reading.{Reads};
ghost use Rattle.filter_text.specs.Size.{IsSmall};
ghost use Rattle.filter_text.specs.View.{path_of};
ghost use Rattle.filter_text.specs.declared.filter.Path.{out-Path};
ghost use Rattle.filter_text.specs.Writing.{path_text};
ghost use Rattle.path_filter.specs.Meaning.{Passes};

use crate::copy::copy_path;
use crate::found::known_in;
use crate::lay_out::lay_out;
use crate::plan::Stage;
use filter_text::{FilterFault, Path, read_path, write_path};
use sqlite_items::Items;
use std::alloc::Global;
use std::marker::Model;
use voe_tree::Tree;
use voe_values::{NoMemory, Text};

/// A path from the document, which contracts see as its steps. It passes the trees in which it names a place.
#[derive(Drop)]
pub struct Filter {
    path: Path,
    plan: Items<Stage>,
}

impl Model for Filter {
    ghost use Rattle.std.specs.Prelude.{IsTrue};
    ghost use Rattle.filter_text.specs.Size.{IsSmall};
    ghost use Rattle.filter_text.specs.View.{path_of};
    ghost use Rattle.path_filter.specs.Plan.{newest};
    ghost use Rattle.path_filter.specs.Planned.{IsPlanOf};
    ghost use Rattle.filter_text.specs.declared.filter.Path.{Path, out-Path};
    ghost use Rattle.filter_text.specs.contracts.filter.Path as paths;
    ghost use Rattle.std.specs.Coded.{codes};

    ghost Value = { Path };

    ghost coded = { Prim.hlevel (codes, paths.the_row.coded) };

    ghost view = { λ f. f.path };

    ghost invariant = { λ f. IsTrue (out-Path f.path).is_absolute × IsSmall (path_of f.path) × IsPlanOf (newest f.plan) (path_of f.path) };
}

impl Filter {
    /// Reads a filter's text (a profile of XPath 1.0). A text that is refused is told with the place that decides.
    pub fn read(alloc: Global, text: &str) -> Result<Filter, FilterFault>
        ensures { MatchResult result (λ f. Reads (path_of f) text.now) (λ fault. Refuses text.now fault) }
    {
        match read_path(alloc, text) {
            Ok(path) => {
                let filter = with_plan(alloc, path)?;
                Ok(filter)
            }
            Err(fault) => Err(fault),
        }
    }

    /// The canonical text: no blanks but round `and` and `or`, and no parentheses that can be left out.
    pub fn write(&self, alloc: Global) -> Result<Text, NoMemory>
        ensures { IfOk result (λ text. text ≡ path_text (path_of self.now)) }
    {
        write_path(alloc, &self.path)
    }

    /// An equal filter.
    pub fn copy(&self, alloc: Global) -> Result<Filter, NoMemory>
        ensures { IfOk result (λ f. f ≡ self.now) }
    {
        let path = copy_path(alloc, &self.path)?;
        with_plan(alloc, path)
    }

    /// Whether the path names a place of the tree. It takes no memory. Each element is visited once for each path from
    /// the document, and a visit stops where all that is asked is found; comparisons of paths, but for those with a
    /// literal, are searches of their own.
    pub fn passes(&self, tree: &Tree) -> bool
        ensures { IsTrue result ↔ Passes (path_of self.now) tree.now.root }
    {
        let plan = self.plan.as_slice();
        if plan.is_empty() {
            return true;
        }
        known_in(plan, tree.root()).has(plan.len() - 1)
    }
}

/// The filter of this path.
fn with_plan(alloc: Global, path: Path) -> Result<Filter, NoMemory>
    requires absolute { IsTrue (out-Path path).is_absolute }
    requires small { IsSmall (path_of path) }
    ensures { IfOk result (λ f. f ≡ path) }
{
    let plan = lay_out(alloc, &path)?;
    Ok(Filter { path, plan })
}
