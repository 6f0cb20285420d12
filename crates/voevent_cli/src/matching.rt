//! The command `match`.

ghost use Rattle.std.specs.Prelude.{◌≡◌, ◌≤◌, IfOk, codes, length};
ghost use Rattle.filter_text.specs.View.{path_of};
ghost use Rattle.voevent_cli.specs.Documents as documents;
ghost use Rattle.voevent_cli.specs.Matches.{IsMatched, MatchedOf, refusal_of_filter};
ghost use Rattle.voevent_cli.specs.Outcomes.{done};

use crate::document::refuse_tree;
use crate::outcome::{Outcome, Status};
use crate::refusal::Refusal;
use filter_text::FilterFault;
use path_filter::Filter;
use std::alloc::Global;
use voe_tree::{Tree, read_tree};
use voe_values::{Bytes, NoMemory};

/// The refusal of a filter's text; nothing for want of memory.
pub(crate) fn refusal_of(fault: FilterFault) -> Option<Refusal>
    ensures { result ≡ refusal_of_filter fault }
{
    match fault {
        FilterFault::Length { place } => Some(Refusal::Filter { number: 1, place }),
        FilterFault::BadToken { place } => Some(Refusal::Filter { number: 2, place }),
        FilterFault::OutOfProfile { place } => Some(Refusal::Filter { number: 3, place }),
        FilterFault::Syntax { place } => Some(Refusal::Filter { number: 4, place }),
        FilterFault::TooDeep { place } => Some(Refusal::Filter { number: 5, place }),
        FilterFault::NotPath { place } => Some(Refusal::Filter { number: 6, place }),
        FilterFault::NoMemory => None,
    }
}

/// The outcome where the filter passes the document.
fn passes(alloc: Global) -> Result<Outcome, NoMemory>
    ensures { IfOk result (λ outcome. outcome ≡ done (codes "passes\n")) }
{
    Ok(Outcome {
        status: Status::Done,
        output: Bytes::of(alloc, b"passes\n")?,
    })
}

/// The outcome where it doesn't.
fn fails(alloc: Global) -> Result<Outcome, NoMemory>
    ensures { IfOk result (λ outcome. outcome ≡ done (codes "fails\n")) }
{
    Ok(Outcome {
        status: Status::Done,
        output: Bytes::of(alloc, b"fails\n")?,
    })
}

/// What is said of a tree.
fn match_tree(alloc: Global, filter: &Filter, tree: &Tree) -> Result<Outcome, NoMemory>
    ensures { IfOk result (λ outcome. IsMatched (path_of filter.now) (documents.tree tree.now.root) outcome) }
{
    if filter.passes(tree) {
        let outcome = passes(alloc)?;
        return Ok(outcome);
    }
    let outcome = fails(alloc)?;
    Ok(outcome)
}

/// What `match` answers to an input, for a filter that was read.
pub(crate) fn match_input(alloc: Global, filter: &Filter, input: &[u8]) -> Result<Outcome, NoMemory>
    requires { length input.now ≤ 1048576 }
    ensures { IfOk result (λ outcome. MatchedOf (path_of filter.now) input.now outcome) }
{
    match read_tree(alloc, input) {
        Ok(tree) => {
            let outcome = match_tree(alloc, filter, &tree)?;
            Ok(outcome)
        }
        Err(fault) => refuse_tree(alloc, fault),
    }
}
