//! A filter's text as a path, or why it is none.

ghost use Rattle.std.specs.Prelude.{◌≡◌, ◌≤◌, ◌<◌, IfErr, IfOk, IsTrue, MatchResult, length};
ghost use Rattle.filter_text.specs.Machine.{beginning, walk as walked};
ghost use Rattle.filter_text.specs.Phases.{IsRead, ReadsTokens, RefusesTokens, StopsWalk};
ghost use Rattle.filter_text.specs.SentenceView.{sentence_view};
ghost use Rattle.filter_text.specs.Reading.{Reads, at_document};
ghost use Rattle.filter_text.specs.Refusal.{Refuses};
ghost use Rattle.filter_text.specs.Size.{IsSmall};
ghost use Rattle.filter_tokens.specs.TokenView.{placed_views};
ghost use Rattle.filter_text.specs.View.{path_of};
ghost use Rattle.filter_text.specs.declared.filter.Path.{out-Path};

use crate::fault::FilterFault;
use crate::filter::Path;
use crate::walk::{Sentence, first_outside, first_too_deep, into_sentence, walk};
use filter_tokens::{Placed, tokens};
use std::alloc::Global;

const MAX_LENGTH: usize = 1024;

/// The path that starts at the document, also where it was written without a beginning.
#[tactic(auto, using(crate::proofs::Views::views))]
fn at_document(path: Path) -> Path
    ensures value { path_of result ≡ at_document (path_of path) }
    ensures absolute { IsTrue (out-Path result).is_absolute }
{
    Path {
        is_absolute: true,
        steps: path.steps,
    }
}

/// What the tokens are.
fn sentence(alloc: Global, tokens: &[Placed<'_>]) -> Result<Sentence, FilterFault>
    ensures { MatchResult result (λ r. IsRead (walked (placed_views tokens.now) beginning) (sentence_view r)) (λ fault. StopsWalk (walked (placed_views tokens.now) beginning) fault) }
{
    let machine = walk(alloc, tokens)?;
    Ok(into_sentence(machine)?)
}

/// The filter of tokens that stand in a text of that length.
fn read_tokens(alloc: Global, tokens: &[Placed<'_>], end: usize) -> Result<Path, FilterFault>
    ensures cause { MatchResult result (λ p. ReadsTokens (path_of p) (placed_views tokens.now)) (λ fault. RefusesTokens (placed_views tokens.now) end fault) }
    ensures absolute { IfOk result (λ p. IsTrue (out-Path p).is_absolute) }
{
    if let Some(place) = first_outside(tokens) {
        return Err(FilterFault::OutOfProfile { place });
    }
    match sentence(alloc, tokens) {
        Err(fault) => Err(fault),
        Ok(Sentence::Unfinished) => Err(FilterFault::Syntax { place: end }),
        Ok(Sentence::Condition) => match first_too_deep(tokens) {
            Some(place) => Err(FilterFault::TooDeep { place }),
            None => Err(FilterFault::NotPath { place: 0 }),
        },
        Ok(Sentence::Path(path)) => match first_too_deep(tokens) {
            Some(place) => Err(FilterFault::TooDeep { place }),
            None => Ok(at_document(path)),
        },
    }
}

/// The path that a filter's text is (a location path of XPath 1.0 in this project's profile); it starts at the
/// document. The first phase that fails decides: the length, whole tokens, tokens of the profile, the grammar, the
/// nesting, and that it is a path and no condition.
pub fn read_path(alloc: Global, text: &str) -> Result<Path, FilterFault>
    ensures reads { IfOk result (λ p. Reads (path_of p) text.now) }
    ensures refuses { IfErr result (λ fault. Refuses text.now fault) }
    ensures small { IfOk result (λ p. IsSmall (path_of p)) }
    ensures absolute { IfOk result (λ p. IsTrue (out-Path p).is_absolute) }
{
    if text.is_empty() {
        return Err(FilterFault::Length { place: 0 });
    }
    if MAX_LENGTH < text.len() {
        return Err(FilterFault::Length { place: MAX_LENGTH });
    }
    let (tokens, rest) = tokens(alloc, text)?;
    if !rest.is_empty() {
        let place = text.len() - rest.len();
        return Err(FilterFault::BadToken { place });
    }
    read_tokens(alloc, tokens.as_slice(), text.len())
}
