//! What the words ask for.

ghost use Rattle.std.specs.Prelude.{◌≡◌, ◌≢◌, ℕ, IfErr, IfOk, MatchOption, codes, map};
ghost use Rattle.std.specs.declared.option.Option.{Option};
ghost use Rattle.std.specs.Option.{option_map};
ghost use Rattle.clap.specs.Matches.{found_of};
ghost use Rattle.clap.specs.Values.{kind_of};
ghost use Rattle.clap.specs.Walk.{all_of, first_of, rows_of};
ghost use Rattle.online_words.specs.Requests.{AsksOrFaulty, IsCount, IsCountOf, IsPause, RequestOrFaulty, upstream_in};

use crate::command::matches_of;
use crate::request::{Request, WordsFault};
use clap::error::ErrorKind;
use clap::{ArgMatches, Error};
use std::alloc::Global;
use voe_values::{Listing, NoMemory, Text};

/// The first value of an argument.
fn word_of<'a>(found: &ArgMatches<'a>, id: &str) -> Option<&'a str>
    ensures { option_map (λ s. s.now) result ≡ first_of id.now (rows_of (found_of found.now)) }
{
    found.get_str(id)
}

/// The number that a text is, from 1 to a limit.
fn count_in(text: &str, most: u32) -> Option<u32>
    ensures { MatchOption result ((n : ℕ) → IsCount most text.now n → ⊥) (IsCount most text.now) }
{
    match text.parse::<u32>() {
        Ok(count) if 1 <= count && count <= most => Some(count),
        _ => None,
    }
}

/// The number that the first value of an argument is, from 1 to a limit.
fn count_of(found: &ArgMatches<'_>, id: &str, most: u32) -> Option<u32>
    ensures { MatchOption result ((n : ℕ) → IsCountOf most id.now (rows_of (found_of found.now)) n → ⊥) (IsCountOf most id.now (rows_of (found_of found.now))) }
{
    match word_of(found, id) {
        Some(word) => count_in(word, most),
        None => None,
    }
}

/// The pause before what has ended is dialled again, where there is one.
fn pause_of(found: &ArgMatches<'_>) -> Result<Option<u32>, WordsFault>
    ensures pause { IfOk result (IsPause (rows_of (found_of found.now))) }
    ensures faulty { IfErr result (λ fault. (pause : Option ℕ) → IsPause (rows_of (found_of found.now)) pause → ⊥) }
{
    match word_of(found, "redial") {
        None => Ok(None),
        Some(word) => match count_in(word, 86_400) {
            Some(seconds) => Ok(Some(seconds)),
            None => Err(WordsFault::Faulty),
        },
    }
}

/// The values of an argument.
fn words_of<'b, 'a>(found: &'b ArgMatches<'a>, id: &str) -> Option<&'b [&'a str]>
    ensures { option_map (λ s. map (λ v. v.now) s.now) result ≡ all_of id.now (rows_of (found_of found.now)) }
{
    found.get_strs(id)
}

/// The addresses of brokers.
fn upstream_of(alloc: Global, found: &ArgMatches<'_>) -> Result<Listing<Text>, NoMemory>
    ensures { IfOk result (λ addresses. addresses ≡ upstream_in (rows_of (found_of found.now))) }
{
    match words_of(found, "UPSTREAM") {
        Some(addresses) => texts_of(alloc, addresses),
        None => Ok(Listing::new(alloc)),
    }
}

fn texts_of(alloc: Global, words: &[&str]) -> Result<Listing<Text>, NoMemory>
    ensures { IfOk result (λ texts. texts ≡ map (λ s. s.now) words.now) }
{
    let mut texts = Vec::new(alloc);
    for word in words {
        texts.push(Text::of(alloc, word)?)?;
    }
    Ok(Listing::from_vec(texts))
}

/// What `submit` asks for, if it has its arguments.
fn submit_of(alloc: Global, found: &ArgMatches<'_>) -> Result<Request, WordsFault>
    ensures { AsksOrFaulty (codes "submit") (rows_of (found_of found.now)) result }
{
    let Some(address) = word_of(found, "ADDRESS") else {
        return Err(WordsFault::Faulty);
    };
    Ok(Request::Submit {
        address: Text::of(alloc, address)?,
    })
}

/// What `listen` asks for, if it has its arguments.
fn listen_of(alloc: Global, found: &ArgMatches<'_>) -> Result<Request, WordsFault>
    ensures { AsksOrFaulty (codes "listen") (rows_of (found_of found.now)) result }
{
    let Some(address) = word_of(found, "ADDRESS") else {
        return Err(WordsFault::Faulty);
    };
    let Some(count) = count_of(found, "COUNT", 1_000_000) else {
        return Err(WordsFault::Faulty);
    };
    Ok(Request::Listen {
        address: Text::of(alloc, address)?,
        count,
    })
}

/// What `serve` asks for, if it has its arguments.
fn serve_of(alloc: Global, found: &ArgMatches<'_>) -> Result<Request, WordsFault>
    ensures { AsksOrFaulty (codes "serve") (rows_of (found_of found.now)) result }
{
    let redial = pause_of(found)?;
    let Some(authors) = word_of(found, "AUTHORS") else {
        return Err(WordsFault::Faulty);
    };
    let Some(subscribers) = word_of(found, "SUBSCRIBERS") else {
        return Err(WordsFault::Faulty);
    };
    let Some(sessions) = count_of(found, "SESSIONS", 1_000_000) else {
        return Err(WordsFault::Faulty);
    };
    Ok(Request::Serve {
        redial,
        authors: Text::of(alloc, authors)?,
        subscribers: Text::of(alloc, subscribers)?,
        sessions,
        upstream: upstream_of(alloc, found)?,
    })
}

/// What the subcommand of this name asks for.
fn request_of(alloc: Global, name: &str, found: &ArgMatches<'_>) -> Result<Request, WordsFault>
    ensures { AsksOrFaulty name.now (rows_of (found_of found.now)) result }
{
    match name {
        "submit" => submit_of(alloc, found),
        "listen" => listen_of(alloc, found),
        "serve" => serve_of(alloc, found),
        _ => Err(WordsFault::Faulty),
    }
}

/// The fault of words that the parser doesn't take.
fn fault_of_words(error: &Error) -> WordsFault
    ensures { result ≡ WordsFault.Faulty → kind_of error.now ≢ ErrorKind.OutOfMemory }
{
    match error.kind() {
        ErrorKind::OutOfMemory => WordsFault::NoMemory,
        _ => WordsFault::Faulty,
    }
}

/// What the words in `views` ask for.
fn read_views(alloc: Global, views: &[&str]) -> Result<Request, WordsFault>
    ensures { RequestOrFaulty (map (λ s. s.now) views.now) result }
{
    let matches = match matches_of(alloc, views) {
        Ok(matches) => matches,
        Err(error) => return Err(fault_of_words(&error)),
    };
    match matches.subcommand() {
        Some((name, found)) => request_of(alloc, name, found),
        None => Err(WordsFault::Faulty),
    }
}

fn views_of(alloc: Global, words: &[Text]) -> Result<Vec<&str>, NoMemory>
    ensures { IfOk result (λ views. map (λ s. s.now) views.items ≡ words.now) }
{
    let mut views = Vec::new(alloc);
    for word in words {
        views.push(word.as_str())?;
    }
    Ok(views)
}

/// What the words behind the program's name ask for. `Faulty` comes only where the parser's exact meaning of the command
/// finds no request in them.
pub fn read(alloc: Global, words: &[Text]) -> Result<Request, WordsFault>
    ensures { RequestOrFaulty words.now result }
{
    let views = views_of(alloc, words)?;
    read_views(alloc, views.as_slice())
}
