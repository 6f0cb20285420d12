//! The command, as `clap` takes it.

ghost use Rattle.std.specs.Prelude.{◌≡◌, IfOk, false, map};
ghost use Rattle.clap.specs.Walk.{rule_of};
ghost use Rattle.clap.specs.Simple.{app_of, HasMatchesOf};
ghost use Rattle.clap.specs.declared.builder.command.Command.TheViews.{out-Command as fields_of};
ghost use Rattle.clap.specs.Kinds.{FailsBy};
ghost use Rattle.clap.specs.Faults.{fault_of};
ghost use Rattle.online_words.specs.Network.{listen_app, network_app, number_rule, redial_rule, serve_app, serve_words_app, submit_app, unnamed_app, upstream_rule, word_rule};

use clap::builder::ValueParser;
use clap::{Arg, ArgAction, ArgMatches, Command, Error};
use std::alloc::{AllocError, Global};

fn required<'a>(alloc: Global, name: &'a str) -> Arg<'a>
    ensures rule { rule_of result ≡ word_rule name.entry.now }
    ensures local { result.global ≡ false }
{
    Arg::new(alloc, name).required(true).action(ArgAction::Set)
}

fn number<'a>(alloc: Global, name: &'a str) -> Arg<'a>
    ensures rule { rule_of result ≡ number_rule name.entry.now }
    ensures local { result.global ≡ false }
{
    required(alloc, name).value_parser(ValueParser::Signed(1, 1_000_000))
}

fn submit<'a>(alloc: Global) -> Result<Command<'a>, AllocError>
    ensures app { IfOk result (λ c. app_of c ≡ submit_app) }
    ensures local { IfOk result (λ c. (fields_of c).has_globals ≡ false) }
{
    Command::new(alloc, "submit").arg(required(alloc, "ADDRESS"))
}

fn listen<'a>(alloc: Global) -> Result<Command<'a>, AllocError>
    ensures app { IfOk result (λ c. app_of c ≡ listen_app) }
    ensures local { IfOk result (λ c. (fields_of c).has_globals ≡ false) }
{
    Command::new(alloc, "listen")
        .arg(required(alloc, "ADDRESS"))?
        .arg(number(alloc, "COUNT"))
}

fn upstream<'a>(alloc: Global) -> Arg<'a>
    ensures rule { rule_of result ≡ upstream_rule }
    ensures local { result.global ≡ false }
{
    Arg::new(alloc, "UPSTREAM")
        .action(ArgAction::Append)
        .num_args(0..)
}

/// The pause before what has ended is dialled again, in seconds.
fn redial<'a>(alloc: Global) -> Arg<'a>
    ensures rule { rule_of result ≡ redial_rule }
    ensures local { result.global ≡ false }
{
    Arg::new(alloc, "redial")
        .long("redial")
        .action(ArgAction::Set)
        .value_parser(ValueParser::Signed(1, 86_400))
}

fn serve_words<'a>(alloc: Global) -> Result<Command<'a>, AllocError>
    ensures app { IfOk result (λ c. app_of c ≡ serve_words_app) }
    ensures local { IfOk result (λ c. (fields_of c).has_globals ≡ false) }
{
    Command::new(alloc, "serve")
        .arg(required(alloc, "AUTHORS"))?
        .arg(required(alloc, "SUBSCRIBERS"))?
        .arg(number(alloc, "SESSIONS"))?
        .arg(upstream(alloc))
}

fn serve<'a>(alloc: Global) -> Result<Command<'a>, AllocError>
    ensures app { IfOk result (λ c. app_of c ≡ serve_app) }
    ensures local { IfOk result (λ c. (fields_of c).has_globals ≡ false) }
{
    serve_words(alloc)?.arg(redial(alloc))
}

/// The words are those behind the program's name.
fn unnamed<'a>(alloc: Global) -> Command<'a>
    ensures app { app_of result ≡ unnamed_app }
    ensures local { (fields_of result).has_globals ≡ false }
{
    Command::new(alloc, "voevent").no_binary_name(true)
}

/// The command with its three subcommands.
fn command<'a>(alloc: Global) -> Result<Command<'a>, AllocError>
    ensures { IfOk result (λ c. app_of c ≡ network_app) }
{
    unnamed(alloc)
        .subcommand_required(true)
        .subcommand(submit(alloc)?)?
        .subcommand(listen(alloc)?)?
        .subcommand(serve(alloc)?)
}

/// What the parser makes of the words behind the program's name.
pub(crate) fn matches_of<'a>(alloc: Global, words: &'a [&'a str]) -> Result<ArgMatches<'a>, Error>
    ensures faults { FailsBy (fault_of network_app (map (λ s. s.now) words.now)) result }
    ensures matches { IfOk result (HasMatchesOf network_app (map (λ s. s.now) words.now)) }
{
    command(alloc)?.try_get_matches_from(words)
}
