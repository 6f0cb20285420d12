//! Why a line of a configuration is refused.

ghost use Rattle.std.specs.Prelude.{◌≡◌, IfErr, IfNone, IfOk, IfSome, Some, length};
ghost use Rattle.std.specs.List.{list_any};
ghost use Rattle.std.specs.Str.{bytes_eq};
ghost use Rattle.voe_scenario.specs.ConfigRefusals.{RefusesConfigLine, config_rules, is_at_its_place, is_too_much as is_too_much_said, last_filters, names_no_end as names_no_end_said, repeats_name as repeats_name_said};
ghost use Rattle.voe_scenario.specs.ConfigStatements.{config_meaning};
ghost use Rattle.voe_scenario.specs.ConfigTaking.{IsConfigFitting, MayFollow};
ghost use Rattle.voe_scenario.specs.Faults.{IsLineFault, number_of_rule};
ghost use Rattle.voe_scenario.specs.Rules.{least_that_holds};

use crate::config_line::{ConfigStatement, read_config_statement};
use crate::fault::{LineFault, Rule};
use crate::filter_line::check_filter;
use crate::limits::{FILTER_LIMIT, FILTERS_LIMIT, LINE_LIMIT, LINKS_LIMIT, NAME_LIMIT};
use node_notes::{Config, LinkConfig};
use std::alloc::Global;
use voe_values::{Listing, NodeKind, is_end_name};

/// Tells whether a line may stand behind those that made this configuration.
fn is_placed(before: &Option<Config>, statement: ConfigStatement<'_>) -> bool
    ensures { result ≡ is_at_its_place before.now (config_meaning statement.entry) }
{
    let Some(config) = before else {
        return match statement {
            ConfigStatement::End { .. } => true,
            ConfigStatement::Edge { .. } | ConfigStatement::Filter { .. } => false,
        };
    };
    match statement {
        ConfigStatement::End { .. } => false,
        ConfigStatement::Edge { of, .. } => config.kind == of,
        ConfigStatement::Filter { .. } => {
            config.kind == NodeKind::Broker && !config.links.is_empty()
        }
    }
}

/// Tells whether one of the links has the name.
fn has_link(links: &Listing<LinkConfig>, name: &str) -> bool
    ensures { result ≡ list_any (λ link. bytes_eq link.name name.now) links.now }
{
    links
        .as_slice()
        .iter()
        .any(|link| link.name.as_str() == name)
}

/// Tells whether an earlier line or link has the name that a line gives.
fn repeats_name(before: &Option<Config>, statement: ConfigStatement<'_>) -> bool
    ensures { result ≡ repeats_name_said before.now (config_meaning statement.entry) }
{
    match (before, statement) {
        (Some(config), ConfigStatement::Edge { name, .. }) => has_link(&config.links, name),
        _ => false,
    }
}

/// How many filters the last link has.
fn count_last_filters(links: &Listing<LinkConfig>) -> usize
    ensures { result ≡ length (last_filters links.now) }
{
    if links.is_empty() {
        return 0;
    }
    match links.get(links.len() - 1) {
        Some(link) => link.filters.len(),
        None => 0,
    }
}

/// Tells whether what a line adds passes a limit.
fn is_too_much(before: &Option<Config>, statement: ConfigStatement<'_>) -> bool
    ensures { result ≡ is_too_much_said before.now (config_meaning statement.entry) }
{
    let (links, filters) = match before {
        Some(config) => (config.links.len(), count_last_filters(&config.links)),
        None => (0, 0),
    };
    match statement {
        ConfigStatement::End { name, .. } => name.len() > NAME_LIMIT,
        ConfigStatement::Edge { name, .. } => name.len() > NAME_LIMIT || links >= LINKS_LIMIT,
        ConfigStatement::Filter { text } => text.len() > FILTER_LIMIT || filters >= FILTERS_LIMIT,
    }
}

/// Tells whether a line's name is no name of an end.
fn names_no_end(statement: ConfigStatement<'_>) -> bool
    ensures { result ≡ names_no_end_said (config_meaning statement.entry) }
{
    match statement {
        ConfigStatement::End { name, .. } | ConfigStatement::Edge { name, .. } => !is_end_name(
            name,
        ),
        ConfigStatement::Filter { .. } => false,
    }
}

/// The least rule that a line breaks, but for that on its filter.
fn broken_rule(before: &Option<Config>, line: &[u8], said: ConfigStatement<'_>) -> Option<Rule>
    ensures broken { IfSome result (λ rule. least_that_holds (config_rules before.now line.now (Some (config_meaning said.entry))) ≡ Some (number_of_rule rule)) }
    ensures unbroken { IfNone result (MayFollow before.now line.now (config_meaning said.entry)) }
{
    if !is_placed(before, said) {
        return Some(Rule::Grammar);
    }
    if repeats_name(before, said) {
        return Some(Rule::Naming);
    }
    if line.len() > LINE_LIMIT || is_too_much(before, said) {
        return Some(Rule::Limit);
    }
    if names_no_end(said) {
        return Some(Rule::Identifier);
    }
    None
}

/// What a line says, or why it is refused.
pub fn judge_config<'a>(
    alloc: Global,
    before: &Option<Config>,
    line: &'a [u8],
) -> Result<ConfigStatement<'a>, LineFault>
    ensures fits { IfOk result (λ said. IsConfigFitting before.now line.now (config_meaning said)) }
    ensures refused { IfErr result (IsLineFault (RefusesConfigLine before.now line.now)) }
{
    let Some(said) = read_config_statement(line) else {
        return Err(LineFault::Broken(Rule::Grammar));
    };
    if let Some(rule) = broken_rule(before, line, said) {
        return Err(LineFault::Broken(rule));
    }
    match said {
        ConfigStatement::Filter { text } => check_filter(alloc, text)?,
        ConfigStatement::End { .. } | ConfigStatement::Edge { .. } => {}
    }
    Ok(said)
}
