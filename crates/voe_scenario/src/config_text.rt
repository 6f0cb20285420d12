//! The text of a configuration.

ghost use Rattle.std.specs.Prelude.{◌≡◌, ◌-◌, None, ◌<◌, ◌≤◌, ◌++◌, ◌∷◌, [], IfErr, IfOk, Ok, OnOk, Some, false, length, slice_get, true};
ghost use Rattle.node_notes.specs.Forms.{is_config};
ghost use Rattle.voe_scenario.specs.ConfigRefusals.{RefusesConfigLine, is_at_its_place, names_no_end};
ghost use Rattle.voe_scenario.specs.ConfigStatements.{config_meaning};
ghost use Rattle.voe_scenario.specs.Configs.{IsConfigOf, IsSoundConfig, IsSoundSoFar, with_config_line, with_config_said, with_filter};
ghost use Rattle.voe_scenario.specs.Faults.{IsTextFault};

use crate::config_judge::judge_config;
use crate::config_line::ConfigStatement;
use crate::fault::{LineFault, ScenarioFault};
use crate::lines::{TakesLines, take_text};
use node_notes::{Config, LinkConfig};
use std::alloc::Global;
use std::marker::Model;
use voe_values::{EndName, Listing, NoMemory, Text};

/// The configuration that the lines so far make, if one of them named its end.
#[derive(Drop)]
struct ConfigReader {
    config: Option<Config>,
}

impl Model for ConfigReader {
    ghost use Rattle.std.specs.Prelude.{Option};
    ghost use Rattle.node_notes.specs.declared.config.Config.{Config};

    ghost Value = { Option Config };

    ghost view = { λ reader. reader.config };
}

fn add_link(alloc: Global, config: &mut Config, name: EndName) -> Result<(), NoMemory>
    ensures { OnOk result (config.new ≡ record config.old { links = config.old.links ++ record { name = name; filters = [] } ∷ [] }) }
{
    let link = LinkConfig {
        name,
        filters: Listing::new(alloc),
    };
    match config.links.push(link) {
        Ok(()) => Ok(()),
        Err(_) => Err(NoMemory),
    }
}

/// Adds a filter to the last link.
fn add_filter(alloc: Global, links: &mut Listing<LinkConfig>, text: &str) -> Result<(), NoMemory>
    requires { 0 < length links.old }
    ensures { OnOk result (links.new ≡ with_filter links.old text.now (slice_get links.old (length links.old - 1))) }
{
    let text = Text::of(alloc, text)?;
    let last = links.len() - 1;
    let link = links.get_mut(last);
    match link.filters.push(text) {
        Ok(()) => Ok(()),
        Err(_) => Err(NoMemory),
    }
}

impl ConfigReader {
    fn new() -> ConfigReader
        ensures { result ≡ None }
    {
        ConfigReader { config: None }
    }

    fn into_config(self) -> Option<Config>
        ensures { result ≡ self }
    {
        self.config
    }
}

impl TakesLines for ConfigReader {
    ghost sound = { IsSoundSoFar };

    ghost refuses = { RefusesConfigLine };

    ghost with_line = { with_config_line };

    fn take_line(&mut self, alloc: Global, line: &[u8]) -> Result<(), LineFault> {
        let said = judge_config(alloc, &self.config, line)?;
        add_config_statement(alloc, &mut self.config, said)
    }
}

/// Adds what a line says that breaks no rule.
fn add_said(
    alloc: Global,
    config: &mut Option<Config>,
    said: ConfigStatement<'_>,
) -> Result<(), NoMemory>
    requires placed { is_at_its_place config.old (config_meaning said) ≡ true }
    requires named { names_no_end (config_meaning said) ≡ false }
    ensures { OnOk result (config.new ≡ with_config_said config.old (Some (config_meaning said.entry))) }
{
    match said {
        ConfigStatement::End { kind, name } => {
            let name = EndName::of(alloc, name)?;
            *config = Some(Config {
                kind,
                name,
                links: Listing::new(alloc),
            });
            Ok(())
        }
        ConfigStatement::Edge { name, .. } => {
            let name = EndName::of(alloc, name)?;
            match config {
                Some(config) => add_link(alloc, config, name),
                None => Ok(()),
            }
        }
        ConfigStatement::Filter { text } => match config {
            Some(config) => add_filter(alloc, &mut config.links, text),
            None => Ok(()),
        },
    }
}

/// The same, with the fault of a line.
fn add_config_statement(
    alloc: Global,
    config: &mut Option<Config>,
    said: ConfigStatement<'_>,
) -> Result<(), LineFault>
    requires placed { is_at_its_place config.old (config_meaning said) ≡ true }
    requires named { names_no_end (config_meaning said) ≡ false }
    ensures added { OnOk result (config.new ≡ with_config_said config.old (Some (config_meaning said.entry))) }
    ensures memory { IfErr result (λ fault. fault ≡ LineFault.NoMemory) }
{
    match add_said(alloc, config, said) {
        Ok(()) => Ok(()),
        Err(NoMemory) => Err(LineFault::NoMemory),
    }
}

/// Reads the text of a configuration, of which at most 33,554,433 bytes are given: one more than it may have tells that
/// it is too long.
pub fn read_config(alloc: Global, bytes: &[u8]) -> Result<Config, ScenarioFault>
    requires { length bytes.now ≤ 33554433 }
    ensures ok { IfOk result (λ config. IsConfigOf bytes.now (Ok config)) }
    ensures form { IfOk result (λ config. is_config config ≡ true) }
    ensures sound { IfOk result IsSoundConfig }
    ensures refused { IfErr result (IsTextFault (IsConfigOf bytes.now)) }
{
    let mut reader = ConfigReader::new();
    take_text(alloc, &mut reader, bytes)?;
    match reader.into_config() {
        Some(config) => Ok(config),
        None => Err(ScenarioFault::Refused { number: 1, line: 1 }),
    }
}
