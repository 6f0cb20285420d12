//! Facts of the definitions, each told by a function that does nothing.

ghost use Rattle.std.specs.Prelude.{◌≡◌, List, Ok, Result, ℕ};
ghost use Rattle.node_notes.specs.declared.config.Config.{Config};
ghost use Rattle.voe_scenario.specs.Configs.{IsConfigOf};
ghost use Rattle.voe_scenario.specs.Lines.{Refusal};
ghost use Rattle.voe_scenario.specs.Scenarios.{AreAlike, IsScenarioOf};
ghost use Rattle.voe_scenario.specs.Sound.{IsSound};
ghost use Rattle.voe_scenario.specs.declared.scenario.Scenario.{Scenario};

use voe_packet::laws::short_drafts_fit;

/// A text is one configuration, or has one first refused line, so that `read_config` gives a configuration exactly
/// where its text is one.
pub fn texts_are_one_config()
    ensures { (text : List ℕ) (a b : Result Config Refusal) → IsConfigOf text a → IsConfigOf text b → a ≡ b }
{}

/// A text is one scenario, but for how its filters lie in memory, or has one first refused line, so that
/// `read_scenario` gives a scenario exactly where its text is one.
pub fn texts_are_one_scenario()
    ensures { (text : List ℕ) (a b : Result Scenario Refusal) → IsScenarioOf text a → IsScenarioOf text b → AreAlike a b }
{}

/// Every scenario that a text is, whoever reads it, is within the limits, its edges join nodes of their kinds, its events
/// name only what it has, and each of its nodes may be configured.
pub fn scenarios_are_sound()
    ensures { (text : List ℕ) (scenario : Scenario) → IsScenarioOf text (Ok scenario) → IsSound scenario }
{
    short_drafts_fit();
}
