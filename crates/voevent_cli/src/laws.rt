//! Facts of the definitions, each told by a function that does nothing.

ghost use Rattle.std.specs.Prelude.{◌≡◌, List, Ok, ℕ};
ghost use Rattle.net_model.specs.Draining.{HadRoom};
ghost use Rattle.net_model.specs.Rules.{Rules};
ghost use Rattle.net_model.specs.declared.scenario.Event.{Event};
ghost use Rattle.voe_scenario.specs.Scenarios.{IsScenarioOf};
ghost use Rattle.voe_scenario.specs.Shapes.{shape};
ghost use Rattle.voe_scenario.specs.declared.scenario.Scenario.{Scenario};
ghost use Rattle.voevent_cli.specs.Nets.{AreRightFor};
ghost use Rattle.voevent_cli.specs.Racks.{Disks, TellsReal, TellsTrials};
ghost use Rattle.voevent_cli.specs.Wanted.{Wants};
ghost use Rattle.voevent_cli.specs.declared.outcome.Outcome.{Outcome};

use filter_text::laws::{filters_are_unique, read_is_not_refused, refusals_are_unique};
use gate_journal::one_reading;
use voe_disk::Rack;
use voe_scenario::laws::{scenarios_are_sound, texts_are_one_config, texts_are_one_scenario};

/// For all words and all inputs, and all disks that tell what they read, the trial disks also what a crash leaves of them,
/// at most one outcome is wanted: the status and the bytes to write are determined.
pub fn outcomes_are_unique<R: Rack>()
    ensures { (words : List (List ℕ)) (input : List ℕ) (before now later : Disks R.Trial R.Real) (one other : Outcome) → TellsTrials R.Trial.Disk before → TellsReal R.Real.Disk before
        → Wants R.Trial.Disk R.Real.Disk words input before now one → Wants R.Trial.Disk R.Real.Disk words input before later other → one ≡ other }
{
    filters_are_unique();
    one_reading();
    read_is_not_refused();
    refusals_are_unique();
    texts_are_one_config();
    texts_are_one_scenario();
}

/// Within the limits of a scenario no journal gets full: by rules that are right for it, and whatever events happen in its
/// network, each note has room behind those before it.
pub fn scenarios_have_room()
    ensures { (text : List ℕ) (scenario : Scenario) (rules : Rules) (events : List Event) → IsScenarioOf text (Ok scenario) → AreRightFor scenario rules
        → HadRoom rules (shape scenario.graph) scenario.packets events }
{
    scenarios_are_sound();
}
