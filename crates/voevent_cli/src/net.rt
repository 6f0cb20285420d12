//! The command `net`.

ghost use Rattle.std.specs.Prelude.{◌≡◌, ◌≤◌, List, ℕ, false, IfErr, IfOk, OnOk, length};
ghost use Rattle.net_machine.specs.Counts.{NoneFell};
ghost use Rattle.net_machine.specs.Parts.{AreRight};
ghost use Rattle.net_machine.specs.Report.{report_of};
ghost use Rattle.net_model.specs.Rules.{Rules};
ghost use Rattle.net_model.specs.Runs.{run};
ghost use Rattle.voe_net.specs.Networks.{AllKeep, TellsCrashes};
ghost use Rattle.voe_net.specs.Right.{IsRight};
ghost use Rattle.voe_net.specs.Starting.{NoneArmed};
ghost use Rattle.voe_scenario.specs.Sound.{IsSound};
ghost use Rattle.voevent_cli.specs.Hindered.{Hinders, IsHinderedRun, IsHinderedStep};
ghost use Rattle.voevent_cli.specs.Nets.{AreRightFor, Runs, node_count};
ghost use Rattle.voevent_cli.specs.Outcomes.{done, refused};
ghost use Rattle.voevent_cli.specs.Prepared.{Acted, IsHinderedRack};
ghost use Rattle.voevent_cli.specs.Racks.{IsWhole, OnTrials, disks};

use crate::command::Command;
use crate::lending::{lend_first, put_back_first};
use crate::outcome::{Outcome, Status};
use crate::prepare::Hindrance;
use crate::refusal::Refusal;
use net_model::Event;
use std::alloc::Global;
use voe_disk::{CrashDisk, Disk, Rack};
use voe_net::{Disks, NetFault, Network};
use voe_packet::laws::drafts_read_back;
use voe_scenario::{Scenario, ScenarioFault, read_scenario};
use voe_values::Bytes;

/// What is answered where no network was made over the disks.
fn refuse(alloc: Global, fault: NetFault) -> Result<Outcome, Hindrance>
    ensures shown { IfOk result (λ outcome. (node : ℕ) × (fault ≡ NetFault.AlreadyMade node) × (outcome ≡ refused (Refusal.MadeAt node))) }
    ensures hindered { IfErr result (λ hindrance. Hinders fault hindrance) }
{
    match fault {
        NetFault::AlreadyMade { node } => Ok(Refusal::MadeAt { node }.outcome(alloc)?),
        NetFault::Disk { .. } => Err(Hindrance::DiskFault),
        NetFault::NoMemory => Err(Hindrance::NoMemory),
    }
}

/// What is answered where a network was run: its report.
fn shown<D: CrashDisk>(alloc: Global, network: &Network<'_, D>) -> Result<Outcome, Hindrance>
    requires { network.now.failed ≡ false }
    ensures reports { IfOk result (λ outcome. outcome ≡ done (report_of network.now.graph network.now.state)) }
    ensures lacks { IfErr result (λ hindrance. hindrance ≡ Hindrance.NoMemory) }
{
    let report = network.report()?;
    Ok(Outcome {
        status: Status::Done,
        output: Bytes::of(alloc, report.as_str().as_bytes())?,
    })
}

/// Steps a network through all events, and makes its report.
fn report_of_run<D: CrashDisk>(
    alloc: Global,
    network: &mut Network<'_, D>,
    events: &[Event],
) -> Result<Outcome, Hindrance>
    requires { network.old.failed ≡ false }
    ensures works { OnOk result (network.new.failed ≡ false) }
    ensures fixed { network.new.graph ≡ network.old.graph }
    ensures configs { OnOk result (network.new.configs ≡ network.old.configs) }
    ensures reports { IfOk result (λ outcome. outcome ≡ done (report_of network.new.graph network.new.state)) }
    ensures exact { OnOk result (TellsCrashes D.Disk network.old → (rules : Rules) → AreRight IsRight network.old.configs network.old.packets rules
        → network.new.state ≡ run rules network.old.graph network.old.packets events.now network.old.state) }
    ensures counts { NoneFell network.old.faults network.new.faults }
    ensures failed { IfErr result (λ hindrance. IsHinderedStep network.old.faults network.new.faults hindrance) }
{
    match network.apply_all(events) {
        Ok(()) => shown(alloc, network),
        Err(NetFault::AlreadyMade { .. }) => unreachable!(),
        Err(NetFault::Disk { .. }) => Err(Hindrance::DiskFault),
        Err(NetFault::NoMemory) => Err(Hindrance::NoMemory),
    }
}

/// Runs a scenario over disks, one for each node, which are handed back in their order.
fn run_on<D: CrashDisk>(
    alloc: Global,
    scenario: &Scenario,
    disks: Disks<D>,
) -> (Disks<D>, Result<Outcome, Hindrance>)
    requires sound { IsSound scenario.now }
    requires right { ((rules : Rules) → AreRightFor scenario.now rules → ⊥) → ⊥ }
    requires count { length disks ≡ node_count scenario.now }
    requires unarmed { NoneArmed D.Disk disks }
    ensures done { IfOk result.1 (λ outcome. Runs D.Disk scenario.now outcome disks result.0) }
    ensures failed { IfErr result.1 (λ hindrance. IsHinderedRun D.Disk disks result.0 hindrance) }
    ensures count { length result.0 ≡ length disks }
    ensures unarmed { NoneArmed D.Disk result.0 }
{
    match Network::new(alloc, &scenario.graph, scenario.packets.as_slice(), disks) {
        Ok(mut network) => {
            let result = report_of_run(alloc, &mut network, scenario.events.as_slice());
            (network.into_disks(), result)
        }
        Err((disks, fault)) => (disks, refuse(alloc, fault)),
    }
}

/// Runs a scenario over the first trial disks of a rack, one for each node, and puts them back.
fn run_in<R: Rack>(alloc: Global, scenario: &Scenario, rack: &mut R) -> Result<Outcome, Hindrance>
    requires sound { IsSound scenario.now }
    requires right { ((rules : Rules) → AreRightFor scenario.now rules → ⊥) → ⊥ }
    requires whole { IsWhole (disks (λ k. R.trial rack.old k) (R.real rack.old)) }
    ensures done { IfOk result (λ outcome. OnTrials (node_count scenario.now) (Runs R.Trial.Disk scenario.now outcome)
        (disks (λ k. R.trial rack.old k) (R.real rack.old)) (disks (λ k. R.trial rack.new k) (R.real rack.new))) }
    ensures failed { IfErr result (λ hindrance. IsHinderedRack R.Trial.Disk R.Real.Disk Command.Net
        (disks (λ k. R.trial rack.old k) (R.real rack.old)) (disks (λ k. R.trial rack.new k) (R.real rack.new)) hindrance) }
    ensures whole { IsWhole (disks (λ k. R.trial rack.new k) (R.real rack.new)) }
{
    let count = scenario.graph.nodes.len() as u8;
    let first = lend_first(alloc, rack, count)?;
    let (first, result) = run_on(alloc, scenario, first);
    put_back_first(rack, first, count);
    result
}

/// What `net` answers to an input: the report of its run, or why its text or a trial disk is refused.
pub(crate) fn answer_of_net<R: Rack>(
    alloc: Global,
    input: &[u8],
    rack: &mut R,
) -> Result<Outcome, Hindrance>
    requires input { length input.now ≤ 33554432 }
    requires whole { IsWhole (disks (λ k. R.trial rack.old k) (R.real rack.old)) }
    ensures acted { (words : List (List ℕ)) → Acted R.Trial.Disk R.Real.Disk words Command.Net input.now
        (disks (λ k. R.trial rack.old k) (R.real rack.old)) (disks (λ k. R.trial rack.new k) (R.real rack.new)) result }
    ensures whole { IsWhole (disks (λ k. R.trial rack.new k) (R.real rack.new)) }
{
    drafts_read_back();
    match read_scenario(alloc, input) {
        Ok(scenario) => run_in(alloc, &scenario, rack),
        Err(ScenarioFault::Refused { number, line }) => {
            Ok(Refusal::Scenario { number, line }.outcome(alloc)?)
        }
        Err(ScenarioFault::NoMemory) => Err(Hindrance::NoMemory),
    }
}
