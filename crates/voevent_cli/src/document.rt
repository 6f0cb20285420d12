//! Documents, as the commands that read one take them.

ghost use Rattle.std.specs.Prelude.{◌≡◌, ◌≤◌, IfOk, List, ℕ, length};
ghost use Rattle.voe_tree.specs.Fault.{RefusesTree};
ghost use Rattle.voe_tree.specs.declared.element.Element.{Element};
ghost use Rattle.filter_text.specs.Filter.{Path};
ghost use Rattle.voevent_cli.specs.Matches.{MatchedOf};
ghost use Rattle.voevent_cli.specs.Documents.{WantedOf, place_of_fault};
ghost use Rattle.voevent_cli.specs.declared.outcome.Outcome.{Outcome};

use crate::outcome::Outcome;
use crate::refusal::Refusal;
use std::alloc::Global;
use voe_tree::TreeFault;
use voe_validity::fault_number;
use voe_values::NoMemory;

/// The byte or token at which bytes are refused, for the rules that show one.
fn place_of(fault: TreeFault) -> Option<usize>
    ensures { result ≡ place_of_fault fault }
{
    match fault {
        TreeFault::NotText { place }
        | TreeFault::BadToken { place }
        | TreeFault::Doctype { place } => Some(place),
        TreeFault::Unbalanced { token }
        | TreeFault::TooDeep { token }
        | TreeFault::RepeatedAttribute { token }
        | TreeFault::UnboundPrefix { token }
        | TreeFault::AfterRoot { token } => Some(token),
        TreeFault::TooManyTokens | TreeFault::RootMissing | TreeFault::NoMemory => None,
    }
}

/// What is answered to an input that is no document.
pub(crate) fn refuse_tree(alloc: Global, fault: TreeFault) -> Result<Outcome, NoMemory>
    ensures wanted { IfOk result (λ outcome. (judged : Element → Outcome) (input : List ℕ) → length input ≤ 1048576 → RefusesTree input fault → WantedOf judged input outcome) }
    ensures matched { IfOk result (λ outcome. (f : Path) (input : List ℕ) → length input ≤ 1048576 → RefusesTree input fault → MatchedOf f input outcome) }
{
    let Some(number) = fault_number(fault) else {
        return Err(NoMemory);
    };
    let refusal = Refusal::Tree {
        number,
        place: place_of(fault),
    };
    let outcome = refusal.outcome(alloc)?;
    Ok(outcome)
}
