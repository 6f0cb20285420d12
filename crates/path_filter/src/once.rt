//! Conditions that are the same at each element.

ghost use Rattle.std.specs.Prelude.{◌≡◌, ◌↔◌, IfOk, IsTrue, List, true};
ghost use Rattle.filter_text.specs.Filter.{Condition as AnyCondition, arrived, child, element, any, more, no_more, step};
ghost use Rattle.filter_text.specs.View.{operand_of};
ghost use Rattle.path_filter.specs.Plan.{CheckRefers, StageRefers, check_of};
ghost use Rattle.path_filter.specs.Planned.{IsFromDocument, Means, Stands};
ghost use Rattle.path_filter.specs.declared.plan.Stage.{Stage};

use crate::plan::{Check, Next, Sought, Stage};
use filter_text::{Axis, Operand, Part, Test};
use sqlite_items::Items;
use std::alloc::Global;
use voe_values::NoMemory;

/// Whether it is a path from the document, and so finds the same at each element. It has a step, in whose place the
/// plan has room for one more.
pub fn is_from_document(operand: &Operand) -> bool
    ensures { IsTrue result ↔ IsFromDocument (operand_of operand.now) }
{
    match operand {
        Operand::Path(path) => path.is_absolute && !path.steps.as_slice().is_empty(),
        Operand::Literal(_) => false,
        Operand::LocalName => false,
    }
}

/// The step from the document to the root, where the check holds there.
pub fn root_where(alloc: Global, check: Check) -> Result<Stage, NoMemory>
    ensures refers { IfOk result (λ x. (plan : List Stage) → CheckRefers plan (check_of check) → StageRefers plan x) }
    ensures document { IfOk result (λ x. x.of_document ≡ true) }
    ensures stands { IfOk result (λ x. (plan : List Stage) (c : AnyCondition) → Means plan (check_of check) c → Stands plan x (step child element any (more c no_more) arrived) Sought.Anything) }
{
    let mut checks = Items::new(alloc);
    checks.push(check)?;
    Ok(Stage {
        axis: Axis::Child,
        part: Part::Element,
        test: Test::Any,
        checks,
        next: Next::Ends(Sought::Anything),
        of_document: true,
    })
}
