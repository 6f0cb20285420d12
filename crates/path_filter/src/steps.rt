//! What steps say of names and children, and where they are reached.

ghost use Rattle.std.specs.Prelude.{◌≡◌, ◌↔◌, ◌≤◌, ◌<◌, ℕ, IsTrue, length};
ghost use Rattle.filter_text.specs.Filter.{Steps, attribute};
ghost use Rattle.filter_text.specs.Size.{steps_in_steps};
ghost use Rattle.filter_text.specs.View.{front_of, part_of, steps_of, test_of};
ghost use Rattle.path_filter.specs.SearchParts.{Stays};
ghost use Rattle.path_filter.specs.Meaning.{MeetsName};
ghost use Rattle.path_filter.specs.Positions.{Has};
ghost use Rattle.path_filter.specs.Search.{after};

use crate::positions::Positions;
use filter_text::{Axis, Part, Step, Test};

/// Whether a name meets the test.
pub fn meets(test: &Test, space: &str, local: &str) -> bool
    ensures { IsTrue result ↔ MeetsName (test_of test.now) space.now local.now }
{
    match test {
        Test::Any => true,
        Test::Name(name) => space.is_empty() && local == name.as_str(),
    }
}

/// Whether the step goes on from the children too.
fn stays(step: &Step) -> bool
    ensures { (rest : Steps) → IsTrue result ↔ Stays (front_of step.now rest) }
{
    match step.axis {
        Axis::Child => false,
        Axis::Descendant => true,
    }
}

pub fn names_attributes(step: &Step) -> bool
    ensures { IsTrue result ↔ (part_of step.now.part ≡ attribute) }
{
    match step.part {
        Part::Element => false,
        Part::Attribute => true,
    }
}

/// The reached positions whose steps go on from the children too.
pub fn staying(steps: &[Step], reached: &Positions) -> Positions
    requires small { steps_in_steps (steps_of steps.now) ≤ 512 }
    ensures { (j : ℕ) → Has result j ↔ (Has reached.now j × (j < length steps.now) × Stays (after j (steps_of steps.now))) }
{
    let mut next = Positions::none();
    for (i, step) in steps.iter().enumerate() {
        if reached.has(i) && stays(step) {
            next.add(i);
        }
    }
    next
}

/// Whether no position is reached, so that a search finds nothing.
pub fn is_nowhere(steps: &[Step], reached: &Positions) -> bool
    requires small { steps_in_steps (steps_of steps.now) ≤ 512 }
    ensures { IsTrue result → (i : ℕ) → i ≤ length steps.now → Has reached.now i → ⊥ }
{
    reached.next(0, steps.len() + 1) > steps.len()
}
