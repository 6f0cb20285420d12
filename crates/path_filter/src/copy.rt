//! Copies of filters.

ghost use Rattle.std.specs.Prelude.{◌≡◌, IfOk};

use filter_text::{Condition, Operand, Path, Step, Test};
use sqlite_items::{Boxed, Items};
use std::alloc::Global;
use voe_values::NoMemory;

pub fn copy_test(test: &Test) -> Result<Test, NoMemory>
    ensures { IfOk result (λ t. t ≡ test.now) }
{
    match test {
        Test::Any => Ok(Test::Any),
        Test::Name(name) => {
            let name = name.copy()?;
            Ok(Test::Name(name))
        }
    }
}

/// An equal path.
#[cycle(copy)]
pub fn copy_path(alloc: Global, path: &Path) -> Result<Path, NoMemory>
    ensures { IfOk result (λ p. p ≡ path.now) }
{
    let steps = copy_steps(alloc, path.steps.as_slice())?;
    Ok(Path {
        is_absolute: path.is_absolute,
        steps,
    })
}

#[cycle(copy)]
fn copy_steps(alloc: Global, steps: &[Step]) -> Result<Items<Step>, NoMemory>
    ensures { IfOk result (λ made. made ≡ steps.now) }
{
    let mut made = Items::new(alloc);
    for step in steps {
        made.push(copy_step(alloc, step)?)?;
    }
    Ok(made)
}

#[cycle(copy)]
fn copy_step(alloc: Global, step: &Step) -> Result<Step, NoMemory>
    ensures { IfOk result (λ s. s ≡ step.now) }
{
    let test = copy_test(&step.test)?;
    let conditions = copy_conditions(alloc, step.conditions.as_slice())?;
    Ok(Step {
        axis: step.axis,
        part: step.part,
        test,
        conditions,
    })
}

#[cycle(copy)]
fn copy_conditions(alloc: Global, conditions: &[Condition]) -> Result<Items<Condition>, NoMemory>
    ensures { IfOk result (λ made. made ≡ conditions.now) }
{
    let mut made = Items::new(alloc);
    for condition in conditions {
        made.push(copy_condition(alloc, condition)?)?;
    }
    Ok(made)
}

#[cycle(copy)]
fn copy_condition(alloc: Global, condition: &Condition) -> Result<Condition, NoMemory>
    ensures { IfOk result (λ c. c ≡ condition.now) }
{
    match condition {
        Condition::AnyOf(conditions) => {
            let made = copy_conditions(alloc, conditions.as_slice())?;
            Ok(Condition::AnyOf(made))
        }
        Condition::AllOf(conditions) => {
            let made = copy_conditions(alloc, conditions.as_slice())?;
            Ok(Condition::AllOf(made))
        }
        Condition::Not(inner) => {
            let made = copy_condition(alloc, inner.get())?;
            let made = Boxed::new(alloc, made)?;
            Ok(Condition::Not(made))
        }
        Condition::Holds(operand) => {
            let made = copy_operand(alloc, operand)?;
            Ok(Condition::Holds(made))
        }
        Condition::Compare(left, how, right) => {
            let left = copy_operand(alloc, left)?;
            let right = copy_operand(alloc, right)?;
            Ok(Condition::Compare(left, *how, right))
        }
    }
}

#[cycle(copy)]
pub fn copy_operand(alloc: Global, operand: &Operand) -> Result<Operand, NoMemory>
    ensures { IfOk result (λ o. o ≡ operand.now) }
{
    match operand {
        Operand::Path(path) => {
            let made = copy_path(alloc, path)?;
            Ok(Operand::Path(made))
        }
        Operand::Literal(text) => {
            let made = text.copy()?;
            Ok(Operand::Literal(made))
        }
        Operand::LocalName => Ok(Operand::LocalName),
    }
}
