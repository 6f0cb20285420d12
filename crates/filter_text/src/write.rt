//! The canonical text of a path.

ghost use Rattle.std.specs.Prelude.{◌≡◌, ◌++◌, ◌==◌, false, true, IfOk, OnOk, codes};
ghost use Rattle.std.specs.List.{list_any};
ghost use Rattle.filter_text.specs.Filter.{arrived, no_more};
ghost use Rattle.filter_text.specs.View.{axis_of, comparison_of, condition_of, front_of, operand_of, part_of, path_of, test_of};
ghost use Rattle.filter_text.specs.MachineView.{conditions_view};
ghost use Rattle.filter_text.specs.Writing.{bracketed_text, comparison_text, condition_text, listed_text, operand_text, path_text, quoted, separator, sign, steps_text, test_text};

use crate::filter::{Axis, Comparison, Condition, Operand, Part, Path, Step, Test};
use std::alloc::Global;
use voe_values::{NoMemory, Text};

fn write_separator(axis: Axis, out: &mut Text) -> Result<(), NoMemory>
    ensures { OnOk result (out.new ≡ out.old ++ separator (axis_of axis)) }
{
    match axis {
        Axis::Child => out.push_str("/"),
        Axis::Descendant => out.push_str("//"),
    }
}

fn write_sign(part: Part, out: &mut Text) -> Result<(), NoMemory>
    ensures { OnOk result (out.new ≡ out.old ++ sign (part_of part)) }
{
    match part {
        Part::Element => Ok(()),
        Part::Attribute => out.push_str("@"),
    }
}

fn write_test(test: &Test, out: &mut Text) -> Result<(), NoMemory>
    ensures { OnOk result (out.new ≡ out.old ++ test_text (test_of test.now)) }
{
    match test {
        Test::Any => out.push_str("*"),
        Test::Name(name) => out.push_str(name.as_str()),
    }
}

fn write_comparison(comparison: Comparison, out: &mut Text) -> Result<(), NoMemory>
    ensures { OnOk result (out.new ≡ out.old ++ comparison_text (comparison_of comparison)) }
{
    match comparison {
        Comparison::Equal => out.push_str("="),
        Comparison::Differs => out.push_str("!="),
    }
}

fn has_double_quote(value: &str) -> bool
    ensures { result ≡ list_any (λ b. b == 34) value.now }
{
    value.as_bytes().iter().any(|b| *b == b'"')
}

/// A literal in double quotes, or in single ones where it has a double quote.
fn write_literal(value: &str, out: &mut Text) -> Result<(), NoMemory>
    ensures { OnOk result (out.new ≡ out.old ++ quoted value.now) }
{
    let quote = if has_double_quote(value) { "'" } else { "\"" };
    out.push_str(quote)?;
    out.push_str(value)?;
    out.push_str(quote)
}

/// A step behind its separator.
#[cycle(write)]
#[tactic(auto, using(crate::proofs::Views::views))]
fn write_step(step: &Step, out: &mut Text) -> Result<(), NoMemory>
    ensures { OnOk result (out.new ≡ out.old ++ steps_text false (front_of step.now arrived)) }
{
    write_sign(step.part, out)?;
    write_test(&step.test, out)?;
    write_bracketed(step.conditions.as_slice(), out)
}

#[cycle(write)]
#[tactic(auto, using(crate::proofs::Views::views))]
fn write_steps(path: &Path, out: &mut Text) -> Result<(), NoMemory>
    ensures { OnOk result (out.new ≡ out.old ++ path_text (path_of path.now)) }
{
    let mut separated = path.is_absolute;
    for step in path.steps.as_slice() {
        if separated {
            write_separator(step.axis, out)?;
        }
        write_step(step, out)?;
        separated = true;
    }
    Ok(())
}

/// Conditions in brackets.
#[cycle(write)]
#[tactic(auto, using(crate::proofs::Views::views))]
fn write_bracketed(conditions: &[Condition], out: &mut Text) -> Result<(), NoMemory>
    ensures { OnOk result (out.new ≡ out.old ++ bracketed_text (conditions_view conditions.now)) }
{
    for condition in conditions {
        out.push_str("[")?;
        write_condition(condition, out)?;
        out.push_str("]")?;
    }
    Ok(())
}

#[cycle(write)]
#[tactic(auto, using(crate::proofs::Views::views))]
fn write_condition(condition: &Condition, out: &mut Text) -> Result<(), NoMemory>
    ensures { OnOk result (out.new ≡ out.old ++ condition_text false (condition_of condition.now)) }
{
    match condition {
        Condition::AnyOf(list) => write_alternatives(list.as_slice(), out),
        Condition::AllOf(list) => write_requirements(list.as_slice(), out),
        Condition::Not(inner) => {
            out.push_str("not(")?;
            write_condition(inner.get(), out)?;
            out.push_str(")")
        }
        Condition::Holds(operand) => write_operand(operand, out),
        Condition::Compare(left, how, right) => {
            write_operand(left, out)?;
            write_comparison(*how, out)?;
            write_operand(right, out)
        }
    }
}

/// A condition beside `and`.
#[cycle(write)]
#[tactic(auto, using(crate::proofs::Views::views))]
fn write_part(condition: &Condition, out: &mut Text) -> Result<(), NoMemory>
    ensures { OnOk result (out.new ≡ out.old ++ condition_text true (condition_of condition.now)) }
{
    match condition {
        Condition::AnyOf(list) => {
            out.push_str("(")?;
            write_alternatives(list.as_slice(), out)?;
            out.push_str(")")
        }
        Condition::AllOf(_) => write_condition(condition, out),
        Condition::Not(_) => write_condition(condition, out),
        Condition::Holds(_) => write_condition(condition, out),
        Condition::Compare(_, _, _) => write_condition(condition, out),
    }
}

/// Conditions with `or` between them.
#[cycle(write)]
#[tactic(auto, using(crate::proofs::Views::views))]
fn write_alternatives(list: &[Condition], out: &mut Text) -> Result<(), NoMemory>
    ensures { OnOk result (out.new ≡ out.old ++ listed_text (codes " or ") false (conditions_view list.now)) }
{
    for (i, condition) in list.iter().enumerate() {
        if i > 0 {
            out.push_str(" or ")?;
        }
        write_condition(condition, out)?;
    }
    Ok(())
}

/// Conditions with `and` between them.
#[cycle(write)]
#[tactic(auto, using(crate::proofs::Views::views))]
fn write_requirements(list: &[Condition], out: &mut Text) -> Result<(), NoMemory>
    ensures { OnOk result (out.new ≡ out.old ++ listed_text (codes " and ") true (conditions_view list.now)) }
{
    for (i, condition) in list.iter().enumerate() {
        if i > 0 {
            out.push_str(" and ")?;
        }
        write_part(condition, out)?;
    }
    Ok(())
}

#[cycle(write)]
#[tactic(auto, using(crate::proofs::Views::views))]
fn write_operand(operand: &Operand, out: &mut Text) -> Result<(), NoMemory>
    ensures { OnOk result (out.new ≡ out.old ++ operand_text (operand_of operand.now)) }
{
    match operand {
        Operand::Path(path) => write_steps(path, out),
        Operand::Literal(value) => write_literal(value.as_str(), out),
        Operand::LocalName => out.push_str("local-name()"),
    }
}

/// The canonical text of a path: no blanks but one on each side of `and` and `or`, literals in double quotes where
/// they can stand there, and parentheses only round an `or` beside `and` and behind `not`.
pub fn write_path(alloc: Global, path: &Path) -> Result<Text, NoMemory>
    ensures { IfOk result (λ t. t ≡ path_text (path_of path.now)) }
{
    let mut out = Text::new(alloc);
    write_steps(path, &mut out)?;
    Ok(out)
}
