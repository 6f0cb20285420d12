//! The command `check`.

ghost use Rattle.std.specs.Prelude.{◌≡◌, ◌≤◌, ◌++◌, IfOk, IsTrue, OnOk, length};
ghost use Rattle.voe_tree.specs.Validity.{is_valid};
ghost use Rattle.voe_validity.specs.RemarkList.{remarks_of};
ghost use Rattle.voevent_cli.specs.Documents.{WantedOf, checked, identifier_text};
ghost use Rattle.voevent_cli.specs.Lines.{remark_line, remark_lines, valid_line};

use crate::document::refuse_tree;
use crate::outcome::{Outcome, Status};
use crate::refusal::{Refusal, add_two_digits};
use std::alloc::Global;
use voe_tree::{Element, Tree, read_tree};
use voe_validity::{remarks, valid};
use voe_values::{Bytes, NoMemory};

/// The root's attribute `ivorn`, or nothing as a text.
fn identifier_text(root: &Element) -> &str
    ensures { result.now ≡ identifier_text root.now }
{
    match root.attribute("ivorn") {
        Some(identifier) => identifier.as_str(),
        None => "",
    }
}

fn add_valid(out: &mut Bytes, identifier: &str) -> Result<(), NoMemory>
    ensures { OnOk result (out.new ≡ out.old ++ valid_line identifier.now) }
{
    out.extend(b"valid ")?;
    out.extend(identifier.as_bytes())?;
    out.extend(b"\n")
}

fn add_remark(alloc: Global, out: &mut Bytes, number: u8) -> Result<(), NoMemory>
    ensures { OnOk result (out.new ≡ out.old ++ remark_line number) }
{
    out.extend(b"remark N")?;
    add_two_digits(alloc, out, number)?;
    out.extend(b"\n")
}

fn add_remarks(alloc: Global, out: &mut Bytes, numbers: &[u8]) -> Result<(), NoMemory>
    ensures { OnOk result (out.new ≡ out.old ++ remark_lines numbers.now) }
{
    for number in numbers {
        add_remark(alloc, out, *number)?;
    }
    Ok(())
}

/// The lines on a valid packet.
fn lines_of_valid(alloc: Global, tree: &Tree) -> Result<Bytes, NoMemory>
    requires { IsTrue (is_valid tree.now.root) }
    ensures { IfOk result (λ lines. lines ≡ valid_line (identifier_text tree.now.root) ++ remark_lines (remarks_of tree.now.root)) }
{
    let mut out = Bytes::new(alloc);
    add_valid(&mut out, identifier_text(tree.root()))?;
    let odd = remarks(alloc, tree)?;
    add_remarks(alloc, &mut out, odd.as_slice())?;
    Ok(out)
}

/// What `check` answers to a tree.
fn check_tree(alloc: Global, tree: &Tree) -> Result<Outcome, NoMemory>
    ensures { IfOk result (λ outcome. outcome ≡ checked tree.now.root) }
{
    match valid(tree) {
        Ok(()) => Ok(Outcome {
            status: Status::Done,
            output: lines_of_valid(alloc, tree)?,
        }),
        Err(number) => Refusal::Validity { number }.outcome(alloc),
    }
}

/// What `check` answers to an input.
pub(crate) fn answer_of_check(alloc: Global, input: &[u8]) -> Result<Outcome, NoMemory>
    requires { length input.now ≤ 1048576 }
    ensures { IfOk result (WantedOf checked input.now) }
{
    match read_tree(alloc, input) {
        Ok(tree) => {
            let outcome = check_tree(alloc, &tree)?;
            Ok(outcome)
        }
        Err(fault) => refuse_tree(alloc, fault),
    }
}
