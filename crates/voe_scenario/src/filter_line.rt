//! The filters of a link.

ghost use Rattle.std.specs.Prelude.{IfErr, List, OnOk, ℕ};
ghost use Rattle.voe_scenario.specs.Filters.{IsFilter, NothingReads};
ghost use Rattle.voe_scenario.specs.Faults.{IsFilterFault};

use crate::fault::{LineFault, Rule};
use filter_text::laws::read_is_not_refused;
use filter_text::{FilterFault, read_path};
use std::alloc::Global;

/// Tells whether a text reads as a filter.
pub fn check_filter(alloc: Global, text: &str) -> Result<(), LineFault>
    ensures reads { OnOk result (IsFilter text.now) }
    ensures refused { IfErr result (IsFilterFault text.now) }
{
    read_is_not_refused();
    let _filter = match read_path(alloc, text) {
        Ok(filter) => filter,
        Err(fault) => return Err(line_fault(fault)),
    };
    Ok(())
}

/// What a refused filter makes of its line.
fn line_fault(fault: FilterFault) -> LineFault
    ensures { (text : List ℕ) → NothingReads fault text → IsFilterFault text result }
{
    match fault {
        FilterFault::NoMemory => LineFault::NoMemory,
        _ => LineFault::Broken(Rule::Filter),
    }
}
