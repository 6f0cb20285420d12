//! The identifier by which a document is known.

ghost use Rattle.std.specs.Prelude.{◌≡◌, IfOk};
ghost use Rattle.voe_tree.specs.Identifier.{identifier_of};

use std::alloc::Global;
use voe_tree::Tree;
use voe_values::{Ivorn, NoMemory, ivorn_fault};

/// The identifier that the root's attribute `ivorn` is, where it stands and is one; the tree need be no valid packet.
pub fn identifier_of(alloc: Global, tree: &Tree) -> Result<Option<Ivorn>, NoMemory>
    ensures { IfOk result (λ found. found ≡ identifier_of tree.now.root) }
{
    match tree.root().attribute("ivorn") {
        None => Ok(None),
        Some(text) => {
            if ivorn_fault(text.as_str()).is_some() {
                return Ok(None);
            }
            let identifier = Ivorn::of(alloc, text.as_str())?;
            Ok(Some(identifier))
        }
    }
}
