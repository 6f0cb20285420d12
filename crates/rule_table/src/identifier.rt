//! Identifiers, as the rows ask for them.

ghost use Rattle.std.specs.Prelude.{◌≡◌};
ghost use Rattle.voe_tree.specs.Identifier.{is_identifier};

use voe_values::ivorn_fault;

/// Whether the text is an identifier.
pub(crate) fn is_identifier(text: &str) -> bool
    ensures { result ≡ is_identifier text.now }
{
    ivorn_fault(text).is_none()
}
