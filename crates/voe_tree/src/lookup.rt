//! The namespaces of prefixes (Namespaces in XML 1.0, sections 5 and 6).

ghost use Rattle.std.specs.Prelude.{◌≡◌, reverse};
ghost use Rattle.std.specs.Option.{option_copied};
ghost use Rattle.voe_tree.specs.Names.{lookup};
ghost use Rattle.voe_tree.specs.View.{bindings_around, bindings_of};

use crate::level::{Binding, Level};
use voe_values::Text;

/// What the newest of these bindings gives the prefix. The newest comes last.
pub fn bound<'b>(bindings: &'b [Binding<'_>], prefix: &str) -> Option<&'b Text>
    ensures { option_copied result ≡ lookup prefix.now (bindings_of bindings.now) }
{
    match bindings.split_last() {
        None => None,
        Some((last, front)) => {
            if last.prefix == prefix {
                Some(&last.namespace)
            } else {
                bound(front, prefix)
            }
        }
    }
}

/// What the innermost of these levels that binds the prefix gives it. The innermost comes last.
pub fn bound_around<'b>(levels: &'b [Level<'_>], prefix: &str) -> Option<&'b Text>
    ensures { option_copied result ≡ lookup prefix.now (bindings_around (reverse levels.now)) }
{
    match levels.split_last() {
        None => None,
        Some((last, front)) => match bound(&last.declared, prefix) {
            Some(found) => Some(found),
            None => bound_around(front, prefix),
        },
    }
}
