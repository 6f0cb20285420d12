//! Parameters.

ghost use Rattle.std.specs.Prelude.{◌≡◌, [], IfOk, unwrap_or};
ghost use Rattle.voe_tree.specs.Contents.{attribute_of};
ghost use Rattle.voe_packet.specs.Params.{param_of};

use std::alloc::Global;
use voe_tree::Element;
use voe_values::{NoMemory, Text};

/// A parameter of a packet or a message.
#[derive(Debug, Drop)]
pub struct Param {
    /// Its name, which is empty where none is given.
    pub name: Text,
    /// Its value, which is empty where none is given.
    pub value: Text,
}

impl Param {
    /// The parameter that an element `Param` is, by its attributes `name` and `value` in no namespace.
    pub fn of(alloc: Global, element: &Element) -> Result<Param, NoMemory>
        ensures { IfOk result (λ param. param ≡ param_of element.now) }
    {
        let name = value_or_empty(alloc, element, "name")?;
        let value = value_or_empty(alloc, element, "value")?;
        Ok(Param { name, value })
    }
}

fn value_or_empty(alloc: Global, element: &Element, attribute: &str) -> Result<Text, NoMemory>
    ensures { IfOk result (λ value. value ≡ unwrap_or (attribute_of element.now attribute.now) []) }
{
    match element.attribute(attribute) {
        None => Ok(Text::new(alloc)),
        Some(value) => value.copy(),
    }
}
