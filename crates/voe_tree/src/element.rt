//! The tree.

ghost use Rattle.std.specs.Prelude.{◌≡◌, IsTrue};
ghost use Rattle.voe_tree.specs.Shape.{is_well_formed};

use sqlite_items::Items;
use voe_values::Text;

/// An attribute with its namespace, which is empty where it has none. Declarations of namespaces are no attributes.
#[derive(Debug, Drop)]
pub struct Attribute {
    /// Its namespace.
    pub space: Text,
    /// Its name behind the prefix.
    pub local: Text,
    /// Its value, normalised (XML 1.0, section 3.3.3).
    pub value: Text,
}

/// An element with its namespace, which is empty where it has none.
#[cycle(tree)]
#[derive(Drop)]
pub struct Element {
    /// Its namespace.
    pub space: Text,
    /// Its name behind the prefix.
    pub local: Text,
    /// Its attributes in the order of the document.
    pub attributes: Items<Attribute>,
    /// Its elements and texts in the order of the document.
    pub children: Items<Node>,
}

/// What an element contains.
#[cycle(tree)]
#[derive(Drop)]
pub enum Node {
    /// An element inside.
    Element(Element),
    /// A run of text, as one piece.
    Text(Text),
}

/// A document's tree. Texts are not empty and no two stand side by side; elements nest at most 64 deep; no attribute
/// repeats another or is named as a declaration; names and characters are those of the profile.
#[derive(Drop)]
pub struct Tree {
    /// The outermost element.
    pub root: Element,
    pub ghost well_formed: { IsTrue (is_well_formed root) },
}

impl Tree {
    /// The outermost element.
    pub fn root(&self) -> &Element
        ensures root { result.now ≡ self.now.root }
        ensures well_formed { IsTrue (is_well_formed result.now) }
    {
        &self.root
    }
}
