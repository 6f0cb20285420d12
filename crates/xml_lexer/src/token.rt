//! What a document is cut into.

/// An attribute as it stands in a start tag: its value is what stands between the quotes, with its references and
/// line ends not yet read (XML 1.0, section 3.1).
#[derive(Clone, Copy, Debug)]
pub struct SpelledAttribute<'a> {
    pub name: &'a str,
    pub value: &'a str,
}

/// A token of a document. It lends its texts from the bytes that were read.
#[derive(Debug, Drop)]
pub enum Token<'a> {
    /// The XML declaration, with the encoding that it names (section 2.8).
    Declaration(Option<&'a str>),
    /// A processing instruction (section 2.6).
    Instruction,
    /// A comment (section 2.5).
    Comment,
    /// The text of a CDATA section (section 2.7).
    CharacterData(&'a str),
    /// A start tag, or the tag of an empty element (section 3.1).
    Start(StartTag<'a>),
    /// The spelled name of an end tag (section 3.1).
    End(&'a str),
    /// The character that a reference names (sections 4.1 and 4.6).
    Reference(char),
    /// A longest run of characters other than `<` and `&` (section 2.4).
    Text(&'a str),
}

/// A start tag, as it is spelled.
#[derive(Debug, Drop)]
pub struct StartTag<'a> {
    pub name: &'a str,
    /// In the order of the tag; without any it takes no memory.
    pub attributes: Vec<SpelledAttribute<'a>>,
    /// Whether it ends in `/>`.
    pub is_empty: bool,
}
