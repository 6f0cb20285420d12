//! What a filter's text is cut into.

/// A token of a filter's text (XPath 1.0, section 3.7). It lends its texts from the text that was read.
#[derive(Clone, Copy, Debug)]
pub enum Token<'a> {
    /// `/`
    Slash,
    /// `//`
    DoubleSlash,
    /// `[`
    OpeningBracket,
    /// `]`
    ClosingBracket,
    /// `(`
    OpeningParenthesis,
    /// `)`
    ClosingParenthesis,
    /// `@`
    AtSign,
    /// `*`
    Star,
    /// `=`
    Equals,
    /// `!=`
    Differs,
    /// A name, which may be that of an operator or a function.
    Name(&'a str),
    /// What stands between the quotes.
    Literal(&'a str),
    /// A token of XPath 1.0 that no filter has.
    Foreign,
}

/// A token with the place of its first byte.
#[derive(Clone, Copy, Debug)]
pub struct Placed<'a> {
    pub token: Token<'a>,
    pub place: usize,
}
