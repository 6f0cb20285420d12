//! Reads a document.

ghost use Rattle.std.specs.Prelude.{◌≤◌, IfErr, IfOk, MatchResult, length};
ghost use Rattle.xml_lexer.specs.Characters.{Text};
ghost use Rattle.xml_lexer.specs.Refusal.{Refuses};
ghost use Rattle.xml_lexer.specs.View.{token_views};
ghost use Rattle.voe_tree.specs.Document.{IsRootOf, Spells};
ghost use Rattle.voe_tree.specs.Fault.{RefusesTokens, RefusesTree};

use crate::element::{Element, Tree};
use crate::fault::TreeFault;
use crate::nesting::Nesting;
use std::alloc::Global;
use xml_lexer::{Token, TokenFault, read_tokens};

/// What a fault of the tokens is to the tree.
fn refused(fault: TokenFault) -> TreeFault
    ensures { (bytes : Text) → Refuses bytes fault → RefusesTree bytes result }
{
    match fault {
        TokenFault::NotText { place } => TreeFault::NotText { place },
        TokenFault::BadToken { place } => TreeFault::BadToken { place },
        TokenFault::Doctype { place } => TreeFault::Doctype { place },
        TokenFault::TooManyTokens => TreeFault::TooManyTokens,
        TokenFault::NoMemory => TreeFault::NoMemory,
    }
}

/// The root that tokens nest as.
fn read_root(alloc: Global, tokens: &[Token<'_>]) -> Result<Element, TreeFault>
    ensures root { IfOk result (λ root. IsRootOf root (token_views tokens.now)) }
    ensures fault { IfErr result (λ fault. RefusesTokens (token_views tokens.now) fault) }
{
    let mut nesting = Nesting::new(alloc);
    for (at, token) in tokens.iter().enumerate() {
        nesting.take(alloc, at, token)?;
    }
    nesting.into_root(tokens.len())
}

/// The tree that the bytes of a document spell (XML 1.0 and Namespaces in XML 1.0, in this project's profile). At most
/// 1,048,576 bytes are read. The bytes are judged in turns: as text (T01), as whole tokens (T02, T04), by the number of
/// tokens (T03), and then the first token that breaks a rule decides, by the least rule that it breaks (T05 to T10).
pub fn read_tree(alloc: Global, bytes: &[u8]) -> Result<Tree, TreeFault>
    requires { length bytes.now ≤ 1048576 }
    ensures { MatchResult result (λ tree. Spells tree.root bytes.now) (λ fault. RefusesTree bytes.now fault) }
{
    let tokens = match read_tokens(alloc, bytes) {
        Ok(tokens) => tokens,
        Err(fault) => return Err(refused(fault)),
    };
    match read_root(alloc, &tokens) {
        Ok(root) => {
            let tree = Tree { root };
            Ok(tree)
        }
        Err(fault) => Err(fault),
    }
}
