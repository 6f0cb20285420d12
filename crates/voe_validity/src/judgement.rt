//! What the bytes of a packet are.

ghost use Rattle.std.specs.Prelude.{◌≡◌, ◌≤◌, IfOk, IfSome, IsUtf8, length};
ghost use Rattle.xml_lexer.specs.Characters.{Text};
ghost use Rattle.voe_values.specs.Identifier.{IsIdentifier};
ghost use Rattle.voe_tree.specs.Identifier.{identifier_of};
ghost use Rattle.net_model.specs.declared.step.Judged.{Judged as Judgement};
ghost use Rattle.net_model.specs.declared.step.Judged.TheVariants.{Good};
ghost use Rattle.voe_validity.specs.Judging.{number_of_fault, IsJudgedRoot, IsJudged, IsNamed, HasTree};

use crate::validity::valid;
use net_model::Judged;
use std::alloc::Global;
use voe_tree::{Element, Tree, TreeFault, read_tree};
use voe_values::{Bytes, NoMemory, ivorn_fault};

/// What a packet's bytes are judged to be, and their tree, where they spell one.
#[derive(Drop)]
pub struct Judging {
    pub judged: Judged,
    pub tree: Option<Tree>,
}

/// Reads a packet and judges it: no tree, by the number of the rule that refuses the bytes (T01 to T10); no valid packet,
/// by the least rule that the tree breaks (V01 to V12), with the root's identifier exactly where it has one; or a good
/// packet, whose identifier is UTF-8. The tree is handed out for the filters.
pub fn judge(alloc: Global, packet: &[u8]) -> Result<Judging, NoMemory>
    requires { length packet.now ≤ 1048576 }
    ensures judged { IfOk result (λ judging. IsJudged packet.now judging.judged) }
    ensures named { IfOk result (λ judging. IsNamed judging.judged) }
    ensures tree { IfOk result (λ judging. HasTree packet.now judging.judged judging.tree) }
{
    match read_tree(alloc, packet) {
        Ok(tree) => {
            let judged = judge_root(alloc, &tree)?;
            Ok(Judging {
                judged,
                tree: Some(tree),
            })
        }
        Err(fault) => match fault_number(fault) {
            Some(number) => Ok(Judging {
                judged: Judged::BadTree { number },
                tree: None,
            }),
            None => Err(NoMemory),
        },
    }
}

/// The number of the rule by which bytes are no tree, 1 to 10; nothing for want of memory.
pub fn fault_number(fault: TreeFault) -> Option<u8>
    ensures { result ≡ number_of_fault fault }
{
    match fault {
        TreeFault::NotText { .. } => Some(1),
        TreeFault::BadToken { .. } => Some(2),
        TreeFault::TooManyTokens => Some(3),
        TreeFault::Doctype { .. } => Some(4),
        TreeFault::Unbalanced { .. } => Some(5),
        TreeFault::TooDeep { .. } => Some(6),
        TreeFault::RepeatedAttribute { .. } => Some(7),
        TreeFault::UnboundPrefix { .. } => Some(8),
        TreeFault::RootMissing => Some(9),
        TreeFault::AfterRoot { .. } => Some(10),
        TreeFault::NoMemory => None,
    }
}

/// What the tree is as a packet.
fn judge_root(alloc: Global, tree: &Tree) -> Result<Judged, NoMemory>
    ensures judged { IfOk result (IsJudgedRoot tree.now.root) }
    ensures named { IfOk result IsNamed }
{
    let identifier = identifier(alloc, tree.root())?;
    match valid(tree) {
        Err(number) => Ok(Judged::BadPacket { number, identifier }),
        Ok(()) => match identifier {
            Some(identifier) => Ok(Judged::Good { identifier }),
            None => unreachable!(),
        },
    }
}

/// The root's identifier, exactly where its `ivorn` is one.
fn identifier(alloc: Global, root: &Element) -> Result<Option<Bytes>, NoMemory>
    ensures found { IfOk result (λ found. found ≡ identifier_of root.now) }
    ensures named { IfOk result (λ found. IfSome found (λ identifier. IsUtf8 identifier × IsIdentifier identifier)) }
{
    match root.attribute("ivorn") {
        None => Ok(None),
        Some(value) => {
            let text = value.as_str();
            if ivorn_fault(text).is_some() {
                return Ok(None);
            }
            let bytes = Bytes::of(alloc, text.as_bytes())?;
            Ok(Some(bytes))
        }
    }
}

/// Bytes are judged to be one thing.
pub fn packets_are_judged_once()
    ensures { (packet : Text) (one other : Judgement) → IsJudged packet one → IsJudged packet other → one ≡ other }
{}

/// The identifier of a good packet is one.
pub fn good_packets_are_named()
    ensures { (packet identifier : Text) → IsJudged packet (Good identifier) → IsIdentifier identifier }
{}
