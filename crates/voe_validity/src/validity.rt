//! The rules V01 to V12.

ghost use Rattle.std.specs.Prelude.{◌≡◌, MatchResult, Some, is_ok};
ghost use Rattle.voe_tree.specs.Validity.{is_valid, least_broken_row};

use rule_table::rows_of;
use voe_tree::Tree;

/// The number, 1 to 12, of the least rule that the tree breaks as a packet; nothing exactly where it is a valid packet.
/// It takes no memory. The rules are those of VOEvent 2.0: the root's name, version, identifier and role (V01 to V04),
/// each section at most once (V05 to V10), the kinds and the identifiers of its citations (V11, V12).
#[tactic(auto, using(crate::proofs::Least::of_packet_rows))]
pub fn valid(tree: &Tree) -> Result<(), u8>
    ensures decides { is_ok result ≡ is_valid tree.now.root }
    ensures least { MatchResult result (λ _. least_broken_row tree.now.root ≡ None) (λ row. least_broken_row tree.now.root ≡ Some row) }
{
    let rows = rows_of![
        RootNamed,
        RootVersion,
        RootIdentifier,
        RootRole,
        AtMostOne(Who),
        AtMostOne(What),
        AtMostOne(WhereWhen),
        AtMostOne(How),
        AtMostOne(Why),
        AtMostOne(Citations),
        CiteKinds,
        CiteIdentifiers,
    ];
    match rows.first_break(tree) {
        None => Ok(()),
        Some(place) => Err(place as u8 + 1),
    }
}
