//! Facts of the definitions that the crates above cite, each told by a function that does nothing.

ghost use Rattle.std.specs.Prelude.{◌≡◌, ◌<◌, ◌≤◌, ◌+◌, ◌*◌, [], IsTrue, length};
ghost use Rattle.voe_tree.specs.Document.{Spells};
ghost use Rattle.voe_tree.specs.Validity.{is_valid};
ghost use Rattle.voe_packet.specs.Parts.{packet_of};
ghost use Rattle.voe_packet.specs.Drafts.{draft_root, drafted_packet, fits_packet, has_identifiers, has_xml_texts, packet_text, params_size};
ghost use Rattle.voe_packet.specs.declared.draft.Draft.{Draft};

/// A draft that fits is written as a valid packet with the draft's parts.
pub fn drafts_read_back()
    ensures spells { (d : Draft) → IsTrue (has_identifiers d) → IsTrue (has_xml_texts d) → IsTrue (fits_packet d) → Spells (draft_root d) (packet_text d) }
    ensures valid { (d : Draft) → IsTrue (has_identifiers d) → IsTrue (is_valid (draft_root d)) }
    ensures parts { (d : Draft) → IsTrue (has_identifiers d) → packet_of (draft_root d) ≡ drafted_packet d }
{}

/// A draft with few short parameters and no citations fits, and no draft without citations is written longer than its
/// texts allow.
pub fn short_drafts_fit()
    ensures fits { (d : Draft) → length d.identifier + params_size d.params ≤ 4096 → length d.params ≤ 64 → d.citations ≡ [] → IsTrue (fits_packet d) }
    ensures some { (d : Draft) → 0 < length (packet_text d) }
    ensures bound { (d : Draft) → d.citations ≡ [] → length (packet_text d) ≤ 131 + 6 * length d.identifier + 25 * length d.params + 6 * params_size d.params }
{}
