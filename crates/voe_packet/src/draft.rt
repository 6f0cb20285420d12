//! Packets written from drafts.

ghost use Rattle.std.specs.Prelude.{◌≡◌, ◌+◌, ◌++◌, true, IfOk, IsTrue, MatchResult, OnOk, length, map};
ghost use Rattle.std.specs.List.{flat_map, list_all};
ghost use Rattle.voe_tree.specs.Canonical.{all_written, written};
ghost use Rattle.voe_tree.specs.Document.{Spells};
ghost use Rattle.voe_tree.specs.Identifier.{is_identifier};
ghost use Rattle.voe_tree.specs.Validity.{is_valid};
ghost use Rattle.voe_packet.specs.Params.{param_token};
ghost use Rattle.voe_packet.specs.Parts.{packet_of};
ghost use Rattle.voe_packet.specs.Drafts.{RefusesDraft, draft_root, drafted_packet, fits_packet, has_identifier, has_xml_texts, is_xml_citation, is_xml_param, packet_text};
ghost use Rattle.voe_packet.specs.DraftTokens.{citation_tokens, cited_tokens, root_token, what_tokens};

use crate::packet::Citation;
use crate::param::Param;
use crate::words::{cite_word, role_word};
use std::alloc::Global;
use voe_tree::{WriteFault, Writer, is_xml_text};
use voe_values::{Bytes, Ivorn, Listing, NoMemory, Role};

/// What a packet is to say.
#[derive(Drop)]
pub struct Draft {
    /// Its identifier.
    pub identifier: Ivorn,
    /// What it is for.
    pub role: Role,
    /// Its parameters, which `What` is to have.
    pub params: Listing<Param>,
    /// The packets that it is to cite.
    pub citations: Listing<Citation>,
}

impl Draft {
    /// Whether all its texts, identifiers among them, are made of XML characters (XML 1.0, section 2.2), so that they
    /// may be written. It takes no memory.
    pub fn has_xml_texts(&self) -> bool
        ensures { result ≡ has_xml_texts self.now }
    {
        is_xml_text(self.identifier.as_str())
            && are_xml_params(self.params.as_slice())
            && are_xml_citations(self.citations.as_slice())
    }
}

fn are_xml_params(params: &[Param]) -> bool
    ensures { result ≡ list_all is_xml_param params.now }
{
    params.iter().all(|param| is_xml_param(param))
}

fn is_xml_param(param: &Param) -> bool
    ensures { result ≡ is_xml_param param.now }
{
    is_xml_text(param.name.as_str()) && is_xml_text(param.value.as_str())
}

fn are_xml_citations(citations: &[Citation]) -> bool
    ensures { result ≡ list_all is_xml_citation citations.now }
{
    citations.iter().all(|citation| is_xml_citation(citation))
}

fn is_xml_citation(citation: &Citation) -> bool
    ensures { result ≡ is_xml_citation citation.now }
{
    is_xml_text(citation.identifier.as_str())
}

/// The draft as a packet of VOEvent 2.0, in UTF-8 and without a declaration. `What` and `Citations` are left out where
/// they would be empty. `TooLarge` comes exactly where the packet would have more than 1,048,576 bytes or 65,536
/// tokens, so that it could not be read. What is written is a valid packet with the draft's parts and no others.
///
/// All texts must be made of XML characters, as `has_xml_texts` tells; the type of an identifier does not say it of
/// that.
pub fn write_packet(alloc: Global, draft: &Draft) -> Result<Bytes, WriteFault>
    requires { IsTrue (has_xml_texts draft.now) }
    ensures text { MatchResult result (λ bytes. (bytes ≡ packet_text draft.now) × IsTrue (fits_packet draft.now)) (λ fault. RefusesDraft draft.now fault) }
    ensures spells { IfOk result (λ bytes. Spells (draft_root draft.now) bytes) }
    ensures valid { IfOk result (λ bytes. IsTrue (is_valid (draft_root draft.now))) }
    ensures parts { IfOk result (λ bytes. packet_of (draft_root draft.now) ≡ drafted_packet draft.now) }
{
    let mut writer = Writer::new(alloc);
    write_root(draft, &mut writer)?;
    write_params(draft.params.as_slice(), &mut writer)?;
    write_citations(draft.citations.as_slice(), &mut writer)?;
    writer.end_tag("voe:VOEvent")?;
    writer.finished()
}

fn write_root(draft: &Draft, writer: &mut Writer) -> Result<(), NoMemory>
    ensures bytes { OnOk result (writer.new.bytes.items ≡ writer.old.bytes.items ++ written (root_token draft.now)) }
    ensures tokens { OnOk result (writer.new.tokens ≡ writer.old.tokens + 1) }
    ensures identifier { OnOk result (is_identifier draft.now.identifier ≡ true) }
{
    writer.put(b"<voe:VOEvent xmlns:voe=\"http://www.ivoa.net/xml/VOEvent/v2.0\" ivorn")?;
    writer.value(draft.identifier.as_str().as_bytes())?;
    writer.put(b" role")?;
    writer.value(role_word(draft.role).as_bytes())?;
    writer.finish(b" version=\"2.0\">")?;
    Ok(())
}

fn write_params(params: &[Param], writer: &mut Writer) -> Result<(), NoMemory>
    ensures bytes { OnOk result (writer.new.bytes.items ≡ writer.old.bytes.items ++ all_written (what_tokens params.now)) }
    ensures tokens { OnOk result (writer.new.tokens ≡ writer.old.tokens + length (what_tokens params.now)) }
{
    if params.is_empty() {
        return Ok(());
    }
    writer.finish(b"<What>")?;
    write_each_param(params, writer)?;
    writer.end_tag("What")?;
    Ok(())
}

fn write_each_param(params: &[Param], writer: &mut Writer) -> Result<(), NoMemory>
    ensures bytes { OnOk result (writer.new.bytes.items ≡ writer.old.bytes.items ++ all_written (map param_token params.now)) }
    ensures tokens { OnOk result (writer.new.tokens ≡ writer.old.tokens + length params.now) }
{
    for param in params {
        write_param(param, writer)?;
    }
    Ok(())
}

fn write_param(param: &Param, writer: &mut Writer) -> Result<(), NoMemory>
    ensures bytes { OnOk result (writer.new.bytes.items ≡ writer.old.bytes.items ++ written (param_token param.now)) }
    ensures tokens { OnOk result (writer.new.tokens ≡ writer.old.tokens + 1) }
{
    writer.put(b"<Param name")?;
    writer.value(param.name.as_str().as_bytes())?;
    writer.put(b" value")?;
    writer.value(param.value.as_str().as_bytes())?;
    writer.finish(b"/>")?;
    Ok(())
}

fn write_citations(citations: &[Citation], writer: &mut Writer) -> Result<(), NoMemory>
    ensures bytes { OnOk result (writer.new.bytes.items ≡ writer.old.bytes.items ++ all_written (cited_tokens citations.now)) }
    ensures tokens { OnOk result (writer.new.tokens ≡ writer.old.tokens + length (cited_tokens citations.now)) }
    ensures identifiers { OnOk result (list_all has_identifier citations.now ≡ true) }
{
    if citations.is_empty() {
        return Ok(());
    }
    writer.finish(b"<Citations>")?;
    write_each_citation(citations, writer)?;
    writer.end_tag("Citations")?;
    Ok(())
}

fn write_each_citation(citations: &[Citation], writer: &mut Writer) -> Result<(), NoMemory>
    ensures bytes { OnOk result (writer.new.bytes.items ≡ writer.old.bytes.items ++ all_written (flat_map citation_tokens citations.now)) }
    ensures tokens { OnOk result (writer.new.tokens ≡ writer.old.tokens + length (flat_map citation_tokens citations.now)) }
    ensures identifiers { OnOk result (list_all has_identifier citations.now ≡ true) }
{
    for citation in citations {
        write_citation(citation, writer)?;
    }
    Ok(())
}

fn write_citation(citation: &Citation, writer: &mut Writer) -> Result<(), NoMemory>
    ensures bytes { OnOk result (writer.new.bytes.items ≡ writer.old.bytes.items ++ all_written (citation_tokens citation.now)) }
    ensures tokens { OnOk result (writer.new.tokens ≡ writer.old.tokens + length (citation_tokens citation.now)) }
    ensures identifier { OnOk result (has_identifier citation.now ≡ true) }
{
    writer.put(b"<EventIVORN cite")?;
    writer.value(cite_word(citation.kind).as_bytes())?;
    writer.finish(b">")?;
    writer.text(citation.identifier.as_str().as_bytes())?;
    writer.end_tag("EventIVORN")?;
    Ok(())
}
