//! Whether a message can be written.

ghost use Rattle.std.specs.Prelude.{◌≡◌};
ghost use Rattle.std.specs.List.{list_all};
ghost use Rattle.vtp_messages.specs.Rooted.{has_xml_texts, is_xml_if as is_written_if, is_xml_param as is_written_param};

use crate::message::Message;
use voe_packet::Param;
use voe_tree::is_xml_text;
use voe_values::Text;

impl Message {
    /// Whether its texts are made of XML characters (XML 1.0, section 2.2), so that it may be written. End names always
    /// are. It takes no memory.
    pub fn has_xml_texts(&self) -> bool
        ensures { result ≡ has_xml_texts self.now }
    {
        is_xml_if(&self.stamp) && are_xml_params(self.params.as_slice()) && is_xml_if(&self.result)
    }
}

fn is_xml_if(text: &Option<Text>) -> bool
    ensures { result ≡ is_written_if text.now }
{
    match text {
        Some(text) => is_xml_text(text.as_str()),
        None => true,
    }
}

fn are_xml_params(params: &[Param]) -> bool
    ensures { result ≡ list_all is_written_param params.now }
{
    params.iter().all(|param| is_xml_param(param))
}

fn is_xml_param(param: &Param) -> bool
    ensures { result ≡ is_written_param param.now }
{
    is_xml_text(param.name.as_str()) && is_xml_text(param.value.as_str())
}
