//! Messages.

ghost use Rattle.std.specs.Prelude.{◌≡◌, IsTrue};
ghost use Rattle.vtp_messages.specs.Parts.{is_stripped as stripped, is_stripped_if};

use crate::role::MessageRole;
use voe_packet::Param;
use voe_tree::trim_blanks;
use voe_values::{EndName, Listing, Text};

/// A Transport message (VTP 2.0, Transport messages). The stamp and the result, where they are there, are not empty and have no
/// blanks at their ends: [`is_stripped`] tells.
#[derive(Drop)]
pub struct Message {
    /// What it is for.
    pub role: MessageRole,
    /// Whom it names first: its sender, or in an answer what is answered.
    pub origin: EndName,
    /// Who answers.
    pub response: Option<EndName>,
    /// When it was written, as its writer says.
    pub stamp: Option<Text>,
    /// The named values that it carries.
    pub params: Listing<Param>,
    /// Why a packet is refused.
    pub result: Option<Text>,
    pub ghost stamp_is_stripped: { IsTrue (is_stripped_if stamp) },
    pub ghost result_is_stripped: { IsTrue (is_stripped_if result) },
}

/// Whether a text is not empty and has no blanks at its ends. It takes no memory.
pub fn is_stripped(text: &str) -> bool
    ensures { result ≡ stripped text.now }
{
    !text.is_empty() && trim_blanks(text) == text
}
