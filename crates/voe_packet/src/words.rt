//! Words of roles and of citations (VOEvent 2.0, sections 3.1 and 3.7).

ghost use Rattle.std.specs.Prelude.{◌≡◌, Some, codes};
ghost use Rattle.voe_tree.specs.Contents.{attribute_of};
ghost use Rattle.voe_packet.specs.Words.{cite_named, cite_word, role_named, role_word};

use voe_tree::Element;
use voe_values::{Cite, Role};

/// The word for what a packet is for, as its attribute `role` has it.
pub fn role_word(role: Role) -> &'static str
    ensures { result.now ≡ role_word role }
{
    match role {
        Role::Observation => "observation",
        Role::Prediction => "prediction",
        Role::Utility => "utility",
        Role::Test => "test",
    }
}

/// The word for how a packet cites another, as the attribute `cite` has it.
pub fn cite_word(kind: Cite) -> &'static str
    ensures { result.now ≡ cite_word kind }
{
    match kind {
        Cite::Followup => "followup",
        Cite::Supersedes => "supersedes",
        Cite::Retraction => "retraction",
    }
}

/// What the packet of this root is for; a missing role reads as `observation`.
pub(crate) fn role_of(root: &Element) -> Role
    ensures { result ≡ role_named (attribute_of root.now (codes "role")) }
{
    match root.attribute("role") {
        None => Role::Observation,
        Some(word) => role_named(word.as_str()),
    }
}

fn role_named(word: &str) -> Role
    ensures { result ≡ role_named (Some word.now) }
{
    if word == "prediction" {
        Role::Prediction
    } else if word == "utility" {
        Role::Utility
    } else if word == "test" {
        Role::Test
    } else {
        Role::Observation
    }
}

/// How an `EventIVORN` cites.
pub(crate) fn cite_of(element: &Element) -> Cite
    ensures { result ≡ cite_named (attribute_of element.now (codes "cite")) }
{
    match element.attribute("cite") {
        None => Cite::Followup,
        Some(word) => cite_named(word.as_str()),
    }
}

fn cite_named(word: &str) -> Cite
    ensures { result ≡ cite_named (Some word.now) }
{
    if word == "supersedes" {
        Cite::Supersedes
    } else if word == "retraction" {
        Cite::Retraction
    } else {
        Cite::Followup
    }
}
