//! A packet as its parts.

ghost use Rattle.std.specs.Prelude.{◌≡◌, [], IfOk, IsTrue, codes, unwrap_or};
ghost use Rattle.voe_tree.specs.Contents.{attribute_of};
ghost use Rattle.voe_tree.specs.Validity.{is_lone_identifier, is_valid, meets_V03};
ghost use Rattle.voe_packet.specs.Parts.{citation_of, packet_of};

use crate::param::Param;
use crate::parts::{citations_of, params_of, position_of};
use crate::places::{all_texts, first_text, text_of};
use crate::words::{cite_of, role_of};
use std::alloc::Global;
use voe_tree::{Element, Tree};
use voe_values::{Cite, Ivorn, Listing, NoMemory, Role, Text};

/// A valid packet's parts (VOEvent 2.0, section 3).
#[derive(Drop)]
pub struct Packet {
    /// The attribute `ivorn`.
    pub identifier: Ivorn,
    /// The attribute `role`, which reads as `observation` where it is missing.
    pub role: Role,
    /// The text of the first `Who/AuthorIVORN`, which may be empty.
    pub author: Option<Text>,
    /// The text of the first `Who/Date`, which may be empty.
    pub date: Option<Text>,
    /// The parameters of `What` and of its groups, in the order of the document.
    pub params: Listing<Param>,
    /// The texts of the `ISOTime` of the observation's coordinates.
    pub times: Listing<Text>,
    /// The first `Position2D` of these coordinates, where it has both numbers.
    pub position: Option<Position>,
    /// The packets that it cites, in the order of the document.
    pub citations: Listing<Citation>,
}

/// A position on the sky, as texts.
#[derive(Debug, Drop)]
pub struct Position {
    /// The text of `Value2/C1`.
    pub c1: Text,
    /// The text of `Value2/C2`.
    pub c2: Text,
    /// The text of `Error2Radius`.
    pub radius: Option<Text>,
}

/// A packet that is cited.
#[derive(Debug, Drop)]
pub struct Citation {
    /// The cited packet's identifier.
    pub identifier: Ivorn,
    /// How it is cited.
    pub kind: Cite,
}

impl Citation {
    /// The citation that an `EventIVORN` is.
    pub(crate) fn of(alloc: Global, element: &Element) -> Result<Citation, NoMemory>
        requires { IsTrue (is_lone_identifier element.now.children) }
        ensures { IfOk result (λ citation. citation ≡ citation_of element.now) }
    {
        let text = text_of(alloc, element)?;
        let identifier = Ivorn::of(alloc, text.as_str())?;
        let kind = cite_of(element);
        Ok(Citation { identifier, kind })
    }
}

impl Packet {
    /// The parts of a valid packet.
    pub fn of(alloc: Global, tree: &Tree) -> Result<Packet, NoMemory>
        requires { IsTrue (is_valid tree.now.root) }
        ensures { IfOk result (λ packet. packet ≡ packet_of tree.now.root) }
    {
        let root = tree.root();
        let identifier = identifier(alloc, root)?;
        let role = role_of(root);
        let author = first_text(alloc, root, &["Who", "AuthorIVORN"])?;
        let date = first_text(alloc, root, &["Who", "Date"])?;
        let params = params_of(alloc, root)?;
        let times = all_texts(alloc, root, &TIME)?;
        let position = position_of(alloc, root)?;
        let citations = citations_of(alloc, root)?;
        Ok(Packet {
            identifier,
            role,
            author,
            date,
            params,
            times,
            position,
            citations,
        })
    }
}

const TIME: [&str; 7] = [
    "WhereWhen",
    "ObsDataLocation",
    "ObservationLocation",
    "AstroCoords",
    "Time",
    "TimeInstant",
    "ISOTime",
];

fn identifier(alloc: Global, root: &Element) -> Result<Ivorn, NoMemory>
    requires { IsTrue (meets_V03 root.now) }
    ensures { IfOk result (λ identifier. identifier ≡ unwrap_or (attribute_of root.now (codes "ivorn")) []) }
{
    match root.attribute("ivorn") {
        Some(text) => Ivorn::of(alloc, text.as_str()),
        None => unreachable!(),
    }
}
