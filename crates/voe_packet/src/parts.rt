//! The lists among a packet's parts, and its position.

ghost use Rattle.std.specs.Prelude.{◌≡◌, ◌++◌, ◌∷◌, [], IfOk, IsTrue, OnOk, codes, map};
ghost use Rattle.std.specs.List.{flat_map};
ghost use Rattle.voe_tree.specs.Contents.{children_called, elements_in};
ghost use Rattle.voe_tree.specs.Places.{below_coordinates, places};
ghost use Rattle.voe_tree.specs.Validity.{citations_of, meets_V12};
ghost use Rattle.voe_packet.specs.Params.{param_of};
ghost use Rattle.voe_packet.specs.Parts.{citation_of, first, params_in, params_of, position_at, position_in};

use crate::packet::{Citation, Position};
use crate::param::Param;
use crate::places::{first_text, places, push};
use std::alloc::Global;
use voe_tree::{Element, Node};
use voe_values::{Listing, NoMemory};

/// The parameters of `What` and of its groups.
pub(crate) fn params_of(alloc: Global, root: &Element) -> Result<Listing<Param>, NoMemory>
    ensures { IfOk result (λ params. params ≡ map param_of (params_of root.now)) }
{
    let mut params = Listing::new(alloc);
    for node in root.children.as_slice() {
        if let Node::Element(inner) = node {
            if inner.is_called("What") {
                add_params(alloc, inner, &mut params)?;
            }
        }
    }
    Ok(params)
}

fn add_params(alloc: Global, what: &Element, params: &mut Listing<Param>) -> Result<(), NoMemory>
    ensures { OnOk result (params.new ≡ params.old ++ map param_of (flat_map params_in (elements_in what.now.children))) }
{
    for node in what.children.as_slice() {
        if let Node::Element(inner) = node {
            add_params_in(alloc, inner, params)?;
        }
    }
    Ok(())
}

/// Adds the parameter that a child of `What` is, or those of a group.
fn add_params_in(
    alloc: Global,
    element: &Element,
    params: &mut Listing<Param>,
) -> Result<(), NoMemory>
    ensures { OnOk result (params.new ≡ params.old ++ map param_of (params_in element.now)) }
{
    if element.is_called("Param") {
        let param = Param::of(alloc, element)?;
        return push(params, param);
    }
    if element.is_called("Group") {
        return add_group(alloc, element, params);
    }
    Ok(())
}

fn add_group(alloc: Global, group: &Element, params: &mut Listing<Param>) -> Result<(), NoMemory>
    ensures { OnOk result (params.new ≡ params.old ++ map param_of (children_called group.now (codes "Param"))) }
{
    for node in group.children.as_slice() {
        if let Node::Element(inner) = node {
            if inner.is_called("Param") {
                let param = Param::of(alloc, inner)?;
                push(params, param)?;
            }
        }
    }
    Ok(())
}

/// The first position of the observation's coordinates.
pub(crate) fn position_of(alloc: Global, root: &Element) -> Result<Option<Position>, NoMemory>
    ensures { IfOk result (λ position. position ≡ position_at (first (places (below_coordinates (codes "Position2D" ∷ [])) root.now))) }
{
    let path = [
        "WhereWhen",
        "ObsDataLocation",
        "ObservationLocation",
        "AstroCoords",
        "Position2D",
    ];
    let found = places(alloc, root, &path)?;
    match found.first() {
        None => Ok(None),
        Some(element) => position_in(alloc, element),
    }
}

fn position_in(alloc: Global, element: &Element) -> Result<Option<Position>, NoMemory>
    ensures { IfOk result (λ position. position ≡ position_in element.now) }
{
    let c1 = first_text(alloc, element, &["Value2", "C1"])?;
    let c2 = first_text(alloc, element, &["Value2", "C2"])?;
    let radius = first_text(alloc, element, &["Error2Radius"])?;
    match (c1, c2) {
        (Some(c1), Some(c2)) => Ok(Some(Position { c1, c2, radius })),
        _ => Ok(None),
    }
}

/// What a valid packet cites.
pub(crate) fn citations_of(alloc: Global, root: &Element) -> Result<Listing<Citation>, NoMemory>
    requires { IsTrue (meets_V12 root.now) }
    ensures { IfOk result (λ citations. citations ≡ map citation_of (citations_of root.now)) }
{
    let found = places(alloc, root, &["Citations", "EventIVORN"])?;
    let mut citations = Listing::new(alloc);
    for element in found.as_slice() {
        let citation = Citation::of(alloc, element)?;
        push(&mut citations, citation)?;
    }
    Ok(citations)
}
