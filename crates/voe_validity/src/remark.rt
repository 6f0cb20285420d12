//! The remarks N01 to N10.

ghost use Rattle.std.specs.Prelude.{◌≡◌, ◌++◌, IfOk, OnOk};
ghost use Rattle.voe_validity.specs.Remarks.{holds_N09};

use crate::oddity::Oddity;
use crate::places::any_at;
use std::alloc::Global;
use voe_tree::Element;
use voe_values::{Listing, NoMemory};

/// What may be odd about a packet.
#[derive(Clone, Copy)]
pub(crate) enum Remark {
    /// N01: `Who` stands without a child `AuthorIVORN`.
    Author,
    /// N02: a date in `Who` is no time.
    Date,
    /// N03: an `ISOTime` of the observation is no time.
    IsoTime,
    /// N04: a first coordinate is no decimal.
    First,
    /// N05: a second coordinate is no decimal.
    Second,
    /// N06: an error radius is no decimal.
    Radius,
    /// N07: the importance of `Why` is no decimal from 0 to 1.
    Importance,
    /// N08: the probability of an inference is no decimal from 0 to 1.
    Probability,
    /// N09: a parameter has no name.
    Param,
    /// N10: the expiry of `Why` is no time.
    Expires,
}

impl Remark {
    ghost use Rattle.voe_validity.specs.RemarkList.{holds, number_if_held, number_of};

    /// Its number, 1 to 10.
    pub(crate) fn number(self) -> u8
        ensures { result ≡ number_of self }
    {
        match self {
            Remark::Author => 1,
            Remark::Date => 2,
            Remark::IsoTime => 3,
            Remark::First => 4,
            Remark::Second => 5,
            Remark::Radius => 6,
            Remark::Importance => 7,
            Remark::Probability => 8,
            Remark::Param => 9,
            Remark::Expires => 10,
        }
    }

    /// Whether it holds of the packet of this root.
    pub(crate) fn holds(self, alloc: Global, root: &Element) -> Result<bool, NoMemory>
        ensures { IfOk result (λ held. held ≡ holds self root.now) }
    {
        match self {
            Remark::Author => any_at(alloc, root, &["Who"], Oddity::AuthorMissing),
            Remark::Date => any_at(alloc, root, &["Who", "Date"], Oddity::NoTime),
            Remark::IsoTime => any_at(
                alloc,
                root,
                &[
                    "WhereWhen",
                    "ObsDataLocation",
                    "ObservationLocation",
                    "AstroCoords",
                    "Time",
                    "TimeInstant",
                    "ISOTime",
                ],
                Oddity::NoTime,
            ),
            Remark::First => any_at(
                alloc,
                root,
                &[
                    "WhereWhen",
                    "ObsDataLocation",
                    "ObservationLocation",
                    "AstroCoords",
                    "Position2D",
                    "Value2",
                    "C1",
                ],
                Oddity::NoDecimal,
            ),
            Remark::Second => any_at(
                alloc,
                root,
                &[
                    "WhereWhen",
                    "ObsDataLocation",
                    "ObservationLocation",
                    "AstroCoords",
                    "Position2D",
                    "Value2",
                    "C2",
                ],
                Oddity::NoDecimal,
            ),
            Remark::Radius => any_at(
                alloc,
                root,
                &[
                    "WhereWhen",
                    "ObsDataLocation",
                    "ObservationLocation",
                    "AstroCoords",
                    "Position2D",
                    "Error2Radius",
                ],
                Oddity::NoDecimal,
            ),
            Remark::Importance => any_at(alloc, root, &["Why"], Oddity::BadImportance),
            Remark::Probability => any_at(
                alloc,
                root,
                &["Why", "Inference"],
                Oddity::BadProbability,
            ),
            Remark::Param => has_nameless_param(alloc, root),
            Remark::Expires => any_at(alloc, root, &["Why"], Oddity::BadExpiry),
        }
    }

    /// Adds its number to these where it holds of the packet of this root.
    pub(crate) fn note(
        self,
        alloc: Global,
        root: &Element,
        numbers: &mut Listing<u8>,
    ) -> Result<(), NoMemory>
        ensures { OnOk result (numbers.new ≡ numbers.old ++ number_if_held root.now self) }
    {
        if !self.holds(alloc, root)? {
            return Ok(());
        }
        match numbers.push(self.number()) {
            Ok(()) => Ok(()),
            Err((_, fault)) => Err(fault),
        }
    }
}

fn has_nameless_param(alloc: Global, root: &Element) -> Result<bool, NoMemory>
    ensures { IfOk result (λ held. held ≡ holds_N09 root.now) }
{
    if any_at(alloc, root, &["What", "Param"], Oddity::NameMissing)? {
        return Ok(true);
    }
    any_at(
        alloc,
        root,
        &["What", "Group", "Param"],
        Oddity::NameMissing,
    )
}
