//! What may be odd about one element.

ghost use Rattle.std.specs.Prelude.{◌≡◌, IfOk};
ghost use Rattle.voe_validity.specs.Remarks.{lacks_author, lacks_name, has_no_time, has_no_decimal, has_bad_fraction, has_bad_expiry};

use crate::fraction::is_fraction;
use std::alloc::Global;
use voe_time::is_time;
use voe_tree::{Element, trim_blanks};
use voe_values::{Decimal, NoMemory};

/// What may be odd about one element.
#[derive(Clone, Copy)]
pub(crate) enum Oddity {
    /// It has no child `AuthorIVORN`.
    AuthorMissing,
    /// Its text is no time.
    NoTime,
    /// Its text is no decimal.
    NoDecimal,
    /// Its attribute `importance` is no decimal from 0 to 1.
    BadImportance,
    /// Its attribute `probability` is no decimal from 0 to 1.
    BadProbability,
    /// It has no attribute `name`.
    NameMissing,
    /// Its attribute `expires` is no time.
    BadExpiry,
}

impl Oddity {
    ghost use Rattle.std.specs.Prelude.{codes};
    ghost use Rattle.voe_validity.specs.Oddities.{is_odd};

    /// Whether the element is odd in this way.
    pub(crate) fn holds(self, alloc: Global, element: &Element) -> Result<bool, NoMemory>
        ensures { IfOk result (λ odd. odd ≡ is_odd self element.now) }
    {
        match self {
            Oddity::AuthorMissing => Ok(element.child("AuthorIVORN").is_none()),
            Oddity::NoTime => has_no_time(alloc, element),
            Oddity::NoDecimal => has_no_decimal(alloc, element),
            Oddity::BadImportance => Ok(has_bad_fraction(element, "importance")),
            Oddity::BadProbability => Ok(has_bad_fraction(element, "probability")),
            Oddity::NameMissing => Ok(element.attribute("name").is_none()),
            Oddity::BadExpiry => Ok(has_bad_expiry(element)),
        }
    }
}

fn has_no_time(alloc: Global, element: &Element) -> Result<bool, NoMemory>
    ensures { IfOk result (λ odd. odd ≡ has_no_time element.now) }
{
    let text = element.string(alloc)?;
    Ok(!is_time(trim_blanks(text.as_str())))
}

fn has_no_decimal(alloc: Global, element: &Element) -> Result<bool, NoMemory>
    ensures { IfOk result (λ odd. odd ≡ has_no_decimal element.now) }
{
    let text = element.string(alloc)?;
    Ok(Decimal::read(trim_blanks(text.as_str())).is_none())
}

fn has_bad_fraction(element: &Element, attribute: &str) -> bool
    ensures { result ≡ has_bad_fraction attribute.now element.now }
{
    match element.attribute(attribute) {
        Some(value) => !is_fraction(value.as_str()),
        None => false,
    }
}

fn has_bad_expiry(element: &Element) -> bool
    ensures { result ≡ has_bad_expiry element.now }
{
    match element.attribute("expires") {
        Some(value) => !is_time(value.as_str()),
        None => false,
    }
}
