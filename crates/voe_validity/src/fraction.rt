//! Decimals from 0 to 1.

ghost use Rattle.std.specs.Prelude.{◌≡◌};
ghost use Rattle.voe_validity.specs.Remarks.{is_within_one, is_fraction};

use voe_values::Decimal;

/// Whether the number is from 0 to 1; `-0` is.
pub(crate) fn is_within_one(decimal: Decimal) -> bool
    ensures { result ≡ is_within_one decimal }
{
    if decimal.digits == 0 {
        return true;
    }
    if decimal.negative {
        return false;
    }
    match 10u128.checked_pow(decimal.scale as u32) {
        Some(one) => decimal.digits <= one,
        None => true,
    }
}

/// Whether the text is a decimal from 0 to 1.
pub(crate) fn is_fraction(text: &str) -> bool
    ensures { result ≡ is_fraction text.now }
{
    match Decimal::read(text) {
        Some(decimal) => is_within_one(decimal),
        None => false,
    }
}
