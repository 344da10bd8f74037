ghost use Rattle.std.specs.Prelude.{◌≡◌, ◌+◌, ◌*◌, ◌^◌, ◌<◌, ◌≤◌, length, position, IfSome, IfNone, MatchOption};
ghost use Rattle.std.specs.List.{position_or_len, before_first, after_first};
ghost use Rattle.units.specs.Decimals.{places_of, is_minus, unsigned, is_point, Form, IsNoDecimal, in_units, written};

use crate::Scale;
use crate::numbers::{number, only_digits};

/// A decimal by its parts, which borrow the text that writes it: an optional minus, one to four digits, and optionally a
/// point with one to nine digits.
#[derive(Clone, Copy, PartialEq, Eq, Debug)]
pub struct Decimal<'a> {
    minus: bool,
    whole: &'a [u8],
    // Empty where there is no point.
    fraction: &'a [u8],
    ghost form: { Form 9 (record { minus = minus; whole = whole.now; fraction = fraction.now }) },
}

impl<'a> Decimal<'a> {
    ghost use Rattle.units.specs.Views.{parts};

    /// The parts of the decimal that the text writes. None exactly where it writes no decimal with at most nine digits
    /// behind the point.
    #[tactic(auto, using(crate::proofs::Forms::no_whole, crate::proofs::Forms::no_fraction, crate::proofs::Forms::cut_with_point, crate::proofs::Forms::cut_with_none))]
    pub fn parse(text: &'a [u8]) -> Option<Decimal<'a>>
        ensures written { IfSome result (λ d. written (parts d) ≡ text.now) }
        ensures form { IfSome result (λ d. Form 9 (parts d)) }
        ensures none { IfNone result (IsNoDecimal 9 text.now) }
    {
        let (minus, digits) = split_minus(text);
        let (whole, fraction) = split_point(digits);
        let whole = only_digits(whole, 4)?;
        let fraction = match fraction {
            Some(digits) => only_digits(digits, 9)?,
            None => &[],
        };
        Some(Decimal {
            minus,
            whole,
            fraction,
        })
    }

    /// The exact value in the scale's units; the minus goes with the whole value, so minus a quarter is below 0. None
    /// exactly where more digits stand behind the point than the scale has places.
    pub fn in_units(self, scale: Scale) -> Option<i64>
        ensures { result ≡ in_units (places_of scale) (parts self.entry) }
    {
        let missing = scale.places().checked_sub(self.fraction.len())?;
        let whole = number(self.whole) * scale.denominator();
        let part = scaled(number(self.fraction), missing);
        let size = i64::try_from(whole + part).ok()?;
        Some(if self.minus { -size } else { size })
    }
}

// Whether a minus stands in front, and what stands behind it.
fn split_minus(text: &[u8]) -> (bool, &[u8])
    ensures minus { result.0 ≡ is_minus text.now }
    ensures rest { result.1.now ≡ unsigned text.now }
{
    match text {
        [b'-', digits @ ..] => (true, digits),
        digits => (false, digits),
    }
}

// Where the first point stands.
fn point(text: &[u8]) -> Option<usize>
    ensures { result ≡ position is_point text.now }
{
    text.iter().position(|b| *b == b'.')
}

// What stands before the first point, and what stands behind it where there is one.
fn split_point(text: &[u8]) -> (&[u8], Option<&[u8]>)
    ensures whole { result.0.now ≡ before_first is_point text.now }
    ensures fraction { MatchOption result.1 (length text.now ≤ position_or_len is_point text.now)
        (λ digits. (position_or_len is_point text.now < length text.now)
        × (digits.now ≡ after_first is_point text.now)) }
{
    match point(text) {
        Some(point) => (&text[..point], Some(&text[point + 1..])),
        None => (text, None),
    }
}

// n times 10 to the k.
fn scaled(n: u64, k: usize) -> u64
    requires { (n < 10 ^ 9) × (k ≤ 9) }
    ensures value { result ≡ n * 10 ^ k }
    ensures small { result ≤ 10 ^ 9 * n }
{
    n * 10u64.pow(k as u32)
}
