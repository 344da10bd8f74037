ghost use Rattle.std.specs.Prelude.{◌≡◌, ◌^◌, ◌<◌, ◌≤◌, true, length, is_some, IfSome};
ghost use Rattle.units.specs.Decimals.{places_of, digits, number as number_written, is_number, decimal_of, bus_of, Decimal as Parts, Form, Reads, ReadsBus, Sign};

use crate::{Decimal, Scale};

/// The bus number that the text writes in one to four digits, leading zeros too: 0 to 9,999. None exactly where the text is
/// anything else.
#[tactic(auto, using(crate::proofs::Buses::bus_reads))]
pub fn bus_number(text: &[u8]) -> Option<usize>
    ensures value { result ≡ bus_of text.now }
    ensures form { ReadsBus text.now result }
{
    usize::try_from(number(only_digits(text, 4)?)).ok()
}

/// The exact value, in the scale's units, of the decimal that the text writes: an optional minus, one to four digits, and
/// optionally a point with one digit or more, at most as many as the scale has places. The minus goes with the whole value,
/// so `-0.25` is below 0. None exactly where the text writes no such decimal.
#[tactic(auto, using(crate::proofs::Forms::parsed_none, crate::proofs::Forms::parsed_some, crate::proofs::Forms::result_reads, crate::proofs::Signs::signs))]
pub fn decimal(text: &[u8], scale: Scale) -> Option<i64>
    ensures value { result ≡ decimal_of (places_of scale) text.now }
    ensures form { Reads (places_of scale) text.now result }
    ensures sign { (d : Parts) → Form (places_of scale) d → Sign (places_of scale) d }
{
    Decimal::parse(text)?.in_units(scale)
}

// Whether the text is digits alone.
fn all_digits(text: &[u8]) -> bool
    ensures { result ≡ digits text.now }
{
    text.iter().all(|b| b.is_ascii_digit())
}

// The text, where it is one to `most` digits.
pub(crate) fn only_digits(text: &[u8], most: usize) -> Option<&[u8]>
    ensures test { is_some result ≡ is_number most text.now }
    ensures text { IfSome result (λ digits. digits.now ≡ text.now) }
{
    let fits = (1..=most).contains(&text.len());
    (fits && all_digits(text)).then_some(text)
}

// The number that at most nine digits write.
pub(crate) fn number(text: &[u8]) -> u64
    requires { (digits text.now ≡ true) × (length text.now ≤ 9) }
    ensures value { result ≡ number_written text.now }
    ensures small { result < 10 ^ 9 }
{
    let mut n = 0;
    for b in text {
        n = n * 10 + u64::from(*b - b'0');
    }
    n
}
