ghost use Rattle.std.specs.Prelude.{◌≡◌, pos, ◌≢◌};
ghost use Rattle.units.specs.Quotients.{response_of, Divides};

// The largest response either way.
const LIMIT: u64 = 1_000_000;

/// The response, in millionths of per unit, that a voltage change in billionths and a step in thousandths give: the change
/// divided by the signed step. None where that is no whole number or lies beyond 1,000,000 either way, and none for a step
/// of 0.
pub fn response(change: i64, step: i64) -> Option<i64>
    ensures value { result ≡ response_of change step }
    ensures divides { (step ≢ pos 0) → Divides change step result }
{
    let quotient = change.checked_div(step)?;
    let whole = change.checked_rem(step)? == 0;
    (whole && quotient.unsigned_abs() <= LIMIT).then_some(quotient)
}
