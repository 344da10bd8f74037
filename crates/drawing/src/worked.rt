// The worked cases of drawings.
ghost use Rattle.std.specs.Prelude.{◌≡◌, length};
ghost use Rattle.drawing.specs.Cases.{cases, CasesStand};

/// How many cases are worked: each outcome is what a drawing of its columns answers.
pub fn worked_cases_stand() -> u8
    ensures count { result ≡ length cases }
    ensures stand { CasesStand }
{
    12
}
