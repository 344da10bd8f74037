ghost use Rattle.std.specs.Prelude.{◌≡◌};
ghost use Rattle.probing.specs.Answers.{read_all_of};

use crate::fault::SourceFault;
use crate::interface::Source;
use feeder::MOST_METERED;

/// Reads every meter in bus order, in billionths of per unit: the voltage of bus n stands at n - 1, and 0 behind the last bus.
/// Refused with 12 at the lowest bus whose meter is mute.
pub fn read_all<S: Source>(source: &S) -> Result<[i64; MOST_METERED], SourceFault>
    ensures { result ≡ read_all_of (S.Source.facts source.now) }
{
    let mut readings = [0; MOST_METERED];
    for (index, reading) in readings[..source.buses()].iter_mut().enumerate() {
        *reading = source.read(index + 1)?;
    }
    Ok(readings)
}
