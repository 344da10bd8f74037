ghost use Rattle.feeder.specs.View.{lines_of};
ghost use Rattle.sources.specs.LineMaking.{IsWithinLimits};
ghost use Rattle.survey.specs.Returns.{EveryEndIsListed, Returns, Returned};

use crate::fault::ProgramFault;
use crate::surveying::STEP;
use campaign::probe_all;
use drawing::draw_campaign;
use feeder::{Kind, Map};
use probing::Source;
use sources::FeederSource;

/// Makes a source of a map, inverters and standing voltages in billionths of per unit, probes each inverter in rising order and
/// draws the complete feeder. Accepted, the source and the drawn map fill their places, whatever these held; refused, both are as
/// they were. Of a feeder within the limits (1 to 64 buses, none farther than 1,000,000 millionths; inverters listed once each among
/// the buses; a standing voltage for each bus, within 1,000,000,000 either way) with an inverter at every end, the feeder that is
/// drawn is the one that was made. That it was probed, a contract over what is there before and after cannot see.
pub fn survey_feeder(
    map: &Map,
    inverters: &[usize],
    standing: &[i64],
    source: &mut FeederSource,
    place: &mut Map,
) -> Result<(), ProgramFault>
    ensures returns { Returns ⟦<FeederSource as Source>⟧.facts
        (lines_of map.now) inverters.now standing.now
        source.old place.old result source.new place.new }
    ensures returned { IsWithinLimits (lines_of map.now) inverters.now standing.now →
        EveryEndIsListed (lines_of map.now) inverters.now →
        Returned ⟦<FeederSource as Source>⟧.facts map.now result source.new place.new }
{
    let mut made = FeederSource::new();
    made.make(map, inverters, standing)?;
    let campaign = probe_all(&mut made, STEP)?;
    draw_campaign(&campaign, Kind::Complete, place)?;
    *source = made;
    Ok(())
}
