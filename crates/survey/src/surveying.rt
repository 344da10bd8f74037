ghost use Rattle.std.specs.Prelude.{ℕ, List, Ok};
ghost use Rattle.sources.specs.TableLoading.{Loads};
ghost use Rattle.survey.specs.Surveys.{Surveys};

use crate::fault::ProgramFault;
use campaign::probe_all;
use drawing::draw_campaign;
use feeder::{Kind, Map};
use probing::Source;
use sources::TableSource;

// The step of each probe, in thousandths.
pub(crate) const STEP: i32 = 100;

// Probes each inverter of a source that was loaded from a file, and draws. It is a function of its own so that the campaign can
// have the stack that the file's table had.
fn draw_source(source: &mut TableSource, kind: Kind, place: &mut Map) -> Result<(), ProgramFault>
    ensures { (bytes : List ℕ) → Loads ⟦<TableSource as Source>⟧.facts bytes (Ok source.old) →
        Surveys bytes kind place.old result place.new }
{
    let campaign = probe_all(source, STEP)?;
    draw_campaign(&campaign, kind, place)?;
    Ok(())
}

/// Reads a response file, probes each inverter in rising order with a step of 100 thousandths and draws the feeder of the kind into
/// the map place. The first refusal ends it and leaves the place as it was: the file's, a mute meter's (12), or the drawing's (17, 18).
/// That it was probed, a contract over what is there before and after cannot see.
pub fn survey_file(file: &[u8], kind: Kind, place: &mut Map) -> Result<(), ProgramFault>
    ensures { Surveys file.now kind place.old result place.new }
{
    let mut source = TableSource::new();
    source.load(file)?;
    draw_source(&mut source, kind, place)
}
