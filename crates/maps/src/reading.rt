// Reading a map file into a place.
ghost use Rattle.std.specs.Prelude.{◌≡◌, ℕ, ◌≤◌, length, MatchResult, OnOk};
ghost use Rattle.refusals.specs.Checks.{Fills};
ghost use Rattle.feeder.specs.Feeder.{Bus, Feeder};
ghost use Rattle.feeder.specs.Build.{IsBeyond, IsFlawed, Lowest};
ghost use Rattle.feeder.specs.View.{lines_of, metered_of, Stands};
ghost use Rattle.files.specs.declared.fault.FileFault.TheVariants.{Unreached};
ghost use Rattle.maps.specs.Reading.{fault_bus, MapReading, MapOutcomesAreUnique, RightMapsAreRead};
ghost use Rattle.maps.specs.RoundTrip.{WrittenMapsAreRead};

use crate::lines::read_map_lines;
use feeder::{Fault, Line, Map};
use files::FileFault;
use rfc4180::Reader;

// The refusal of lines with a fault. It names the fault's bus, 0 where the fault names none.
fn unreached(fault: Fault) -> FileFault
    ensures { result ≡ Unreached (fault_bus fault) }
{
    let bus = match fault {
        Fault::TooMany | Fault::Overmetered => 0,
        Fault::Flawed(bus) | Fault::Beyond(bus) => bus,
    };
    FileFault::Unreached { bus }
}

// The map of lines without a flaw, with every bus metered.
fn draw_lines(lines: &[Line]) -> Result<Map, FileFault>
    requires few { length lines.now ≤ 64 }
    requires sound { (b : ℕ) → Bus lines.now b → IsFlawed lines.now b → ⊥ }
    ensures { MatchResult result
        (λ m. (lines_of m ≡ lines.now) × (metered_of m ≡ length (lines_of m)))
        (λ e. (b : ℕ) × (e ≡ Unreached b) × Lowest lines.now (IsBeyond lines.now) b) }
{
    Map::from_lines(lines.len(), lines).map_err(unreached)
}

/// Fills the place with the map of a map file, whatever it held, and counts every bus as metered; a refused file leaves
/// the place as it was.
///
/// The first fault of the file is its refusal: 2, 1 and 3, then 19 at the length where there is no record, then record by
/// record 4 and, from the left, 5 or 19, and in the end 20.
pub fn read_map(file: &[u8], place: &mut Map) -> Result<(), FileFault>
    ensures reads { Fills (MapReading file.now) place.old place.new result }
    ensures one { MapOutcomesAreUnique }
    ensures right { RightMapsAreRead }
    ensures stands { OnOk result (Feeder (lines_of place.new) × Stands place.new) }
    ensures back { WrittenMapsAreRead }
{
    let reader = Reader::open(file)?;
    let lines = read_map_lines(reader, file.len())?;
    *place = draw_lines(&lines)?;
    Ok(())
}
