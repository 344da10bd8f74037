ghost use Rattle.std.specs.Prelude.{◌≡◌, ◌↔◌, ℕ, ◌-◌, ◌≤◌, false, not, ◌&&◌, [], ◌∷◌, length, Some, None, IsOk, MatchResult, nat_lt, slice_index_or, unsigned_abs};
ghost use Rattle.refusals.specs.Checks.{Fills};
ghost use Rattle.feeder.specs.View.{lines_of};
ghost use Rattle.probing.specs.declared.fault.SourceFault.TheVariants.{InverterEntry, StandingEntry};
ghost use Rattle.sources.specs.GridFacts.{within};
ghost use Rattle.sources.specs.LineMaking.{lone_line, new_feeder, first_misplaced, first_too_far, Makes, IsWithinLimits, Marks, Copies};

use crate::feeder_source::{FeederGrid, FeederSource};
use crate::settings::Settings;
use feeder::{Line, MOST_METERED, Map};
use probing::{Source, SourceFault};

impl FeederSource {
    /// A new place: one metered bus at distance 1 reading 0, and no inverter.
    pub fn new() -> FeederSource
        ensures { ⟦<FeederSource as Source>⟧.facts result ≡ new_feeder }
    {
        FeederSource {
            grid: FeederGrid {
                map: one_bus(),
                inverters: [false; MOST_METERED],
                standing: [0; MOST_METERED],
            },
            settings: Settings::new(),
        }
    }

    /// Fills the place with the map's lines, the buses that have inverters, and a standing voltage for each bus in billionths of
    /// per unit, with every setting 0; refused with 21, it is as it was. In this order: the map has 1 to 64 buses; each inverter
    /// is one of them, and listed once; there is a standing voltage for each bus, within 1,000,000,000 either way.
    pub fn make(
        &mut self,
        map: &Map,
        inverters: &[usize],
        standing: &[i64],
    ) -> Result<(), SourceFault>
        ensures value { Fills
            (Makes ⟦<FeederSource as Source>⟧.facts (lines_of map.now) inverters.now standing.now)
            self.old self.new result }
        ensures limits { IsOk result ↔
            IsWithinLimits (lines_of map.now) inverters.now standing.now }
    {
        *self = FeederSource::made(map, inverters, standing)?;
        Ok(())
    }

    // The source of a map's lines with these inverters and standing voltages.
    fn made(map: &Map, inverters: &[usize], standing: &[i64]) -> Result<FeederSource, SourceFault>
        ensures { Makes ⟦<FeederSource as Source>⟧.facts
            (lines_of map.now) inverters.now standing.now result }
    {
        let buses = map.buses();
        if !(1..=MOST_METERED).contains(&buses) {
            return Err(SourceFault::MapSize { buses });
        }
        let marks = mark(buses, inverters)?;
        if standing.len() != buses {
            return Err(SourceFault::StandingCount {
                length: standing.len(),
            });
        }
        let voltages = stand(standing)?;
        Ok(FeederSource {
            grid: FeederGrid {
                map: same_lines(map),
                inverters: marks,
                standing: voltages,
            },
            settings: Settings::new(),
        })
    }
}

// A map of one metered bus at distance 1.
fn one_bus() -> Map
    ensures { lines_of result ≡ lone_line ∷ [] }
{
    Map::from_lines(1, &[Line::default()]).unwrap()
}

// A map of the same lines, with every bus metered.
fn same_lines(map: &Map) -> Map
    requires { 1 ≤ length (lines_of map.now) }
    ensures { lines_of result ≡ lines_of map.now }
{
    Map::from_lines(map.buses(), map.lines()).unwrap()
}

// Whether a listed inverter is no bus, or is listed before.
fn is_misplaced(buses: usize, marks: &[bool; MOST_METERED], bus: usize) -> bool
    requires { buses ≤ 64 }
    ensures { result ≡ not (within buses bus && not (slice_index_or marks.now (bus - 1) false)) }
{
    !(1..=buses).contains(&bus) || marks[bus - 1]
}

// A mark at each bus that is listed.
fn mark(buses: usize, inverters: &[usize]) -> Result<[bool; MOST_METERED], SourceFault>
    requires { buses ≤ 64 }
    ensures { MatchResult result
        (λ marks. (first_misplaced buses inverters.now ≡ None) × Marks inverters.now marks)
        (λ e. (i : ℕ) × (first_misplaced buses inverters.now ≡ Some i) × (e ≡ InverterEntry i)) }
{
    let mut marks = [false; MOST_METERED];
    for (index, &bus) in inverters.iter().enumerate() {
        if is_misplaced(buses, &marks, bus) {
            return Err(SourceFault::InverterEntry { index });
        }
        marks[bus - 1] = true;
    }
    Ok(marks)
}

// The furthest that a standing voltage is from 0.
const FURTHEST_STANDING: u64 = 1_000_000_000;

fn is_too_far(voltage: i64) -> bool
    ensures { result ≡ nat_lt 1000000000 (unsigned_abs voltage) }
{
    voltage.unsigned_abs() > FURTHEST_STANDING
}

// The index of the first standing voltage that is too far from 0.
fn too_far_at(standing: &[i64]) -> Option<usize>
    ensures { result ≡ first_too_far standing.now }
{
    standing.iter().position(|voltage| is_too_far(*voltage))
}

// The standing voltage of each bus at its place.
fn stand(standing: &[i64]) -> Result<[i64; MOST_METERED], SourceFault>
    requires { length standing.now ≤ 64 }
    ensures { MatchResult result
        (λ places. (first_too_far standing.now ≡ None) × Copies standing.now places)
        (λ e. (i : ℕ) × (first_too_far standing.now ≡ Some i) × (e ≡ StandingEntry i)) }
{
    if let Some(index) = too_far_at(standing) {
        return Err(SourceFault::StandingEntry { index });
    }
    let mut places = [0; MOST_METERED];
    places[..standing.len()].copy_from_slice(standing);
    Ok(places)
}
