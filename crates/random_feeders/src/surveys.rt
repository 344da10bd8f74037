// What a survey draws of a random feeder.
use crate::maker::Maker;
use feeder::{Kind, Map};
use refusals::Refusal;
use sources::FeederSource;
use std::io;
use survey::{survey_feeder, survey_file};

// The reduced feeder of a response file.
pub(crate) fn reduced(file: &[u8]) -> Result<Map, Refusal> {
    let mut map = Map::new();
    survey_file(file, Kind::Reduced, &mut map)?;
    Ok(map)
}

impl Maker {
    // Inverters at the ends and at any other buses. About every eighth feeder has a bus that goes without, be it an end or not.
    fn inverters(&mut self, map: &Map) -> io::Result<Vec<usize>> {
        let goes_without = self.random.below(8) == 0;
        let bare = goes_without.then(|| 1 + self.random.below(map.buses().max(1)));
        let inverters = (1..=map.buses())
            .filter(|&bus| {
                let wanted = self.random.flip() || map.is_end(bus) == Some(true);
                wanted && bare != Some(bus)
            })
            .collect(self.heap)?;
        Ok(inverters)
    }

    // Any standing voltage for each bus.
    fn standing(&mut self, map: &Map) -> io::Result<Vec<i64>> {
        let voltages = (0..map.buses())
            .map(|_| self.random.below(2_000_000_001) as i64 - 1_000_000_000)
            .collect(self.heap)?;
        Ok(voltages)
    }

    // The complete feeder of a source of the map's lines: there every bus is metered.
    pub(crate) fn complete(&mut self, map: &Map) -> io::Result<Result<Map, Refusal>> {
        let inverters = self.inverters(map)?;
        let standing = self.standing(map)?;
        let mut source = FeederSource::new();
        let mut drawn = Map::new();
        let answer = survey_feeder(
            map,
            inverters.as_slice(),
            standing.as_slice(),
            &mut source,
            &mut drawn,
        );
        Ok(answer.map(|()| drawn).map_err(Refusal::from))
    }
}
