// Random feeders, grown bus by bus.
use crate::maker::Maker;
use crate::plan::Plan;
use crate::random::Random;
use feeder::{Line, Map};
use std::alloc::AllocError;

// Mixes the buses of a list.
fn mix(buses: &mut [usize], random: &mut Random) {
    for i in 0..buses.len() {
        let j = i + random.below(buses.len() - i);
        buses.swap(i, j);
    }
}

impl Maker {
    // The buses in the order of their joining: the unmetered ones first, or all mixed.
    fn in_order(&mut self, plan: &Plan) -> Result<Vec<usize>, AllocError> {
        if !plan.unmetered_first {
            let mut order: Vec<usize> = (1..=plan.buses()).collect(self.heap)?;
            mix(order.as_mut_slice(), &mut self.random);
            return Ok(order);
        }
        let mut order: Vec<usize> = (plan.metered + 1..=plan.buses()).collect(self.heap)?;
        mix(order.as_mut_slice(), &mut self.random);
        let mut metered: Vec<usize> = (1..=plan.metered).collect(self.heap)?;
        mix(metered.as_mut_slice(), &mut self.random);
        order.extend(metered)?;
        Ok(order)
    }

    // The line of each bus at the place of its number.
    fn grown_lines(&mut self, plan: &Plan) -> Result<Vec<Line>, AllocError> {
        let order = self.in_order(plan)?;
        let mut lines = vec![in self.heap; Line::default(); plan.buses() + 1]?;
        for (there, bus) in order.iter().enumerate() {
            let joint = plan.joint(there, &mut self.random);
            let parent = joint.checked_sub(1).map_or(0, |place| order[place]);
            let resistance = plan.resistance(&mut self.random);
            if let Some(line) = lines.get_mut(*bus) {
                *line = Line { parent, resistance };
            }
        }
        Ok(lines)
    }

    // The map of a random feeder, if it is one.
    pub(crate) fn grow(&mut self, plan: &Plan) -> Result<Option<Map>, AllocError> {
        let lines = self.grown_lines(plan)?;
        Ok(match lines.as_slice() {
            [_, lines @ ..] => Map::from_lines(plan.metered, lines).ok(),
            [] => None,
        })
    }
}
