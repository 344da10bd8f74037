// What a random feeder is to look like.
ghost use Rattle.std.specs.Prelude.{◌≡◌, ◌+◌, ◌^◌, ◌<◌, ◌≤◌};

use crate::random::Random;
use feeder::MOST_METERED;

// Where each bus joins those that are there.
#[derive(Clone, Copy, PartialEq, Eq, Debug)]
pub(crate) enum Shape {
    // At the bus before it.
    Chain,
    // At the first bus.
    Star,
    // At any bus, or at the substation.
    Anywhere,
    // At one of the three before it, or at the substation.
    Deep,
    // Two at each bus.
    Forks,
    // At one of the first buses, as many as are unmetered, or at the substation.
    Ends,
}

// The shapes, each as often as it is to come.
const SHAPES: [Shape; 8] = [
    Shape::Chain,
    Shape::Star,
    Shape::Anywhere,
    Shape::Deep,
    Shape::Forks,
    Shape::Forks,
    Shape::Ends,
    Shape::Ends,
];

#[derive(Drop)]
pub(crate) struct Plan {
    pub(crate) metered: usize,
    pub(crate) unmetered: usize,
    shape: Shape,
    // Whether the unmetered buses join first.
    pub(crate) unmetered_first: bool,
    // The resistances are from the least to the most.
    least: usize,
    most: usize,
    ghost some: { 0 < metered },
    ghost few: { metered + unmetered ≤ 127 },
    ghost ordered: { least ≤ most },
    ghost near: { most ≤ 1000000 },
}

impl Plan {
    // No bus lies beyond distance 1,000,000. That a bus is metered is asked by a clause, here, below and for a change: a type for the
    // count would wrap one number.
    fn new(
        metered: usize,
        unmetered: usize,
        shape: Shape,
        unmetered_first: bool,
        random: &mut Random,
    ) -> Plan
        requires some { 0 < metered }
        requires few { metered + unmetered ≤ 127 }
    {
        let longest = 1_000_000 / (metered + unmetered);
        let (least, most) = match random.below(5) {
            0 => (1, 1),
            1 => (1, 3),
            2 => (1, 1_000),
            3 => (1, longest),
            _ => (longest, longest),
        };
        Plan {
            metered,
            unmetered,
            shape,
            unmetered_first,
            least,
            most,
        }
    }

    // Any shape.
    fn any(metered: usize, unmetered: usize, random: &mut Random) -> Plan
        requires some { 0 < metered }
        requires few { metered + unmetered ≤ 127 }
    {
        let shape = *random.one_of(&SHAPES);
        let unmetered_first = random.below(4) != 0;
        Plan::new(metered, unmetered, shape, unmetered_first, random)
    }

    // 1 to 12 metered buses.
    pub(crate) fn small(random: &mut Random) -> Plan {
        let metered = 1 + random.below(12);
        let unmetered = random.below(metered + 4);
        Plan::any(metered, unmetered, random)
    }

    // 20 to 64 metered buses.
    pub(crate) fn large(random: &mut Random) -> Plan {
        let metered = 20 + random.below(45);
        let unmetered = random.below(MOST_METERED);
        Plan::any(metered, unmetered, random)
    }

    // 64 metered buses below 63 unmetered ones with two lines down each.
    pub(crate) fn full(random: &mut Random) -> Plan {
        Plan::new(MOST_METERED, MOST_METERED - 1, Shape::Forks, true, random)
    }

    pub(crate) fn buses(&self) -> usize
        ensures { result ≡ self.now.metered + self.now.unmetered }
    {
        self.metered + self.unmetered
    }

    // Which of the buses that are there the next one joins, counted from 1 in the order of their joining; 0 is the substation.
    pub(crate) fn joint(&self, there: usize, random: &mut Random) -> usize
        requires { there + 1 < 2 ^ 64 }
        ensures { result ≤ there }
    {
        match self.shape {
            Shape::Chain => there,
            Shape::Star => there.min(1),
            Shape::Anywhere => random.below(there + 1),
            Shape::Deep => there - random.below(3).min(there),
            Shape::Forks => (there + 1) / 2,
            Shape::Ends => random.below(there.min(self.unmetered) + 1),
        }
    }

    pub(crate) fn resistance(&self, random: &mut Random) -> u32 {
        let resistance = self.least + random.below(self.most - self.least + 1);
        resistance as u32
    }
}
