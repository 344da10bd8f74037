// What random feeders, their response files and their sources are made with.
use crate::random::Random;
use std::alloc::Global;

#[derive(Drop)]
pub(crate) struct Maker {
    pub(crate) heap: Global,
    pub(crate) random: Random,
}

impl Maker {
    pub(crate) fn new(heap: Global) -> Maker {
        Maker {
            heap,
            random: Random::new(),
        }
    }
}
