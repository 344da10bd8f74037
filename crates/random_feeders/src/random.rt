// A linear congruential generator.
ghost use Rattle.std.specs.Prelude.{◌<◌, length};

const SEED: usize = 20_251;

// Each state is the one before times 48,271, modulo 2^31 - 1.
#[derive(Drop)]
pub(crate) struct Random {
    state: usize,
    ghost small: { state < 2147483647 },
}

impl Random {
    pub(crate) fn new() -> Random {
        Random { state: SEED }
    }

    // A number below the bound.
    pub(crate) fn below(&mut self, bound: usize) -> usize
        requires { 0 < bound }
        ensures { result < bound }
    {
        self.state = self.state * 48_271 % 2_147_483_647;
        self.state % bound
    }

    // One of a list.
    pub(crate) fn one_of<'a, T>(&mut self, list: &'a [T]) -> &'a T
        requires { 0 < length list.now }
    {
        &list[self.below(list.len())]
    }

    // One of two.
    pub(crate) fn flip(&mut self) -> bool {
        self.below(2) == 1
    }
}
