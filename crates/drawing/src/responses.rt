// The responses of the metered buses to the inverters, none of them negative.
ghost use Rattle.std.specs.Prelude.{◌<◌, ◌≤◌};

use feeder::MOST_METERED;

mod questions;
mod reading;

pub(crate) use reading::read_columns;

// Inverter m's column is at place m - 1, with bus n's response at place n - 1. How many
// of the places are used is said once: `ArrayVec`s would each hold that number again.
#[derive(PartialEq, Eq, Debug, Drop)]
pub(crate) struct Responses {
    buses: usize,
    columns: [Option<[u32; MOST_METERED]>; MOST_METERED],
    ghost some: { 0 < buses },
    ghost counted: { buses ≤ 64 },
}
