use feeder::MOST_METERED;

/// What a drawing starts from: a column of responses for each inverter, in millionths of per unit.
// How many places of the arrays are used is said once: `ArrayVec`s would each hold that number again.
#[derive(PartialEq, Eq, Debug, Drop)]
pub struct Columns {
    /// The metered buses are 1 to this.
    pub buses: usize,
    /// Inverter m's column at place m - 1, with the response of bus n to it at place n - 1. None where bus m has no inverter.
    pub columns: [Option<[i64; MOST_METERED]>; MOST_METERED],
}
