/// Why a list of lines makes no map.
#[derive(Clone, Copy, PartialEq, Eq, Debug)]
pub enum Fault {
    /// More buses than a map holds.
    TooMany,
    /// More metered buses than buses.
    Overmetered,
    /// The lowest bus whose parent is no bus or whose line has no resistance.
    Flawed(usize),
    /// The lowest bus that does not reach the substation, or lies beyond distance 1,000,000.
    Beyond(usize),
}
