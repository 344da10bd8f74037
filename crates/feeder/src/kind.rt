/// The kinds of feeder that a table of responses is drawn as.
#[derive(Clone, Copy, PartialEq, Eq, Debug)]
pub enum Kind {
    /// Metered buses only.
    Complete,
    /// Metered buses, each with an inverter, and any number of unmetered ones.
    Reduced,
}
