// A seat: a distance on the way of an inverter. The substation's is at distance 0 of none.
#[derive(Clone, Copy, PartialEq, Eq, Debug, Default)]
pub(crate) struct Seat {
    pub(crate) inverter: usize,
    pub(crate) distance: u32,
}
