// Where the buses of a drawing sit: the metered ones, then the unmetered ones.
use crate::seat::Seat;
use arrayvec::ArrayVec;
use feeder::PLACES;

mod branches;
mod metered;

pub(crate) use branches::Metered;
pub(crate) use metered::metered_seats;

// Bus b's seat is at place b, and the substation's at place 0.
pub(crate) type Seats = ArrayVec<Seat, PLACES>;
