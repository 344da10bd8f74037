// The lines of a drawing: each bus's parent is the farthest bus above it, or else the substation.
ghost use Rattle.std.specs.Prelude.{◌<◌, ◌≤◌, Decides};
ghost use Rattle.drawing.specs.Seats.{Inverter};
ghost use Rattle.drawing.specs.Responses.{entries_of};
ghost use Rattle.drawing.specs.Seating.{last_of, Seated, ParentSeat, SeatedLine, Wires};

use crate::responses::Responses;
use crate::seat::Seat;
use arrayvec::ArrayVec;
use feeder::{Line, MOST_BUSES};

// The seats of all buses, beside the responses that they were found from. That they are seated stands in each clause and not as a
// ghost field: antt takes only a proposition there, and `Seated` says which branch and which other inverter.
#[derive(Clone, Copy)]
pub(crate) struct Seating<'a> {
    pub(crate) responses: &'a Responses,
    pub(crate) seats: &'a [Seat],
}

impl Seating<'_> {
    // The lines of all buses, bus 1 first.
    pub(crate) fn wires(&self) -> ArrayVec<Line, MOST_BUSES>
        requires { Seated (entries_of self.now.responses.now) self.now.seats.now }
        ensures { Wires (entries_of self.now.responses.now) self.now.seats.now result.items }
    {
        let mut lines = ArrayVec::new();
        for bus in 1..self.seats.len() {
            lines.push(self.line(bus));
        }
        lines
    }

    // The line of a bus.
    fn line(&self, bus: usize) -> Line
        requires seated { Seated (entries_of self.now.responses.now) self.now.seats.now }
        requires some { 0 < bus }
        requires drawn { bus ≤ last_of self.now.seats.now }
        ensures { SeatedLine (entries_of self.now.responses.now) self.now.seats.now bus result }
    {
        let parent = self.parent(bus);
        Line {
            parent,
            resistance: self.seats[bus].distance - self.seats[parent].distance,
        }
    }

    // The farthest bus that sits above a bus, or 0 where none does.
    fn parent(&self, bus: usize) -> usize
        requires seated { Seated (entries_of self.now.responses.now) self.now.seats.now }
        requires some { 0 < bus }
        requires drawn { bus ≤ last_of self.now.seats.now }
        ensures { ParentSeat (entries_of self.now.responses.now) self.now.seats.now bus result }
    {
        let seat = self.seats[bus];
        let mut parent = 0;
        for other in 1..self.seats.len() {
            let upper = self.seats[other];
            if self.seats[parent].distance < upper.distance
                && is_above(self.responses, upper, seat)
            {
                parent = other;
            }
        }
        parent
    }
}

// Whether a seat is above another: nearer, and before their inverters' ways part.
#[tactic(auto, using(crate::proofs::Reading::few))]
fn is_above(responses: &Responses, upper: Seat, lower: Seat) -> bool
    requires upper { Inverter (entries_of responses.now) upper.inverter }
    requires lower { Inverter (entries_of responses.now) lower.inverter }
    ensures { Decides result ((upper.distance < lower.distance) × (upper.distance ≤ (entries_of responses.now).entry upper.inverter lower.inverter)) }
{
    upper.distance < lower.distance
        && upper.distance <= responses.entry(upper.inverter, lower.inverter)
}
