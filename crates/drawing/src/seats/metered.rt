// The seats of metered buses: the largest entry of a bus's row, at the lowest inverter that has it.
ghost use Rattle.std.specs.Prelude.{ℕ, MatchOption};
ghost use Rattle.drawing.specs.Seats.{Meter};
ghost use Rattle.drawing.specs.Responses.{entries_of};
ghost use Rattle.drawing.specs.Places.{EmptyRow, SeatsRow, MeteredSeats};

use crate::responses::Responses;
use crate::seat::Seat;
use crate::seats::Seats;
use arrayvec::ArrayVec;

// The seats of the substation and of all metered buses, or none where a bus responds to no inverter.
pub(crate) fn metered_seats(responses: &Responses) -> Option<Seats>
    ensures { MatchOption result ((n : ℕ) × Meter (entries_of responses.now) n × EmptyRow (entries_of responses.now) n) (λ s. MeteredSeats (entries_of responses.now) s.items) }
{
    let mut seats = ArrayVec::new();
    seats.push(Seat::default());
    for bus in 1..=responses.buses() {
        seats.push(row_seat(responses, bus)?);
    }
    Some(seats)
}

// The seat of one metered bus.
fn row_seat(responses: &Responses, bus: usize) -> Option<Seat>
    requires { Meter (entries_of responses.now) bus }
    ensures { MatchOption result (EmptyRow (entries_of responses.now) bus) (λ s. SeatsRow (entries_of responses.now) bus s) }
{
    let mut best = Seat::default();
    for m in 1..=responses.buses() {
        if responses.has_inverter(m) {
            let entry = responses.entry(bus, m);
            if entry > best.distance {
                best = Seat {
                    inverter: m,
                    distance: entry,
                };
            }
        }
    }
    (best.distance > 0).then_some(best)
}
