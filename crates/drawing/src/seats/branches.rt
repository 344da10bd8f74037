// The seats of unmetered buses: where the ways of two inverters part and no metered bus sits.
ghost use Rattle.std.specs.Prelude.{◌≡◌, ℕ, ◌<◌, ◌≤◌, if◌then◌else◌, Decides, MatchOption, nat_eq};
ghost use Rattle.drawing.specs.Seats.{Inverter};
ghost use Rattle.drawing.specs.Responses.{entries_of};
ghost use Rattle.drawing.specs.Places.{MeteredSeats, Free, FloorOf, BranchAt, BranchAfter, Later, SeatOn, SeatAfter, NoSeatAfter};
ghost use Rattle.drawing.specs.Seating.{Seated, Overseated};

use crate::responses::Responses;
use crate::seat::Seat;
use crate::seats::Seats;
use arrayvec::ArrayVec;
use feeder::MOST_METERED;

// A drawn feeder has fewer unmetered buses than inverters.
const MOST_UNMETERED: usize = MOST_METERED - 1;

// The seats of the metered buses, beside the responses that they were found from.
#[derive(Clone, Copy)]
pub(crate) struct Metered<'a> {
    pub(crate) responses: &'a Responses,
    pub(crate) seats: &'a [Seat],
    ghost seated: { MeteredSeats (entries_of responses.now) seats.now },
}

// The way of an inverter, on which branches are sought.
#[derive(Clone, Copy)]
struct Way<'a> {
    metered: Metered<'a>,
    inverter: usize,
    ghost stands: { Inverter (entries_of metered.responses.now) inverter },
}

impl Way<'_> {
    // How far the way goes with those of lower inverters.
    #[tactic(auto, using(crate::proofs::Reading::few))]
    fn floor(&self) -> u32
        ensures { FloorOf (entries_of self.now.metered.responses.now) self.now.inverter result }
    {
        let responses = self.metered.responses;
        let mut floor = 0;
        for k in 1..self.inverter {
            if responses.has_inverter(k) {
                let entry = responses.entry(k, self.inverter);
                floor = floor.max(entry);
            }
        }
        floor
    }

    // Whether no metered bus sits at the distance.
    fn is_free(&self, distance: u32) -> bool
        ensures { Decides result (Free (entries_of self.now.metered.responses.now) self.now.metered.seats.now self.now.inverter distance) }
    {
        let Metered { responses, seats } = self.metered;
        !(1..=responses.buses()).any(|n| {
            responses.entry(n, self.inverter) == distance && seats[n].distance == distance
        })
    }

    // The nearest branch that is farther than a distance.
    #[tactic(auto, using(crate::proofs::Reading::few))]
    fn next_branch(&self, above: u32) -> Option<u32>
        ensures { MatchOption result ((v : ℕ) → above < v → BranchAt (entries_of self.now.metered.responses.now) self.now.metered.seats.now self.now.inverter v → ⊥) (λ v. BranchAfter (entries_of self.now.metered.responses.now) self.now.metered.seats.now self.now.inverter above v) }
    {
        let responses = self.metered.responses;
        let from = self.floor().max(above);
        let end = responses.entry(self.inverter, self.inverter);
        let mut next = end;
        for k in 1..responses.buses() + 1 {
            if responses.has_inverter(k) {
                let candidate = responses.entry(k, self.inverter);
                if candidate > from && candidate < next && self.is_free(candidate) {
                    next = candidate;
                }
            }
        }
        (next < end).then_some(next)
    }
}

impl Metered<'_> {
    // The first branch on bus m's way that comes behind a seat, where the bus has an inverter.
    #[tactic(auto, using(crate::proofs::Reading::few))]
    fn seat_on(&self, last: Seat, m: usize) -> Option<Seat>
        requires some { 0 < last.inverter }
        requires from { last.inverter ≤ m }
        requires bus { m ≤ (entries_of self.now.responses.now).metered }
        ensures { MatchOption result ((v : ℕ) → BranchAt (entries_of self.now.responses.now) self.now.seats.now m v → Later last m v → ⊥) (λ s. SeatOn (entries_of self.now.responses.now) self.now.seats.now last m s) }
    {
        if !self.responses.has_inverter(m) {
            return None;
        }
        let way = Way {
            metered: *self,
            inverter: m,
        };
        let distance = way.next_branch(distance_passed(last, m))?;
        Some(Seat {
            inverter: m,
            distance,
        })
    }

    // The branch that comes next behind a seat: by inverter, then by distance.
    fn next_seat(&self, last: Seat) -> Option<Seat>
        requires { 0 < last.inverter }
        ensures { MatchOption result (NoSeatAfter (entries_of self.now.responses.now) self.now.seats.now last) (λ s. SeatAfter (entries_of self.now.responses.now) self.now.seats.now last s) }
    {
        (last.inverter..=self.responses.buses()).find_map(|m| self.seat_on(last, m))
    }

    // The metered seats with those of the unmetered buses behind, or none where there are more than any feeder has.
    pub(crate) fn all_seats(&self) -> Option<Seats>
        ensures { MatchOption result (Overseated (entries_of self.now.responses.now)) (λ s. Seated (entries_of self.now.responses.now) s.items) }
    {
        let most = self.responses.buses() + MOST_UNMETERED;
        let mut seats = ArrayVec::try_from(self.seats).unwrap();
        let mut last = Seat {
            inverter: 1,
            distance: 0,
        };
        while let Some(seat) = self.next_seat(last) {
            if seats.len() > most {
                return None;
            }
            seats.push(seat);
            last = seat;
        }
        Some(seats)
    }
}

// How far a seat is on inverter m's way, where it sits there.
fn distance_passed(last: Seat, m: usize) -> u32
    ensures { result ≡ (if nat_eq last.inverter m then last.distance else 0) }
{
    if last.inverter == m { last.distance } else { 0 }
}
