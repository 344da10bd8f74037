// The last check of a drawing: its map has every response of the columns, and an inverter at every end.
ghost use Rattle.std.specs.Prelude.{◌≡◌, ◌<◌, length, Decides};
ghost use Rattle.feeder.specs.View.{lines_of, metered_of};
ghost use Rattle.drawing.specs.Seats.{Meter, Inverter};
ghost use Rattle.drawing.specs.Responses.{entries_of};
ghost use Rattle.drawing.specs.Checks.{SameResponse, SameColumn, SameResponses, BareEnd, EndsStand, Stand, Allowed, Passes};
ghost use Rattle.drawing.specs.Yielded.{Yielded};

use crate::responses::Responses;
use feeder::{Kind, Map};

// A map beside the responses that it was drawn from, whose metered buses it has.
#[derive(Clone, Copy)]
pub(crate) struct Check<'a> {
    pub(crate) responses: &'a Responses,
    pub(crate) map: &'a Map,
    ghost metered: { metered_of map.now ≡ (entries_of responses.now).metered },
}

impl Check<'_> {
    // Whether the map is a feeder of the kind that yields the responses.
    pub(crate) fn passes(&self, kind: Kind) -> bool
        ensures { Decides result (Passes kind (entries_of self.now.responses.now) (lines_of self.now.map.now)) }
    {
        self.is_allowed(kind) && self.is_right()
    }

    // Whether the map yields the responses and has an inverter at every end.
    fn is_right(&self) -> bool
        ensures { Decides result (Yielded (entries_of self.now.responses.now) (lines_of self.now.map.now)) }
    {
        self.same_responses() && self.ends_stand()
    }

    // Whether the kind of feeder allows the buses: complete, no unmetered one; reduced, an inverter at each metered one.
    fn is_allowed(&self, kind: Kind) -> bool
        ensures { Decides result (Allowed kind (entries_of self.now.responses.now) (length (lines_of self.now.map.now))) }
    {
        match kind {
            Kind::Complete => self.map.buses() == self.responses.buses(),
            Kind::Reduced => all_inverters(self.responses),
        }
    }

    // Whether the map has the responses to all inverters.
    fn same_responses(&self) -> bool
        ensures { Decides result (SameResponses (entries_of self.now.responses.now) (lines_of self.now.map.now)) }
    {
        (1..=self.responses.buses()).all(|m| !self.responses.has_inverter(m) || self.same_column(m))
    }

    // Whether the map has the responses to inverter m.
    fn same_column(&self, m: usize) -> bool
        requires { Inverter (entries_of self.now.responses.now) m }
        ensures { Decides result (SameColumn (entries_of self.now.responses.now) (lines_of self.now.map.now) m) }
    {
        (1..=self.responses.buses()).all(|n| self.same_response(n, m))
    }

    // Whether the map has the response of bus n to inverter m.
    #[tactic(auto, using(crate::proofs::Reading::few))]
    fn same_response(&self, n: usize, m: usize) -> bool
        requires bus { Meter (entries_of self.now.responses.now) n }
        requires inverter { Meter (entries_of self.now.responses.now) m }
        ensures { Decides result (SameResponse (entries_of self.now.responses.now) (lines_of self.now.map.now) n m) }
    {
        self.map.response(n, m) == Some(self.responses.entry(n, m))
    }

    // Whether every end has an inverter.
    fn ends_stand(&self) -> bool
        ensures { Decides result (EndsStand (entries_of self.now.responses.now) (lines_of self.now.map.now)) }
    {
        !(1..=self.map.buses()).any(|bus| self.is_bare_end(bus))
    }

    // Whether a bus is an end without an inverter.
    fn is_bare_end(&self, bus: usize) -> bool
        requires { 0 < bus }
        ensures { Decides result (BareEnd (entries_of self.now.responses.now) (lines_of self.now.map.now) bus) }
    {
        self.map.is_end(bus) == Some(true)
            && (bus > self.responses.buses() || !self.responses.has_inverter(bus))
    }
}

// Whether every metered bus has an inverter.
fn all_inverters(responses: &Responses) -> bool
    ensures { Decides result (Stand (entries_of responses.now)) }
{
    (1..=responses.buses()).all(|bus| responses.has_inverter(bus))
}
