// The drawing of a feeder from columns of responses: seats, lines, and a last check of the whole map.
ghost use Rattle.std.specs.Prelude.{MatchOption};
ghost use Rattle.feeder.specs.Table.{NoFeeder};
ghost use Rattle.feeder.specs.View.{DrawnMap};
ghost use Rattle.drawing.specs.Columns.{table_of, Within};
ghost use Rattle.drawing.specs.Responses.{entries_of, Near};
ghost use Rattle.drawing.specs.Seating.{Seated, Unseated, MapSeated};

use crate::checks::Check;
use crate::columns::Columns;
use crate::responses::{Responses, read_columns};
use crate::seats::{Metered, Seats, metered_seats};
use crate::wiring::Seating;
use feeder::{Kind, Map};

/// The feeder of the kind that yields the columns, with the fewest buses.
/// None where no feeder of the kind does, or where it is larger than a map.
pub fn draw(kind: Kind, columns: &Columns) -> Option<Map>
    ensures { MatchOption result (Within (table_of columns.now) → NoFeeder kind (table_of columns.now)) (λ map. DrawnMap kind (table_of columns.now) map) }
{
    let responses = read_columns(columns)?;
    let seats = seats(&responses)?;
    let map = wired_map(&Seating {
        responses: &responses,
        seats: &seats,
    });
    let check = Check {
        responses: &responses,
        map: &map,
    };
    check.passes(kind).then_some(map)
}

// The seats of all buses.
fn seats(responses: &Responses) -> Option<Seats>
    ensures { MatchOption result (Unseated (entries_of responses.now)) (λ s. Seated (entries_of responses.now) s.items) }
{
    let seats = metered_seats(responses)?;
    let metered = Metered {
        responses,
        seats: &seats,
    };
    metered.all_seats()
}

// The map of the seats' lines. These are always a feeder, and no farther than a map reaches.
fn wired_map(seating: &Seating) -> Map
    requires near { Near (entries_of seating.now.responses.now) }
    requires seated { Seated (entries_of seating.now.responses.now) seating.now.seats.now }
    ensures { MapSeated (entries_of seating.now.responses.now) seating.now.seats.now result }
{
    let lines = seating.wires();
    Map::from_lines(seating.responses.buses(), &lines).unwrap()
}
