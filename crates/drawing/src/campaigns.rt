// Drawings of a campaign.
ghost use Rattle.std.specs.Prelude.{◌≡◌, ℕ, ◌+◌, ◌<◌, true, not, ◌&&◌, pos, is_some, IfSome, slice_index_or};
ghost use Rattle.feeder.specs.declared.kind.Kind.TheVariants.{Reduced};
ghost use Rattle.feeder.specs.Table.{AnswersAreAlone, CompleteFeedersAreAlone};
ghost use Rattle.campaign.specs.Columns.{has_inverter, present, entry};
ghost use Rattle.campaign.specs.Drawings.{missing, bare, Draws, DrawingsAreAlone};
ghost use Rattle.drawing.specs.Copies.{Copy};

use crate::columns::Columns;
use crate::drawing::draw;
use campaign::{Campaign, DrawingFault};
use feeder::{Kind, MOST_METERED, Map};
use std::array;

// The column of an inverter, with 0 for each response where it was not collected; none where the bus has no inverter.
fn column_of(campaign: &Campaign, inverter: usize) -> Option<[i64; MOST_METERED]>
    ensures has { is_some result ≡ has_inverter campaign.now inverter }
    ensures entries { present campaign.now inverter ≡ true → IfSome result (λ c. (k : ℕ) → k < 64 → slice_index_or c k (pos 0) ≡ entry campaign.now (k + 1) inverter) }
{
    let entries = array::from_fn(|i| campaign.response(i + 1, inverter).unwrap_or(0));
    campaign.has_inverter(inverter).then_some(entries)
}

// The columns of a campaign.
fn columns_of(campaign: &Campaign) -> Columns
    ensures { Copy campaign.now result }
{
    Columns {
        buses: campaign.buses(),
        columns: array::from_fn(|i| column_of(campaign, i + 1)),
    }
}

// Whether the column of an inverter is missing.
fn lacks_column(campaign: &Campaign, bus: usize) -> bool
    ensures { result ≡ (has_inverter campaign.now bus && not (present campaign.now bus)) }
{
    campaign.has_inverter(bus) && !campaign.has_column(bus)
}

// The lowest inverter whose column is missing.
fn missing_column(campaign: &Campaign) -> Option<usize>
    ensures { result ≡ missing campaign.now }
{
    (1..=campaign.buses()).find(|&bus| lacks_column(campaign, bus))
}

// The lowest metered bus without an inverter.
fn lowest_bare(campaign: &Campaign) -> Option<usize>
    ensures { result ≡ bare Reduced campaign.now }
{
    (1..=campaign.buses()).find(|&bus| !campaign.has_inverter(bus))
}

// The same, where the kind wants an inverter at each metered bus.
fn bare_bus(campaign: &Campaign, kind: Kind) -> Option<usize>
    ensures { result ≡ bare kind campaign.now }
{
    match kind {
        Kind::Complete => None,
        Kind::Reduced => lowest_bare(campaign),
    }
}

/// Draws a campaign into a map place, whatever that held. Refused, in this order, with 16 at the lowest inverter whose column is
/// missing, with 17 at the lowest metered bus without an inverter if the kind is reduced, and with 18 where no feeder of the kind
/// yields the columns (of a campaign from its opening on, only there); the place is then as it was. What a drawing of columns may answer has one answer, a drawn complete feeder is
/// the only complete one that yields them, and of a campaign from its opening on the drawing has one answer and leaves one map.
#[tactic(auto, using(feeder::proofs::Alone::answers_are_alone, campaign::proofs::Certain::drawings_are_alone))]
pub fn draw_campaign(campaign: &Campaign, kind: Kind, place: &mut Map) -> Result<(), DrawingFault>
    ensures draws { Draws campaign.now kind place.old result place.new }
    ensures alone { AnswersAreAlone }
    ensures complete { CompleteFeedersAreAlone }
    ensures certain { DrawingsAreAlone }
{
    if let Some(inverter) = missing_column(campaign) {
        return Err(DrawingFault::ColumnMissing { inverter });
    }
    if let Some(bus) = bare_bus(campaign, kind) {
        return Err(DrawingFault::InverterMissing { bus });
    }
    // No campaign that was opened has more buses.
    if campaign.buses() > MOST_METERED {
        return Err(DrawingFault::NoFeeder);
    }
    let map = draw(kind, &columns_of(campaign)).ok_or(DrawingFault::NoFeeder)?;
    *place = map;
    Ok(())
}
