ghost use Rattle.std.specs.Prelude.{◌≡◌};
ghost use Rattle.campaign.specs.Law.{CampaignLaw, FeederComesBack};
ghost use Rattle.campaign.specs.Relations.{inverter_list, opening_of};

use crate::state::Campaign;
use feeder::MOST_METERED;
use probing::Source;
use std::array;

// Which buses have inverters.
pub(crate) fn inverters_of<S: Source>(source: &S) -> [bool; MOST_METERED]
    ensures { result ≡ inverter_list (S.Source.facts source.now).plant }
{
    array::from_fn(|i| source.has_inverter(i + 1))
}

/// Opens a campaign on a source: its buses and inverters, no column and no outstanding step. It is never refused.
///
/// Every list of calls from here on keeps the law of the campaign, as long as each call that takes a source takes this one and
/// nothing else changes it: each inverter has the setting that it has now, but for an outstanding step's; a drawing, once all is
/// collected, is refused exactly when no feeder of its kind yields the source's responses; a drawn feeder yields them all, with
/// the fewest buses, alone but for unmetered numbers. And where lines are a complete feeder that yields the source's responses,
/// every complete drawing, once all is collected, answers with these lines.
pub fn open_campaign<S: Source>(source: &S) -> Campaign
    ensures opened { result ≡ opening_of (S.Source.facts source.now).plant }
    ensures law { CampaignLaw (S.Source.facts source.now) result }
    ensures returned { FeederComesBack (S.Source.facts source.now) result }
{
    Campaign {
        buses: source.buses(),
        inverters: inverters_of(source),
        outstanding: None,
        before: [0; MOST_METERED],
        columns: [None; MOST_METERED],
    }
}
