ghost use Rattle.std.specs.Prelude.{◌≡◌, true, Ok, IfOk};
ghost use Rattle.campaign.specs.Columns.{same, is_outstanding};
ghost use Rattle.campaign.specs.Relations.{Withdraws};
ghost use Rattle.campaign.specs.Probes.{Probes, InRisingOrder, AllProbed};

use crate::fault::CampaignRefusal;
use crate::opening::open_campaign;
use crate::state::Campaign;
use crate::steps::Step;
use probing::Source;

impl Campaign {
    // Withdraws the outstanding step.
    fn put_back<S: Source, P>(&mut self, source: &mut S, step: Step<P>)
        requires own { same (S.Source.facts source.old).plant self.old ≡ true }
        requires outstanding { is_outstanding self.old step.command ≡ true }
        ensures { let f = S.Source.facts source.old in
            Withdraws f self.old step.command (Ok tt) (S.Source.facts source.new) self.new }
    {
        self.withdraw(source, step).unwrap();
    }

    /// Probes one inverter: commences a step in thousandths of per unit, collects it and withdraws it. Refused as the commencing
    /// is, and then source and campaign are as they were.
    pub fn probe<S: Source>(
        &mut self,
        source: &mut S,
        inverter: usize,
        step: i32,
    ) -> Result<(), CampaignRefusal>
        ensures { let f = S.Source.facts source.old in
            Probes f self.old inverter step result (S.Source.facts source.new) self.new }
    {
        let fresh = self.commence(source, inverter, step)?;
        match self.collect(source, fresh) {
            Ok(collected) => {
                self.put_back(source, collected);
                Ok(())
            }
            Err((fresh, refusal)) => {
                self.put_back(source, fresh);
                Err(refusal)
            }
        }
    }
}

/// Opens a campaign and probes every inverter in rising order with one step in thousandths of per unit, withdrawing each. The
/// first refusal ends it. Either way nothing is outstanding at the end, and the source's facts are those of the beginning. The
/// campaign is one that such a probing leads to; which commands were given on the way, a contract over facts before and after
/// cannot see.
pub fn probe_all<S: Source>(source: &mut S, step: i32) -> Result<Campaign, CampaignRefusal>
    ensures facts { S.Source.facts source.new ≡ S.Source.facts source.old }
    ensures answers { AllProbed (S.Source.facts source.old) step result }
    ensures rising { IfOk result (λ c. InRisingOrder (S.Source.facts source.old) step c) }
{
    let mut campaign = open_campaign(source);
    for bus in 1..=source.buses() {
        if source.has_inverter(bus) {
            campaign.probe(source, bus, step)?;
        }
    }
    Ok(campaign)
}
