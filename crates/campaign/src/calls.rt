ghost use Rattle.std.specs.Prelude.{◌≡◌, ◌≤◌, pos, ◌-ℤ◌};
ghost use Rattle.refusals.specs.Checks.{left};
ghost use Rattle.units.specs.Quotients.{response_of};
ghost use Rattle.probing.specs.Facts.{with_setting};
ghost use Rattle.campaign.specs.Columns.{same, is_outstanding};
ghost use Rattle.campaign.specs.Relations.{commence_of, commenced, Commences, difference, divided_of, collect_of, Collects, handing_back, told, withdrawal_of, ended, Withdraws};

use crate::fault::{CampaignFault, CampaignRefusal};
use crate::opening::inverters_of;
use crate::state::{Campaign, Column};
use crate::steps::{CollectedStep, Command, FreshStep, Step};
use feeder::MOST_METERED;
use probing::{Source, read_all};
use units::response;

impl Campaign {
    // Whether a source has the buses and the inverters that the campaign was opened on.
    fn matches<S: Source>(&self, source: &S) -> bool
        ensures { result ≡ same (S.Source.facts source.now).plant self.now }
    {
        source.buses() == self.buses && inverters_of(source) == self.inverters
    }

    // Whether a step is the one that is outstanding.
    fn is_outstanding(&self, step: Command) -> bool
        ensures { result ≡ is_outstanding self.now step }
    {
        self.outstanding == Some(step) && self.has_inverter(step.inverter)
    }

    // Checks that a source is the campaign's and a step the outstanding one.
    fn knows<S: Source>(&self, source: &S, step: Command) -> Result<(), CampaignFault>
        ensures { result ≡ withdrawal_of (S.Source.facts source.now).plant self.now step }
    {
        if !self.matches(source) || !self.is_outstanding(step) {
            return Err(CampaignFault::NotThisCampaign {
                inverter: step.inverter,
            });
        }
        Ok(())
    }

    // Commences, and leaves the naming of the inverter to the public call.
    fn begin<S: Source>(
        &mut self,
        source: &mut S,
        inverter: usize,
        size: i32,
    ) -> Result<FreshStep, CampaignFault>
        ensures answers { result ≡ commence_of (S.Source.facts source.old) self.old inverter size }
        ensures source { let f = S.Source.facts source.old in
            S.Source.facts source.new ≡ left result (with_setting f inverter size) f }
        ensures campaign { let f = S.Source.facts source.old in
            self.new ≡ left result (commenced f self.old inverter size) self.old }
    {
        if !self.matches(source) {
            return Err(CampaignFault::NotThisCampaign { inverter });
        }
        if let Some(other) = self.outstanding {
            return Err(CampaignFault::StepOutstanding {
                inverter: other.inverter,
            });
        }
        let before = read_all(source)?;
        source.command(inverter, size)?;
        let command = Command { inverter, size };
        self.before = before;
        self.outstanding = Some(command);
        Ok(FreshStep::new(command))
    }

    /// Reads every meter, commands the step, in thousandths of per unit, and hands it out. Refused, in this order, with 14 on a
    /// source of other buses or inverters than at the opening, with 11 while a step is outstanding, and with the source's 12 at
    /// the lowest mute meter, 9, 10 or 13. Refused, source and campaign are as they were.
    pub fn commence<S: Source>(
        &mut self,
        source: &mut S,
        inverter: usize,
        size: i32,
    ) -> Result<FreshStep, CampaignRefusal>
        ensures { let f = S.Source.facts source.old in
            Commences f self.old inverter size result (S.Source.facts source.new) self.new }
    {
        self.begin(source, inverter, size)
            .map_err(|fault| CampaignRefusal { fault, inverter })
    }

    // The quotients of the outstanding step.
    fn divide<S: Source>(
        &self,
        source: &S,
        step: Command,
    ) -> Result<[i64; MOST_METERED], CampaignFault>
        ensures { result ≡ collect_of (S.Source.facts source.now) self.now step }
    {
        self.knows(source, step)?;
        let after = read_all(source)?;
        quotients(&self.before, &after, self.buses, step.size)
    }

    /// Reads every meter again, and takes each change since the commencing, divided by the signed step, into the inverter's column.
    /// Refused, in this order, with 14 on another source than the opening's or for another step than the outstanding one, with the
    /// source's 12 at the lowest mute meter, and with 15 at the lowest bus whose change is no whole multiple of the step or more
    /// than 1,000,000 times as large. Refused, the step comes back as it was, and so are source and campaign.
    pub fn collect<S: Source>(
        &mut self,
        source: &S,
        fresh: FreshStep,
    ) -> Result<CollectedStep, (FreshStep, CampaignRefusal)>
        ensures { let f = S.Source.facts source.now in
            Collects f self.old fresh result f self.new }
    {
        let command = fresh.command();
        let inverter = command.inverter;
        match self.divide(source, command) {
            Ok(responses) => {
                self.columns[inverter - 1] = Some(Column { responses });
                Ok(fresh.collected())
            }
            Err(fault) => Err((fresh, CampaignRefusal { fault, inverter })),
        }
    }

    // Withdraws the outstanding step's inverter.
    fn end<S: Source>(&mut self, source: &mut S, step: Command) -> Result<(), CampaignFault>
        ensures answers { result ≡ withdrawal_of (S.Source.facts source.old).plant self.old step }
        ensures source { let f = S.Source.facts source.old in
            S.Source.facts source.new ≡ left result (with_setting f step.inverter (pos 0)) f }
        ensures campaign { self.new ≡ left result (ended self.old) self.old }
    {
        self.knows(source, step)?;
        source.withdraw(step.inverter)?;
        self.outstanding = None;
        Ok(())
    }

    /// Ends a step, collected or not, and sets its inverter back on its schedule. Refused with 14 on another source than the
    /// opening's or for another step than the outstanding one: then the step comes back as it was, and so are source and campaign.
    pub fn withdraw<S: Source, P>(
        &mut self,
        source: &mut S,
        step: Step<P>,
    ) -> Result<(), (Step<P>, CampaignRefusal)>
        ensures withdraws { let f = S.Source.facts source.old in
            Withdraws f self.old step.command (told result) (S.Source.facts source.new) self.new }
        ensures hands_back { result ≡ handing_back step (told result) }
    {
        let command = step.command();
        match self.end(source, command) {
            Ok(()) => {
                step.finish();
                Ok(())
            }
            Err(fault) => Err((
                step,
                CampaignRefusal {
                    fault,
                    inverter: command.inverter,
                },
            )),
        }
    }
}

// The response that the readings before and after a step give.
fn quotient(before: i64, after: i64, size: i32) -> Option<i64>
    ensures { result ≡ response_of (after -ℤ before) size }
{
    response(after.checked_sub(before)?, i64::from(size))
}

// The response of each bus, or the lowest bus whose change is no whole multiple of the step, or too large a one.
fn quotients(
    before: &[i64; MOST_METERED],
    after: &[i64; MOST_METERED],
    buses: usize,
    size: i32,
) -> Result<[i64; MOST_METERED], CampaignFault>
    requires { buses ≤ 64 }
    ensures { result ≡ divided_of buses (difference before.now after.now) size }
{
    // The fault is the lowest bus's.
    let mut responses = [0; MOST_METERED];
    for (index, response) in responses[..buses].iter_mut().enumerate() {
        *response = quotient(before[index], after[index], size).ok_or(CampaignFault::NotMultiple {
            bus: index + 1,
        })?;
    }
    Ok(responses)
}
