// Steps that are held in the hand: each is withdrawn in the end, whatever the calls before answer.
ghost use Rattle.std.specs.Prelude.{◌≡◌, true, MatchResult};
ghost use Rattle.campaign.specs.Columns.{same, is_outstanding};

use campaign::{Campaign, CampaignRefusal, CollectedStep, FreshStep, Step, open_campaign};
use probing::Source;

// Withdraws the outstanding step. The campaign's own is private: it may be called only where no withdrawal is refused.
fn put_back<S: Source, P>(campaign: &mut Campaign, source: &mut S, step: Step<P>)
    requires own { same (S.Source.facts source.old).plant campaign.old ≡ true }
    requires outstanding { is_outstanding campaign.old step.command ≡ true }
{
    campaign.withdraw(source, step).unwrap();
}

// Withdraws the outstanding step, which a collection handed back: how it was refused, if it was.
fn put_back_from<S: Source>(
    campaign: &mut Campaign,
    source: &mut S,
    answer: Result<CollectedStep, (FreshStep, CampaignRefusal)>,
) -> Option<CampaignRefusal>
    requires own { same (S.Source.facts source.old).plant campaign.old ≡ true }
    requires outstanding { MatchResult answer
        (λ step. is_outstanding campaign.old step.command ≡ true)
        (λ e. is_outstanding campaign.old e.0.command ≡ true) }
{
    match answer {
        Ok(collected) => {
            put_back(campaign, source, collected);
            None
        }
        Err((fresh, refusal)) => {
            put_back(campaign, source, fresh);
            Some(refusal)
        }
    }
}

// Commences a step, and withdraws it: whether it was handed out.
pub(crate) fn commence_and_withdraw<S: Source>(
    campaign: &mut Campaign,
    source: &mut S,
    inverter: usize,
    step: i32,
) -> Result<(), CampaignRefusal> {
    let fresh = campaign.commence(source, inverter, step)?;
    put_back(campaign, source, fresh);
    Ok(())
}

// Asks for a second step while the first is outstanding: how that is refused.
pub(crate) fn second<S: Source>(
    campaign: &mut Campaign,
    source: &mut S,
    inverter: usize,
    other: usize,
    step: i32,
) -> Result<CampaignRefusal, CampaignRefusal> {
    let fresh = campaign.commence(source, inverter, step)?;
    let refusal = campaign.commence(source, other, step).unwrap_err();
    put_back(campaign, source, fresh);
    Ok(refusal)
}

// Brings a step to another campaign on the same source, and then back: how the other refuses it.
pub(crate) fn foreign<S: Source>(
    campaign: &mut Campaign,
    source: &mut S,
    inverter: usize,
    step: i32,
) -> Result<Option<CampaignRefusal>, CampaignRefusal> {
    let fresh = campaign.commence(source, inverter, step)?;
    let answer = open_campaign(source).collect(source, fresh);
    Ok(put_back_from(campaign, source, answer))
}

// Collects a step on another source than the one that it was commenced on: how that is refused.
pub(crate) fn swapped<S: Source>(
    campaign: &mut Campaign,
    source: &mut S,
    other: &mut S,
    inverter: usize,
    step: i32,
) -> Result<Option<CampaignRefusal>, CampaignRefusal> {
    let fresh = campaign.commence(source, inverter, step)?;
    let answer = campaign.collect(other, fresh);
    Ok(put_back_from(campaign, source, answer))
}

// The crew that takes a step over collects it and withdraws it: whether it was collected.
fn take_over<S: Source>(campaign: &mut Campaign, source: &mut S, fresh: FreshStep) -> bool
    requires own { same (S.Source.facts source.old).plant campaign.old ≡ true }
    requires outstanding { is_outstanding campaign.old fresh.command ≡ true }
{
    let answer = campaign.collect(source, fresh);
    put_back_from(campaign, source, answer).is_none()
}

// Commences a step, and hands it over: whether it was collected.
pub(crate) fn hand_over<S: Source>(
    campaign: &mut Campaign,
    source: &mut S,
    inverter: usize,
    step: i32,
) -> Result<bool, CampaignRefusal> {
    let fresh = campaign.commence(source, inverter, step)?;
    Ok(take_over(campaign, source, fresh))
}
