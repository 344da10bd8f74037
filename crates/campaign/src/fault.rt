ghost use Rattle.std.specs.Prelude.{◌≡◌};
ghost use Rattle.campaign.specs.Refusals.{refusal_of};
ghost use Rattle.campaign.specs.declared.fault.CampaignFault.TheVariants.{Source};

use probing::SourceFault;
use refusals::{Layer, Refusal};

/// Why a campaign turns a call down.
#[derive(Clone, Copy, PartialEq, Eq, Debug)]
pub enum CampaignFault {
    /// The source turned it down.
    Source { fault: SourceFault },
    /// A step is outstanding, of this inverter.
    StepOutstanding { inverter: usize },
    /// The source has other buses or inverters than at the opening, or the step is not the outstanding one.
    NotThisCampaign { inverter: usize },
    /// The change at the bus is no whole multiple of the step, or too large a one.
    NotMultiple { bus: usize },
}

impl From<SourceFault> for CampaignFault {
    ghost from_gives = { λ f c. c ≡ Source f };

    fn from(fault: SourceFault) -> CampaignFault {
        CampaignFault::Source { fault }
    }
}

// The fault's number, layer and place: a source's keeps its own.
impl From<CampaignFault> for Refusal {
    ghost from_gives = { λ fault r. r ≡ refusal_of fault };

    fn from(fault: CampaignFault) -> Refusal {
        let (number, place) = match fault {
            CampaignFault::Source { fault } => return Refusal::from(fault),
            CampaignFault::StepOutstanding { inverter } => (11, inverter),
            CampaignFault::NotThisCampaign { inverter } => (14, inverter),
            CampaignFault::NotMultiple { bus } => (15, bus),
        };
        Refusal {
            number,
            layer: Layer::Campaign,
            place,
        }
    }
}

/// A call on a campaign that was turned down: why, and the inverter that it named.
#[derive(Clone, Copy, PartialEq, Eq, Debug)]
pub struct CampaignRefusal {
    /// Why.
    pub fault: CampaignFault,
    /// The inverter that the call named.
    pub inverter: usize,
}
