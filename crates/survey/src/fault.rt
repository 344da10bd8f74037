ghost use Rattle.std.specs.Prelude.{◌≡◌};
ghost use Rattle.survey.specs.Faults.{refusal_of};
ghost use Rattle.survey.specs.declared.fault.ProgramFault.TheVariants.{File, Source, Campaign, Drawing};

use campaign::{CampaignRefusal, DrawingFault};
use files::FileFault;
use probing::SourceFault;
use refusals::Refusal;

/// Why a survey ends without a map.
#[derive(Clone, Copy, PartialEq, Eq, Debug)]
pub enum ProgramFault {
    /// The file is refused.
    File { fault: FileFault },
    /// A source cannot be made.
    Source { fault: SourceFault },
    /// The probing is refused, with the inverter that was named.
    Campaign { refusal: CampaignRefusal },
    /// The drawing is refused.
    Drawing { fault: DrawingFault },
}

impl From<FileFault> for ProgramFault {
    ghost from_gives = { λ fault r. r ≡ File fault };

    fn from(fault: FileFault) -> ProgramFault {
        ProgramFault::File { fault }
    }
}

impl From<SourceFault> for ProgramFault {
    ghost from_gives = { λ fault r. r ≡ Source fault };

    fn from(fault: SourceFault) -> ProgramFault {
        ProgramFault::Source { fault }
    }
}

impl From<CampaignRefusal> for ProgramFault {
    ghost from_gives = { λ refusal r. r ≡ Campaign refusal };

    fn from(refusal: CampaignRefusal) -> ProgramFault {
        ProgramFault::Campaign { refusal }
    }
}

impl From<DrawingFault> for ProgramFault {
    ghost from_gives = { λ fault r. r ≡ Drawing fault };

    fn from(fault: DrawingFault) -> ProgramFault {
        ProgramFault::Drawing { fault }
    }
}

// The number, layer and place, as the refusal is printed: a campaign's without its inverter.
impl From<ProgramFault> for Refusal {
    ghost from_gives = { λ fault r. r ≡ refusal_of fault };

    fn from(fault: ProgramFault) -> Refusal {
        match fault {
            ProgramFault::File { fault } => Refusal::from(fault),
            ProgramFault::Source { fault } => Refusal::from(fault),
            ProgramFault::Campaign { refusal } => Refusal::from(refusal.fault),
            ProgramFault::Drawing { fault } => Refusal::from(fault),
        }
    }
}
