// The faults of a campaign.
ghost use Rattle.std.specs.Prelude.{◌≡◌};
ghost use Rattle.campaigns.specs.Faults.{campaign_faults, places_in};

use cam::defect::{NamedFault, StorageDefect};

// A fault that a campaign plants: a named fault of the comparison, whose pairs are planted together in one cell, a
// storage defect of a cell, or a stuck mark of a word.
#[derive(Clone, Copy, PartialEq, Eq)]
pub enum CampaignFault {
    Comparison(NamedFault),
    Storage(StorageDefect),
    StuckMark,
}

impl CampaignFault {
    // At how many places of a word of `width` bits the fault can be: in each cell, and at the one mark.
    pub fn places_in_word(self, width: u8) -> u8
        ensures cells_or_mark { result ≡ places_in self width }
    {
        match self {
            CampaignFault::Comparison(_) | CampaignFault::Storage(_) => width,
            CampaignFault::StuckMark => 1,
        }
    }
}

// The faults in the order of a campaign's rows.
pub fn faults_of_rows() -> [CampaignFault; 15]
    ensures in_order { result ≡ campaign_faults }
{
    [
        CampaignFault::Comparison(NamedFault::Smf),
        CampaignFault::Comparison(NamedFault::Smmf),
        CampaignFault::Comparison(NamedFault::Cm1f),
        CampaignFault::Comparison(NamedFault::Cm0f),
        CampaignFault::Comparison(NamedFault::Pm1f),
        CampaignFault::Comparison(NamedFault::Pm0f),
        CampaignFault::Comparison(NamedFault::Emm1f),
        CampaignFault::Comparison(NamedFault::Emm0f),
        CampaignFault::Comparison(NamedFault::Im1f),
        CampaignFault::Comparison(NamedFault::Im0f),
        CampaignFault::Storage(StorageDefect::Sa0),
        CampaignFault::Storage(StorageDefect::Sa1),
        CampaignFault::Storage(StorageDefect::NoRise),
        CampaignFault::Storage(StorageDefect::NoFall),
        CampaignFault::StuckMark,
    ]
}
