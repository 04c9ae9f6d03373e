// The caller's records, and how large the arrays are that a campaign makes of them.
ghost use Rattle.std.specs.Prelude.{◌≡◌, ◌≤◌, vec_len, IfOk, MatchResult};
ghost use Rattle.cam.specs.Refusals.{AsksIn};
ghost use Rattle.campaigns.specs.Campaigns.{campaign_questions};

use cam::fault::{Reason, Returned, granted};
use cam::size::Size;
use planes::word::WordRecord;

// The largest array of a campaign.
const LARGEST: Size = Size {
    words: 16,
    width: 16,
};

// Records for arrays of 1 to 16 words of 1 to 16 bits, one for each word at least. The limits stand in it as in a plane
// array: a type for them would be opened at each use.
#[derive(Drop)]
pub(crate) struct CampaignRecords {
    pub(crate) records: Vec<WordRecord>,
    pub(crate) size: Size,
    ghost some_words: { 1 ≤ size.words },
    ghost few_words: { size.words ≤ 16 },
    ghost some_bits: { 1 ≤ size.width },
    ghost few_bits: { size.width ≤ 16 },
    ghost record_a_word: { size.words ≤ vec_len records },
}

impl CampaignRecords {
    // Asks for 1 to 16 words of 1 to 16 bits (81), then for a record for each word (57).
    pub(crate) fn new(
        records: Vec<WordRecord>,
        size: Size,
    ) -> Result<CampaignRecords, Returned<Vec<WordRecord>>>
        ensures asks_size_then_records { AsksIn (λ e. e.fault) (campaign_questions size.words size.width (vec_len records)) result }
        ensures these_records { MatchResult result (λ own. own.records ≡ records) (λ e. e.back ≡ records) }
        ensures this_size { IfOk result (λ own. own.size ≡ size) }
    {
        let asked = size.ask_fit(
            LARGEST,
            Reason::CampaignTooLarge,
            size.words.into(),
            records.len(),
        );
        let records = granted(records, asked)?;
        Ok(CampaignRecords { records, size })
    }
}
