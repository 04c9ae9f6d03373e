// Shares in tenths of a percent.
ghost use Rattle.std.specs.Prelude.{◌≡◌, ◌<◌, ◌≤◌};
ghost use Rattle.campaigns.specs.Tenths.{tenths as tenths_of, TenthsLaws};

// The share of `part` in `whole`, in tenths of a percent, rounded down.
#[tactic(auto, using(crate::proofs::Tenths::tenths_most, crate::proofs::Tenths::tenths_laws))]
pub(crate) fn tenths_of_percent(part: u32, whole: u32) -> u32
    requires some { 0 < whole }
    requires within { part ≤ whole }
    ensures rounded_down { result ≡ tenths_of part whole }
    ensures laws_of_tenths { TenthsLaws }
{
    (part as u64 * 1000 / whole as u64) as u32
}
