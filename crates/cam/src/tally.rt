// The tally of an array's operations.
ghost use Rattle.std.specs.Prelude.{◌≡◌, ◌≤◌};
ghost use Rattle.cam.specs.Model.{one_more, tally_cap};

// The tally stops here.
pub const TALLY_CAP: u64 = 2_000_000_000_000;

// The tally after one more operation. One past the cap, which no array has, counts as at the cap.
pub fn one_more(tally: u64) -> u64
    ensures next { result ≡ one_more tally }
    ensures within_the_cap { result ≤ tally_cap }
{
    // the cap first: with `saturating_add(1).min(TALLY_CAP)` a judgement takes a fifth longer
    tally.min(TALLY_CAP - 1) + 1
}
