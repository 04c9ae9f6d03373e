// The finding of a bench, and findings as the two numbers that answers to other programs give.
ghost use Rattle.std.specs.Prelude.{◌≡◌};
ghost use Rattle.bench.specs.Books.{finding_number, finding_count};

use crate::bench::Bench;
use crate::books::Finding;
use cam::array::CamArray;

impl<C: CamArray> Bench<C> {
    // What is known of the array so far.
    pub fn finding(&self) -> Finding
        ensures finding_in_the_books { result ≡ self.now.books.finding }
    {
        self.books.finding
    }
}

impl Finding {
    // Which finding it is: 0 open, 1 sound, 2 faulty, 3 charted.
    pub fn number(self) -> u8
        ensures number_of_the_case { result ≡ finding_number self }
    {
        match self {
            Finding::Open => 0,
            Finding::Sound => 1,
            Finding::Faulty(_) => 2,
            Finding::Charted(_) => 3,
        }
    }

    // The misses of a faulty array, the blemished cells of a charted one, else 0.
    pub fn count(self) -> u32
        ensures misses_or_cells { result ≡ finding_count self }
    {
        match self {
            Finding::Open | Finding::Sound => 0,
            Finding::Faulty(misses) => misses,
            Finding::Charted(cells) => cells,
        }
    }
}
