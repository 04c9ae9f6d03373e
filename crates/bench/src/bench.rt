// A bench over one array.
ghost use Rattle.std.specs.Prelude.{◌≡◌};
ghost use Rattle.bench.specs.Books.{new_books};

use crate::books::Books;
use cam::array::CamArray;

// What a bench lets the tally and the starts come to.
pub(crate) const LIMIT: u64 = 1_000_000_000_000;

#[derive(Drop)]
pub struct Bench<C> {
    pub(crate) array: C,
    pub(crate) books: Books,
}

impl<C: CamArray> Bench<C> {
    // A bench that has done nothing yet.
    pub fn new(array: C) -> Bench<C>
        ensures array_as_it_is { result.array ≡ array }
        ensures nothing_done_or_found { result.books ≡ new_books }
    {
        Bench {
            array,
            books: Books::default(),
        }
    }

    // Everything that the bench counts, with the finding.
    pub fn books(&self) -> Books
        ensures books_as_they_are { result ≡ self.now.books }
    {
        self.books
    }

    // Ends the bench and hands the array back.
    pub fn into_array(self) -> C
        ensures array_as_it_is { result ≡ self.array }
    {
        let Bench { array, books: _ } = self;
        array
    }
}
