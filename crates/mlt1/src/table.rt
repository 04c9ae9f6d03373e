// MLT-1 as a table of elements.
ghost use Rattle.std.specs.Prelude.{◌≡◌, ◌+◌, ◌*◌, map, length, codes};
ghost use Rattle.std.specs.Option.{option_map};
ghost use Rattle.std.specs.List.{slice_get};
ghost use Rattle.march.specs.Table.{elements_of, name_of};
ghost use Rattle.march.specs.Tests.{meant, schedule};
ghost use Rattle.mlt1.specs.Mlt1.{mlt1, LengthIs};

use cam::size::Size;
use march::element::{Comparison, Element, TestOperation};
use march::few::Few;
use march::name::Name;
use march::test::Test;

const W0: TestOperation = TestOperation::Write(false);

const W1: TestOperation = TestOperation::Write(true);

const R0: TestOperation = TestOperation::Read(false);

const R1: TestOperation = TestOperation::Read(true);

const C0_HIT: TestOperation = TestOperation::Compare(Comparison {
    bit: false,
    hit: true,
});

const C1_HIT: TestOperation = TestOperation::Compare(Comparison {
    bit: true,
    hit: true,
});

const C0_NONE: Comparison = Comparison {
    bit: false,
    hit: false,
};

const C1_NONE: Comparison = Comparison {
    bit: true,
    hit: false,
};
// fills the places of a list past its count
const E: TestOperation = TestOperation::Erase;

// The elements of MLT-1 in their order.
pub fn elements() -> [Element; 7]
    ensures test_mlt1 { map meant result ≡ mlt1 }
{
    [
        Element::Up(Few {
            items: [W1, E, E, E, E, E, E, E],
            count: 1,
        }),
        Element::Up(Few {
            items: [W0, C0_HIT, W1, E, E, E, E, E],
            count: 3,
        }),
        Element::Up(Few {
            items: [R1, W0, E, E, E, E, E, E],
            count: 2,
        }),
        Element::Columns(Few {
            items: [C1_NONE; 8],
            count: 1,
        }),
        Element::Down(Few {
            items: [W1, C1_HIT, W0, E, E, E, E, E],
            count: 3,
        }),
        Element::Down(Few {
            items: [R0, W1, E, E, E, E, E, E],
            count: 2,
        }),
        Element::Columns(Few {
            items: [C0_NONE; 8],
            count: 1,
        }),
    ]
}

// An element by its number, counted from 0.
pub fn element(at: u8) -> Option<Element>
    ensures element_at_place { option_map meant result ≡ slice_get mlt1 at }
{
    elements().get(at as usize).copied()
}

// MLT-1 as a test, which has the name `mlt1`.
pub fn mlt1_test() -> Test
    ensures elements_of_mlt1 { elements_of result ≡ mlt1 }
    ensures named_mlt1 { name_of result ≡ codes "mlt1" }
{
    let name = Name::new(b"mlt1").unwrap();
    Test::with_elements(name, &elements()).unwrap()
}

// How many operations a whole run does on an array of this size.
pub fn operation_count(size: Size) -> u32
    ensures eleven_a_word_two_a_column { result ≡ 11 * size.words + 2 * size.width }
    ensures steps_of_schedule { result ≡ length (schedule size.words size.width mlt1) }
    ensures length_at_every_size { LengthIs }
{
    11 * size.words as u32 + 2 * size.width as u32
}
