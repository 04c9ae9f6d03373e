// The four operations as values, and lists of them.
ghost use Rattle.std.specs.Prelude.{◌≡◌, ◌+◌, min, length};
ghost use Rattle.cam.specs.Model.{Steady, tally_cap};
ghost use Rattle.cam.specs.Operations.{operated, answered, answer_number, answer_sort, after_all, SteadinessStays};

use crate::array::CamArray;
use crate::index::WordIndex;

#[derive(Clone, Copy)]
pub enum Operation {
    Write {
        word: WordIndex,
        pattern: u64,
        mask: u64,
    },
    Read {
        word: WordIndex,
    },
    Compare {
        pattern: u64,
        mask: u64,
    },
    Erase {
        word: WordIndex,
    },
}

// What an operation answers: a write and an erase nothing, a read the held bits, a compare the hit. Not an `Option`, since
// answers have numbers, one a case.
#[derive(Clone, Copy)]
pub enum Answer {
    Nothing,
    Bits(u64),
    Hit(bool),
}

// Does one operation.
pub fn operate<C: CamArray>(array: &mut C, operation: Operation) -> Answer
    ensures answer { result ≡ answered (C.build array.old) operation (C.state array.old) }
    ensures sort_of_answer { answer_number result ≡ answer_sort operation }
    ensures state_after { C.state array.new ≡ operated (C.build array.old) operation (C.state array.old) }
    ensures build_stays { C.build array.new ≡ C.build array.old }
{
    match operation {
        Operation::Write {
            word,
            pattern,
            mask,
        } => {
            array.write(word, pattern, mask);
            Answer::Nothing
        }
        Operation::Read { word } => Answer::Bits(array.read(word)),
        Operation::Compare { pattern, mask } => Answer::Hit(array.compare(pattern, mask)),
        Operation::Erase { word } => {
            array.erase(word);
            Answer::Nothing
        }
    }
}

// Does each operation of a list in turn. Whatever the list, the words, the bits and every defect stay, sa0 cells,
// sa1 cells and stuck marks keep their value, and the tally rises by one for each operation up to its cap.
pub fn operate_all<C: CamArray>(array: &mut C, operations: &[Operation])
    ensures state_after { C.state array.new ≡ after_all (C.build array.old) operations.now (C.state array.old) }
    ensures build_stays { C.build array.new ≡ C.build array.old }
    ensures steady_stays { Steady (C.build array.old) (C.state array.new) }
    ensures tally_rises { (C.state array.new).tally ≡ min ((C.state array.old).tally + length operations.now) tally_cap }
    ensures steadiness_of_the_model { SteadinessStays }
{
    for operation in operations {
        operate(array, *operation);
    }
}
