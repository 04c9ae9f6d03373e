// Layer 3: the faults that the meaning of a text finds.
ghost use Rattle.std.specs.Prelude.{◌≡◌};
ghost use Rattle.words.specs.Forms.{meaning_fault};

use cam::fault::{Fault, Layer, Reason};

pub fn meaning_fault(reason: Reason, place: usize) -> Fault
    ensures found_there { result ≡ meaning_fault reason place }
{
    Fault {
        reason,
        layer: Layer::Meaning,
        place,
    }
}
