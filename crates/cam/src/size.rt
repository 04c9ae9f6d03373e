// How large an array is.
ghost use Rattle.std.specs.Prelude.{◌≡◌, ◌*◌, ◌&&◌, [], ◌∷◌, nat_le};
ghost use Rattle.cam.specs.Refusals.{Asks, ask, reason_number};

use crate::array::CamArray;
use crate::fault::{Fault, Reason};

// Words, and bits of a word. Any two numbers: what makes an array asks whether they are within its limits.
#[derive(Clone, Copy, PartialEq, Eq)]
pub struct Size {
    pub words: u16,
    pub width: u8,
}

// The size of the largest array.
pub const LARGEST: Size = Size {
    words: 256,
    width: 64,
};

impl Size {
    // Whether there is a word and a bit, and no more of either than `most` has.
    pub fn is_within(self, most: Size) -> bool
        ensures some_and_no_more { result ≡ ((nat_le 1 self.words && nat_le self.words most.words) && (nat_le 1 self.width && nat_le self.width most.width)) }
    {
        (1..=most.words).contains(&self.words) && (1..=most.width).contains(&self.width)
    }

    // Asks for a size within `most`, refused else for this reason, and then for as many records or cells as an array
    // of it needs (57).
    pub fn ask_fit(self, most: Size, reason: Reason, needed: u32, there: usize) -> Result<(), Fault>
        ensures asks_size_then_room { Asks (ask ((nat_le 1 self.words && nat_le self.words most.words) && (nat_le 1 self.width && nat_le self.width most.width)) (reason_number reason) ∷ ask (nat_le needed there) 57 ∷ []) result }
    {
        if !self.is_within(most) {
            return Err(Fault::of_call(reason));
        }
        if there < needed as usize {
            return Err(Fault::of_call(Reason::BufferTooShort));
        }
        Ok(())
    }

    // How many cells there are.
    pub fn cells(self) -> u32
        ensures words_times_bits { result ≡ self.words * self.width }
    {
        self.words as u32 * self.width as u32
    }
}

// The size of an array.
pub fn size_of<C: CamArray>(array: &C) -> Size
    ensures words_of_the_array { result.words ≡ (C.build array.now).words }
    ensures bits_of_the_array { result.width ≡ (C.build array.now).width }
{
    Size {
        words: array.words(),
        width: array.width(),
    }
}
