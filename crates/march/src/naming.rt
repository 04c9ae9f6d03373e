// Making a name, which asks for 1 to 16 small letters and digits (63), and reading it.
ghost use Rattle.std.specs.Prelude.{◌≡◌, [], ◌∷◌, IfOk};
ghost use Rattle.cam.specs.Refusals.{Asks, ask};
ghost use Rattle.march.specs.Letters.{is_letter_or_digit, is_name};
ghost use Rattle.march.specs.Names.{letters_of};

use crate::few::Few;
use crate::name::Name;
use cam::fault::{Fault, Reason};

// Whether a byte may stand in a name.
pub fn is_letter_or_digit(byte: u8) -> bool
    ensures letter_or_digit { result ≡ is_letter_or_digit byte }
{
    byte.is_ascii_lowercase() || byte.is_ascii_digit()
}

fn is_name(text: &[u8]) -> bool
    ensures allowed_name { result ≡ is_name text.now }
{
    !text.is_empty() && text.len() <= 16 && text.iter().all(|byte| is_letter_or_digit(*byte))
}

impl Name {
    // This very text as a name.
    pub fn new(text: &[u8]) -> Result<Name, Fault>
        ensures asks_letters_and_digits { Asks (ask (is_name text.now) 63 ∷ []) result }
        ensures that_name { IfOk result (λ name. letters_of name ≡ text.now) }
    {
        if !is_name(text) {
            return Err(Fault::of_call(Reason::NameNotAllowed));
        }
        Ok(Name {
            letters: Few::of(text),
        })
    }

    // Its letters and digits.
    pub fn as_bytes(&self) -> &[u8]
        ensures letters { result.now ≡ letters_of self.now }
    {
        self.letters.as_slice()
    }
}
