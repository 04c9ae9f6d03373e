// Remarks: `(note`, then words and inner remarks, then `)`.
ghost use Rattle.words.specs.Going.{GoesOn};
ghost use Rattle.words.specs.Readings.{Reading, reached};
ghost use Rattle.words.specs.Remarks.{Remark, Outermost};

use crate::cursor::Cursor;
use crate::form::not_wanted;
use crate::token::Kind;
use cam::fault::{Fault, Layer, Reason};

// How many more remarks may open inside an outermost one, each in the one before.
const INNER_DEPTH: u8 = 7;

impl Cursor<'_> {
    // Reads an outermost remark from after its word `note`, up to the place after its bracket.
    pub fn outermost_remark(&mut self) -> Result<(), Fault>
        ensures reading { Reading (Outermost self.old.text.now self.old.at) (reached self.new.at result) }
        ensures goes_on { GoesOn self.old self.new }
    {
        self.remark(INNER_DEPTH)
    }

    // Reads a remark from after its word `note`. So many more may open inside it, each in the one before.
    fn remark(&mut self, inner: u8) -> Result<(), Fault>
        ensures reading { Reading (Remark self.old.text.now inner self.old.at) (reached self.new.at result) }
        ensures goes_on { GoesOn self.old self.new }
    {
        loop {
            let token = self.next_token()?;
            match token.kind {
                Kind::Close => return Ok(()),
                Kind::Word => {}
                Kind::Open => {
                    if inner == 0 {
                        return Err(Fault {
                            reason: Reason::RemarkTooDeep,
                            layer: Layer::Forms,
                            place: token.from,
                        });
                    }
                    self.want_word(b"note")?;
                    self.remark(inner - 1)?;
                }
                _ => return Err(not_wanted(token.from)),
            }
        }
    }
}
