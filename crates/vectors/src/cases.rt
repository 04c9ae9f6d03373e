// The cases of the input, one after the other.
use crate::output::Output;
use crate::scanner::Scanner;
use anyhow::{Context, ensure};
use array_text::array::{RECORDS, read_array};
use cam::size::Size;
use march::test::Test;
use planes::array::PlaneArray;
use planes::word::WordRecord;
use sheets::sheet::read_sheet;
use std::alloc::Global;

// What is left of the input, the words that are left of the header of the case in hand, and where the answers go.
#[derive(Drop)]
pub struct Cases<'a> {
    pub heap: Global,
    pub header: Scanner<'a>,
    input: Scanner<'a>,
    pub out: Output,
}

impl<'a> Cases<'a> {
    pub(crate) fn new(heap: Global, text: &'a [u8], out: Output) -> Cases<'a> {
        Cases {
            heap,
            header: Scanner::new(b""),
            input: Scanner::new(text),
            out,
        }
    }

    // Goes on to the next case, if there is one, and gives its kind.
    pub(crate) fn next_kind(&mut self) -> Option<&'a [u8]> {
        if self.input.is_at_end() {
            return None;
        }
        self.header = Scanner::new(self.input.line());
        Some(self.header.word())
    }

    // Passes the empty line that ends each case.
    pub(crate) fn end(&mut self) -> anyhow::Result<()> {
        ensure!(
            self.input.line().is_empty(),
            "a case does not end with its payloads"
        );
        Ok(())
    }

    // The next payload. The header says how many bytes it has.
    pub(crate) fn payload(&mut self) -> anyhow::Result<&'a [u8]> {
        let bytes = self.header.number()?;
        self.input.take(bytes)
    }

    // The test of a sheet that is never refused; `refusal` says so of one that is.
    pub(crate) fn test(&mut self, refusal: &'static str) -> anyhow::Result<Test> {
        read_sheet(self.payload()?).ok().context(refusal)
    }

    // The array of a text that is never refused.
    pub(crate) fn array(&mut self) -> anyhow::Result<PlaneArray> {
        let records = vec![in self.heap; WordRecord::blank(); RECORDS]?;
        read_array(self.payload()?, records)
            .ok()
            .context("the array text of a case is refused")
    }

    // A size of the header.
    pub(crate) fn size(&mut self) -> anyhow::Result<Size> {
        Ok(Size {
            words: self.header.number()?,
            width: self.header.number()?,
        })
    }

    // A buffer of equal bytes, of which the header says how many.
    pub(crate) fn buffer(&mut self, fill: u8) -> anyhow::Result<Vec<u8>> {
        let bytes = self.header.number()?;
        Ok(vec![in self.heap; fill; bytes]?)
    }
}
