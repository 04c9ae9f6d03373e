// Bytes that are read from front to back.
use anyhow::Context;
use std::error::Error;
use std::str::from_utf8;

#[derive(Clone, Copy)]
pub struct Scanner<'a> {
    rest: &'a [u8],
}

impl<'a> Scanner<'a> {
    pub(crate) fn new(text: &'a [u8]) -> Scanner<'a> {
        Scanner { rest: text }
    }

    pub(crate) fn is_at_end(&self) -> bool {
        self.rest.is_empty()
    }

    // What is left.
    pub(crate) fn rest(&self) -> &'a [u8] {
        self.rest
    }

    // The next bytes, as many as are asked for.
    pub(crate) fn take(&mut self, count: usize) -> anyhow::Result<&'a [u8]> {
        let parts = self.rest.split_at_checked(count);
        let (front, back) = parts.context("the input ends inside a case")?;
        self.rest = back;
        Ok(front)
    }

    // The bytes before the next that is `end`, which is passed too; all that is left where none is.
    pub(crate) fn before(&mut self, end: u8) -> &'a [u8] {
        let mut parts = self.rest.splitn(2, |byte| *byte == end);
        let front = parts.next().unwrap_or(&[]);
        self.rest = parts.next().unwrap_or(&[]);
        front
    }

    pub(crate) fn line(&mut self) -> &'a [u8] {
        self.before(b'\n')
    }

    pub(crate) fn word(&mut self) -> &'a [u8] {
        self.before(b' ')
    }

    // The next word as a number.
    pub(crate) fn number<N: TryFrom<u64>>(&mut self) -> anyhow::Result<N>
    where
        N::Error: Error,
    {
        let number = from_utf8(self.word())?.parse::<u64>()?;
        Ok(N::try_from(number)?)
    }

    // The value that the next word numbers, which is one digit and counts from 0; `refusal` says of what there is none.
    pub(crate) fn choice<T: Copy>(
        &mut self,
        values: &[T],
        refusal: &'static str,
    ) -> anyhow::Result<T> {
        let found = match self.word() {
            [digit @ b'0'..=b'9'] => values.get((*digit - b'0') as usize),
            _ => None,
        };
        found.copied().context(refusal)
    }

    // The next word as a bit.
    pub(crate) fn bit(&mut self) -> anyhow::Result<bool> {
        self.choice(&[false, true], "a bit is 0 or 1")
    }
}
