// The calls of the sheet writer. A refused call hands the state back and leaves the buffer as it is.
ghost use Rattle.std.specs.Prelude.{◌≡◌, ◌+◌, length, MatchResult};
ghost use Rattle.cam.specs.Buffers.{over};
ghost use Rattle.cam.specs.Refusals.{Asks, AsksIn};
ghost use Rattle.sheet_writer.specs.Sheets.{beginning, heading, operation_piece, ending};
ghost use Rattle.sheet_writer.specs.Writing.{between, inside, begin_questions, open_questions, write_questions, close_questions, end_questions, Writes};

use crate::pieces::{ENDING, ask_ending, ask_room, heading as heading_of, operation_piece};
use crate::states::{BetweenElements, InsideElement};
use cam::buffer::put_text;
use cam::fault::{Fault, Reason, Returned, granted};
use march::element::TestOperation;
use march::name::Name;
use march::operations::Order;

impl BetweenElements {
    // Begins a sheet at the front of the buffer: `(test NAME` and a line feed.
    pub fn begin(name: &[u8], buffer: &mut [u8]) -> Result<BetweenElements, Fault>
        ensures asks_in_order { Asks (begin_questions name.now buffer.old) result }
        ensures sheet_begun { MatchResult result (λ s. (s ≡ between (length (beginning name.now)) 0) × (buffer.new ≡ over buffer.old 0 (beginning name.now))) (λ _. buffer.new ≡ buffer.old) }
    {
        let name = Name::new(name)?;
        let name = name.as_bytes();
        if buffer.len() < 7 + name.len() {
            return Err(Fault::of_call(Reason::PieceDoesNotFit));
        }
        let at = put_text(buffer, 0, b"(test ");
        let at = put_text(buffer, at, name);
        let at = put_text(buffer, at, b"\n");
        Ok(BetweenElements { at, elements: 0 })
    }

    // Before an element: were fewer than sixteen opened (31), and does its heading fit (61)?
    fn ask_open(&self, order: Order, buffer: &[u8]) -> Result<(), Fault>
        ensures asks_in_order { Asks (open_questions self.now order buffer.now) result }
    {
        if self.elements >= 16 {
            return Err(Fault::of_call(Reason::TooManyElements));
        }
        ask_room(buffer, self.at, heading_of(order))
    }

    // Opens an element: `(up`, `(down` or `(columns`.
    pub fn open(
        self,
        order: Order,
        buffer: &mut [u8],
    ) -> Result<InsideElement, Returned<BetweenElements>>
        ensures asks_in_order { AsksIn (λ e. e.fault) (open_questions self order buffer.old) result }
        ensures heading_written { Writes (heading order) self.at self (inside (self.at + length (heading order)) order (self.elements + 1) 0) buffer.old buffer.new result }
    {
        let asked = self.ask_open(order, buffer);
        let BetweenElements { at, elements } = granted(self, asked)?;
        Ok(InsideElement {
            at: put_text(buffer, at, heading_of(order)),
            order,
            elements: elements + 1,
            operations: 0,
        })
    }

    // Ends the sheet, and answers its length.
    pub fn end(self, buffer: &mut [u8]) -> Result<usize, Returned<BetweenElements>>
        ensures asks_in_order { AsksIn (λ e. e.fault) (end_questions self buffer.old) result }
        ensures ending_written { Writes ending self.at self (self.at + length ending) buffer.old buffer.new result }
    {
        let asked = ask_ending(buffer, self.at, self.elements);
        let BetweenElements { at, elements: _ } = granted(self, asked)?;
        Ok(put_text(buffer, at, ENDING))
    }
}

impl InsideElement {
    // Before an operation: are there fewer than eight (32), may the element have it (33), and does it fit (61)?
    fn ask_write(&self, operation: TestOperation, buffer: &[u8]) -> Result<(), Fault>
        ensures asks_in_order { Asks (write_questions self.now operation buffer.now) result }
    {
        if self.operations >= 8 {
            return Err(Fault::of_call(Reason::TooManyOperations));
        }
        if !self.order.allows(operation) {
            return Err(Fault::of_call(Reason::OnlyComparesInColumns));
        }
        ask_room(buffer, self.at, operation_piece(operation))
    }

    // Writes an operation of the element.
    pub fn write(
        self,
        operation: TestOperation,
        buffer: &mut [u8],
    ) -> Result<InsideElement, Returned<InsideElement>>
        ensures asks_in_order { AsksIn (λ e. e.fault) (write_questions self operation buffer.old) result }
        ensures operation_written { Writes (operation_piece operation) self.at self (inside (self.at + length (operation_piece operation)) self.order self.elements (self.operations + 1)) buffer.old buffer.new result }
    {
        let asked = self.ask_write(operation, buffer);
        let mut state = granted(self, asked)?;
        state.at = put_text(buffer, state.at, operation_piece(operation));
        state.operations += 1;
        Ok(state)
    }

    // Closes the element.
    pub fn close(self, buffer: &mut [u8]) -> Result<BetweenElements, Returned<InsideElement>>
        ensures asks_in_order { AsksIn (λ e. e.fault) (close_questions self buffer.old) result }
        ensures ending_written { Writes ending self.at self (between (self.at + length ending) self.elements) buffer.old buffer.new result }
    {
        let asked = ask_ending(buffer, self.at, self.operations);
        let InsideElement {
            at,
            order: _,
            elements,
            operations: _,
        } = granted(self, asked)?;
        let at = put_text(buffer, at, ENDING);
        Ok(BetweenElements { at, elements })
    }
}
