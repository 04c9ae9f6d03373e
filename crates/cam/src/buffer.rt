// Writing text into the caller's memory.
ghost use Rattle.std.specs.Prelude.{◌≡◌, ◌+◌, ◌≤◌, length};
ghost use Rattle.cam.specs.Buffers.{over};

// Writes a text from a place of a buffer on, and gives the place after it. Buffer and place come apart, since a caller
// keeps the place and is handed the buffer anew at each call.
pub fn put_text(buffer: &mut [u8], at: usize, text: &[u8]) -> usize
    requires room { at + length text.now ≤ length buffer.old }
    ensures written_over { buffer.new ≡ over buffer.old at text.now }
    ensures place_after { result ≡ at + length text.now }
{
    let end = at + text.len();
    buffer[at..end].copy_from_slice(text);
    end
}
