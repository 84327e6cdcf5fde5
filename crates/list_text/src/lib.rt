// The lines that `listoptions` prints, put into a buffer that the caller lends.
#![tactic(auto)]

ghost use Rattle.std.specs.Prelude.{◌≡◌, [], ◌∷◌, ◌+◌, ◌≤◌, ◌<◌, ◌↔◌, IsTrue, length};
ghost use Rattle.list_text.specs.Lines.{decimal, options_line, refusal_line, written, placed, placed_end};

pub mod rows;

use rows::put_number;

// Puts a text into the buffer from offset `at` on, and answers the offset after it.
pub fn put_text(text: &[u8], buffer: &mut [u8], at: usize) -> usize
    requires { at + length text.now ≤ length buffer.old }
    ensures value { result ≡ at + length text.now }
    ensures buffer_after { buffer.new ≡ written text.now buffer.old at }
{
    let end = at + text.len();
    buffer[at..end].copy_from_slice(text);
    end
}

// The same for the byte that ends a line.
fn put_newline(buffer: &mut [u8], at: usize) -> usize
    requires { at < length buffer.old }
    ensures value { result ≡ at + 1 }
    ensures buffer_after { buffer.new ≡ written (10 ∷ []) buffer.old at }
{
    put_text(b"\n", buffer, at)
}

// How many digits a number has in decimal.
fn places(n: u64) -> usize
    ensures value { result ≡ length (decimal n) }
    ensures some { 0 < result }
    ensures few { result ≤ 20 }
{
    n.max(1).ilog10() as usize + 1
}

// A text of this size fits into the buffer from `at` on.
fn has_room(size: usize, buffer: &[u8], at: usize) -> bool
    ensures { IsTrue result ↔ (at + size ≤ length buffer.now) }
{
    at <= buffer.len() && size <= buffer.len() - at
}

// Each of these puts one line into the buffer from offset `at` on, and answers the offset after it. If the line does not fit, nothing is
// written and the answer is `at`; no line is empty, so the answer shows which it was. Each takes any arguments, and says how much room is
// always enough.

pub fn put_options(count: u64, buffer: &mut [u8], at: usize) -> usize
    ensures value { result ≡ placed_end (options_line count) buffer.old at }
    ensures buffer_after { buffer.new ≡ placed (options_line count) buffer.old at }
    ensures count_len_bound { length (options_line count) ≤ 29 }
{
    if !has_room(b"options \n".len() + places(count), buffer, at) {
        return at;
    }
    let named = put_text(b"options ", buffer, at);
    let counted = put_number(count, buffer, named);
    put_newline(buffer, counted)
}

pub fn put_refusal(number: u8, place: u64, buffer: &mut [u8], at: usize) -> usize
    ensures value { result ≡ placed_end (refusal_line number place) buffer.old at }
    ensures buffer_after { buffer.new ≡ placed (refusal_line number place) buffer.old at }
    ensures place_len_bound { length (refusal_line number place) ≤ 33 }
{
    let number = u64::from(number);
    let size = b"refused  \n".len() + places(number) + places(place);
    if !has_room(size, buffer, at) {
        return at;
    }
    let named = put_text(b"refused ", buffer, at);
    let numbered = put_number(number, buffer, named);
    let spaced = put_text(b" ", buffer, numbered);
    let placed = put_number(place, buffer, spaced);
    put_newline(buffer, placed)
}
