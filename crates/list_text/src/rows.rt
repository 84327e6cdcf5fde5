// The lines of many rows at once, written in place: each byte goes to its own offset of the buffer, and is not moved again.
ghost use Rattle.std.specs.Prelude.{◌≡◌, map, ◌+◌, ◌*◌, ◌≤◌, get_or, length};
ghost use Rattle.packing.specs.Packing.{digits as clouds};
ghost use Rattle.list_text.specs.Lines.{digit, decimal, amount_text, written};
ghost use Rattle.list_text.specs.RowLines.{row_text, front_text, rows_text};

use crate::{places, put_newline};
use itoa::write_digits;
use packing::cloud_in;

// The words of a row.
const ROW_WORDS: usize = 5;

// The most bytes of its line.
const LINE_BYTES: usize = 101;

// The most digits for blocks.
const MOST_BLOCKS: usize = 16;

// A row: its cost, its placement as a packed number, and the amounts for storage, transfers and computing.
#[derive(Clone, Copy)]
struct Row {
    cost: u64,
    place: u64,
    storage: u64,
    transfer: u64,
    cpu: u64,
}

// Row k is the five words from 5k on.
fn row_at(words: &[u64], k: usize) -> Row
    requires { k * 5 + 5 ≤ length words.now }
    ensures cost { result.cost ≡ get_or words.now (k * 5) 0 }
    ensures place { result.place ≡ get_or words.now (k * 5 + 1) 0 }
    ensures storage { result.storage ≡ get_or words.now (k * 5 + 2) 0 }
    ensures transfer { result.transfer ≡ get_or words.now (k * 5 + 3) 0 }
    ensures cpu { result.cpu ≡ get_or words.now (k * 5 + 4) 0 }
{
    let word = k * ROW_WORDS;
    Row {
        cost: words[word],
        place: words[word + 1],
        storage: words[word + 2],
        transfer: words[word + 3],
        cpu: words[word + 4],
    }
}

// Each of these puts a part of a line, or all of it, from offset `at` on, and answers the offset after it.

fn put_clouds(place: u64, blocks: usize, buffer: &mut [u8], at: usize) -> usize
    requires room { at + blocks ≤ length buffer.old }
    requires few { blocks ≤ 16 }
    ensures value { result ≡ at + blocks }
    ensures buffer_after { buffer.new ≡ written (map digit (clouds blocks place)) buffer.old at }
{
    for block in 0..blocks {
        buffer[at + block] = b'0' + cloud_in(place, blocks, block) as u8;
    }
    at + blocks
}

pub fn put_number(n: u64, buffer: &mut [u8], at: usize) -> usize
    requires { at + length (decimal n) ≤ length buffer.old }
    ensures value { result ≡ at + length (decimal n) }
    ensures buffer_after { buffer.new ≡ written (decimal n) buffer.old at }
{
    let end = at + places(n);
    write_digits(n, buffer, end);
    end
}

fn put_amount(amount: u64, buffer: &mut [u8], at: usize) -> usize
    requires { at + length (amount_text amount) ≤ length buffer.old }
    ensures value { result ≡ at + length (amount_text amount) }
    ensures buffer_after { buffer.new ≡ written (amount_text amount) buffer.old at }
{
    buffer[at] = b' ';
    put_number(amount, buffer, at + 1)
}

fn put_front(cost: u64, place: u64, blocks: usize, buffer: &mut [u8], at: usize) -> usize
    requires room { at + length (decimal cost) + blocks + 1 ≤ length buffer.old }
    requires few { blocks ≤ 16 }
    ensures value { result ≡ at + length (decimal cost) + blocks + 1 }
    ensures buffer_after { buffer.new ≡ written (front_text blocks cost place) buffer.old at }
{
    let space = put_number(cost, buffer, at);
    buffer[space] = b' ';
    put_clouds(place, blocks, buffer, space + 1)
}

#[tactic(auto, using(crate::proofs::RowLines::line_length))]
fn put_line(row: &Row, blocks: usize, buffer: &mut [u8], at: usize) -> usize
    requires room { at + length (row_text blocks row.now) ≤ length buffer.old }
    requires few { blocks ≤ 16 }
    ensures value { result ≡ at + length (row_text blocks row.now) }
    ensures buffer_after { buffer.new ≡ written (row_text blocks row.now) buffer.old at }
{
    let front = put_front(row.cost, row.place, blocks, buffer, at);
    let stored = put_amount(row.storage, buffer, front);
    let moved = put_amount(row.transfer, buffer, stored);
    let newline = put_amount(row.cpu, buffer, moved);
    put_newline(buffer, newline)
}

// The lines of the rows go to the start of the buffer, as many as are sure to fit at LINE_BYTES a line; what is after them stays. The answer
// is the offset after the last line. It takes any arguments: fewer than five words at the end are no row, and no row has more than 16 digits
// for blocks.
pub fn put_rows(words: &[u64], blocks: usize, buffer: &mut [u8]) -> usize
    ensures value { result ≡ length (rows_text words.now blocks buffer.old) }
    ensures buffer_after { buffer.new ≡ written (rows_text words.now blocks buffer.old) buffer.old 0 }
{
    let digits = blocks.min(MOST_BLOCKS);
    let rows = (words.len() / ROW_WORDS).min(buffer.len() / LINE_BYTES);
    let mut end = 0;
    for k in 0..rows {
        end = put_line(&row_at(words, k), digits, buffer, end);
    }
    end
}
