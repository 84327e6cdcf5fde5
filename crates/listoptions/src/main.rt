// Lists the options of the description on standard input: a line for each row, cheapest first, and last their number. The lines are made
// page by page, so that the text of 65,536 rows needs no room of its own on the stack.
#![tactic(auto)]

ghost use Rattle.std.specs.Prelude.{◌+◌, ◌*◌, ◌≤◌, ◌≡◌, ◌++◌, length, take, IfErr, IfOk, IfSome, OnOk};
ghost use Rattle.std.specs.Io.KnownBytes.{Appends};
ghost use Rattle.standard_input.specs.Failures.{NotWritten, OfOutput, BreaksOff};
ghost use Rattle.whole_list.specs.WholeList.{list_answer};
ghost use Rattle.list_text.specs.Lines.{written};
ghost use Rattle.list_text.specs.RowLines.{words_of_row};
ghost use Rattle.listoptions.specs.Making.{held_words, held_keys, held_bytes, rows_of, blocks_of, last_line, page_of, page_text};
ghost use Rattle.listoptions.specs.Making.{lines_in, BeginsWith, NextBytes, Whole, Taken, BrokeOff};
ghost use Rattle.listoptions.specs.Printed.{printed};

use list_text::rows::put_rows;
use refusals::Refusal;
use standard_input::{Failure, filled, read_full, report, write_full};
use std::io;
use std::io::{Read, Write};
use whole_list::{Extent, ROW_WORDS};

// As much as is read of a description. Its first `deciding_bytes` decide (`printed-front`), and they are fewer.
const SPACE: usize = 4096;

// Words for as many rows as there can be candidates, and for their keys.
const HELD_WORDS: usize = 327680;

const HELD_KEYS: usize = 131072;

// The words of the rows whose lines are one page, and bytes for these lines.
const PAGE_WORDS: usize = 1024 * ROW_WORDS;

const PAGE_BYTES: usize = 103424;

// How many rows are printed, and how many digits each has: none for a refusal.
fn extent_of(listed: Result<Extent, Refusal>) -> Extent
    ensures { (result.rows ≡ rows_of (list_answer listed)) × (result.blocks ≡ blocks_of (list_answer listed)) }
{
    listed.unwrap_or(Extent { rows: 0, blocks: 0 })
}

// The line after the rows: how many there are, or why there are none.
fn put_last(listed: Result<Extent, Refusal>, text: &mut [u8]) -> usize
    requires { length text.old ≡ held_bytes }
    ensures value { result ≡ length (last_line (list_answer listed)) }
    ensures text_after { text.new ≡ written (last_line (list_answer listed)) text.old 0 }
{
    match listed {
        Ok(extent) => list_text::put_options(extent.rows as u64, text, 0),
        Err(refusal) => {
            let number = refusal.fault.number();
            list_text::put_refusal(number, refusal.place as u64, text, 0)
        }
    }
}

// A page of the rows' lines. `words` are those of the page.
fn put_page(rows: &[u64], blocks: usize, page: usize, words: &[u64], text: &mut [u8]) -> usize
    requires in_rows { words.now ≡ page_of rows.now page }
    requires room { length text.old ≡ held_bytes }
    ensures value { result ≡ length (page_text blocks rows.now page) }
    ensures text_after { text.new ≡ written (page_text blocks rows.now page) text.old 0 }
    ensures lines { page_text blocks rows.now page ≡ lines_in blocks words.now }
{
    put_rows(words, blocks, text)
}

// Hands a text to the writer; nothing else does. `sent` bytes were handed over before it, and the answer counts its own too. No contract can say
// what becomes of bytes that standard output took, so this one asks before: these are the next bytes of what is printed for the description.
fn write_next<W: Write>(
    out: &mut W,
    description: &[u8],
    sent: usize,
    text: &[u8],
) -> io::Result<usize>
    requires few { (length text.now ≤ held_bytes) × (sent ≤ 64 * held_bytes) }
    requires next_bytes { NextBytes (printed description.now) sent text.now }
    ensures bytes { IfOk result (λ n. n ≡ sent + length text.now) }
    ensures taken { Taken result (W.contents out.old) (W.contents out.new) text.now }
    ensures broken { BrokeOff result (W.contents out.old) (W.contents out.new) text.now }
{
    write_full(out, text)?;
    Ok(sent + text.len())
}

// All pages, one after the other.
fn write_pages<W: Write>(
    out: &mut W,
    description: &[u8],
    rows: &[u64],
    blocks: usize,
    text: &mut [u8],
) -> io::Result<usize>
    requires rows_len_bound { (length rows.now ≤ held_words) × (length text.old ≡ held_bytes) }
    requires begins_with { BeginsWith (printed description.now) (lines_in blocks rows.now) }
    ensures whole { Whole result (lines_in blocks rows.now) }
    ensures bytes_bound { IfOk result (λ n. n ≤ 64 * held_bytes) }
    ensures taken { Taken result (W.contents out.old) (W.contents out.new) (lines_in blocks rows.now) }
    ensures broken { BrokeOff result (W.contents out.old) (W.contents out.new) (lines_in blocks rows.now) }
{
    let mut sent = 0;
    for (page, words) in rows.chunks(PAGE_WORDS).enumerate() {
        let end = put_page(rows, blocks, page, words, text);
        sent = write_next(out, description, sent, &text[..end])?;
    }
    Ok(sent)
}

// What List answers, and what is printed of the rows that it leaves: their lines, and then the last one, are all that is printed.
fn list_rows(
    description: &[u8],
    rows: &mut [u64],
    scratch: &mut [u64],
) -> (Result<Extent, Refusal>, Extent)
    requires { (length rows.old ≡ held_words) × (length scratch.old ≡ held_keys) }
    ensures fits { result.1.rows * words_of_row ≤ length rows.new }
    ensures lines { lines_in result.1.blocks (take (result.1.rows * words_of_row) rows.new) ++ last_line (list_answer result.0) ≡ printed description.now }
{
    let listed = whole_list::list(description, rows, scratch);
    (listed, extent_of(listed))
}

// Everything that is printed for a description: the pages, and the last line.
fn write_list<W: Write>(
    out: &mut W,
    description: &[u8],
    rows: &mut [u64],
    scratch: &mut [u64],
    text: &mut [u8],
) -> io::Result<usize>
    requires { (length rows.old ≡ held_words) × (length scratch.old ≡ held_keys) × (length text.old ≡ held_bytes) }
    ensures whole { Whole result (printed description.now) }
    ensures taken { Taken result (W.contents out.old) (W.contents out.new) (printed description.now) }
    ensures broken { BrokeOff result (W.contents out.old) (W.contents out.new) (printed description.now) }
{
    let (listed, extent) = list_rows(description, rows, scratch);
    let printed = &rows[..extent.rows * ROW_WORDS];
    let sent = write_pages(out, description, printed, extent.blocks, text)?;
    let end = put_last(listed, text);
    write_next(out, description, sent, &text[..end])
}

// Prints the list of the description that is read. Where the bytes of the reader and of the writer are known, the ones are the description
// and the others are what is printed for it. After a read that failed nothing was written;
// after a write that failed, the first bytes of what is printed.
fn list_input<R: Read, W: Write>(reader: &mut R, out: &mut W) -> Result<(), Failure>
    ensures bytes { OnOk result (IfSome (R.remaining reader.old) (λ s. Appends (W.contents out.old) (W.contents out.new) (printed s))) }
    ensures unread { IfErr result (λ e. NotWritten e (W.contents out.old) (W.contents out.new)) }
    ensures broken { IfErr result (λ e. OfOutput e →
        IfSome (R.remaining reader.old) (λ s. BreaksOff (W.contents out.old) (W.contents out.new) (printed s))) }
{
    let mut space: [u8; SPACE] = filled(0);
    let count = read_full(reader, &mut space).map_err(Failure::Input)?;
    let description = &space[..count];
    let mut rows: [u64; HELD_WORDS] = filled(0);
    let mut scratch: [u64; HELD_KEYS] = filled(0);
    let mut text: [u8; PAGE_BYTES] = filled(0);
    write_list(out, description, &mut rows, &mut scratch, &mut text).map_err(Failure::Output)?;
    Ok(())
}

fn main(rt: HostRuntime) {
    if let Err(failure) = list_input(&mut rt.stdin(), &mut rt.stdout()) {
        report(&rt, "listoptions", failure);
    }
}
