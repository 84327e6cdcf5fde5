// Lists the options of the description on standard input by a chain of draws, a line for each as it is drawn. It prints what `listoptions`
// prints, and is there to be compared with it: a draw is a walk over all placements, so a long list takes a long time.
#![tactic(auto)]

ghost use Rattle.std.specs.Prelude.{◌≤◌, ◌≡◌, ℕ, length, take, IfErr, IfSome, OnErr, OnOk};
ghost use Rattle.std.specs.Io.KnownBytes.{Appends};
ghost use Rattle.standard_input.specs.Failures.{BreaksOff, NotWritten, OfOutput};
ghost use Rattle.packing.specs.Packing.{pack};
ghost use Rattle.judging.specs.Calls.{read_call};
ghost use Rattle.lister.specs.Answers.{draw_answer};
ghost use Rattle.drawoptions.specs.Drawing.{most_digits, line_bytes, digits_in, row_text, line_for, line_at, lines_before, Front};

use list_text::rows::put_rows;
use lister::chain;
use refusals::Refusal;
use standard_input::{Failure, filled, read_full, report, write_full};
use std::io;
use std::io::{Read, Write};
use survey::Row;

// As much as is read of a description, and more than the longest that is accepted.
const SPACE: usize = 4096;

// The most digits of a row, and the most bytes of its line.
const DIGITS: usize = 16;

const LINE_BYTES: usize = 101;

// No description has more rows.
const MOST_ROWS: usize = 65536;

// How many digits each row has; none for a refusal.
fn digits_of(description: &[u8]) -> usize
    ensures { (result ≡ digits_in (read_call description.now)) × (result ≤ most_digits) }
{
    match judging::read(description) {
        Ok(counts) => counts.blocks.min(DIGITS),
        Err(_) => 0,
    }
}

// The clouds of a row as one number, to the base 8.
fn packed(clouds: &[u8]) -> u64
    requires { length clouds.now ≤ most_digits }
    ensures { result ≡ pack clouds.now }
{
    let mut place = 0;
    for &cloud in clouds {
        place = place * 8 + u64::from(cloud);
    }
    place
}

// Each of these puts a line at the front of the text, and answers the offset after it.

fn put_row(row: Row, digits: usize, text: &mut [u8]) -> usize
    requires { (digits ≤ most_digits) × (length text.old ≡ line_bytes) }
    ensures { Front (row_text digits row) result text.new }
{
    let place = packed(&row.placement[..digits]);
    let bill = row.bill;
    let words = [row.cost, place, bill.storage, bill.transfer, bill.cpu];
    put_rows(&words, digits, text)
}

fn put_line(
    drawn: Result<Option<Row>, Refusal>,
    draw: usize,
    digits: usize,
    text: &mut [u8],
) -> usize
    requires { (digits ≤ most_digits) × (length text.old ≡ line_bytes) }
    ensures { Front (line_for digits draw (draw_answer drawn)) result text.new }
{
    match drawn {
        Ok(Some(row)) => put_row(row, digits, text),
        Ok(None) => list_text::put_options(draw as u64, text, 0),
        Err(refusal) => {
            let number = refusal.fault.number();
            list_text::put_refusal(number, refusal.place as u64, text, 0)
        }
    }
}

// Hands a text to the writer; nothing else does. No contract can say what becomes of bytes that standard output took, so this one asks before:
// this is the line of that draw of the description's chain.
fn write_line<W: Write>(out: &mut W, description: &[u8], draw: usize, text: &[u8]) -> io::Result<()>
    requires { text.now ≡ line_at description.now draw }
    ensures ok { OnOk result (Appends (W.contents out.old) (W.contents out.new) (line_at description.now draw)) }
    ensures err { OnErr result (BreaksOff (W.contents out.old) (W.contents out.new) (line_at description.now draw)) }
{
    write_full(out, text)
}

// Draws until there is no row, and writes a line for each draw: a row, and at the end how many there were, or why there is none. The clause says
// that whole lines come, from the first draw on and in order; how many draws there are it leaves open.
fn write_draws<W: Write>(out: &mut W, description: &[u8], text: &mut [u8]) -> io::Result<()>
    requires { length text.old ≡ line_bytes }
    ensures ok { OnOk result ((n : ℕ) × Appends (W.contents out.old) (W.contents out.new) (lines_before description.now n)) }
    ensures err { OnErr result ((n : ℕ) × BreaksOff (W.contents out.old) (W.contents out.new) (lines_before description.now n)) }
{
    let digits = digits_of(description);
    let mut cursor = chain::begin();
    for draw in 0..=MOST_ROWS {
        let link = chain::advance(description, cursor);
        let end = put_line(link.drawn, draw, digits, text);
        write_line(out, description, draw, &text[..end])?;
        let Ok(Some(_)) = link.drawn else {
            return Ok(());
        };
        cursor = link.next;
    }
    Ok(())
}

// Draws the rows of the description that is read. As in `listoptions`, what does not fit into the space need not be read.
// After a read that failed nothing was written; after a write that failed, the first bytes of the lines.
fn draw_input<R: Read, W: Write>(reader: &mut R, out: &mut W) -> Result<(), Failure>
    ensures ok { OnOk result (IfSome (R.remaining reader.old)
        (λ s. (n : ℕ) × Appends (W.contents out.old) (W.contents out.new) (lines_before (take 4096 s) n))) }
    ensures unread { IfErr result (λ e. NotWritten e (W.contents out.old) (W.contents out.new)) }
    ensures broken { IfErr result (λ e. OfOutput e → IfSome (R.remaining reader.old)
        (λ s. (n : ℕ) × BreaksOff (W.contents out.old) (W.contents out.new) (lines_before (take 4096 s) n))) }
{
    let mut space: [u8; SPACE] = filled(0);
    let count = read_full(reader, &mut space).map_err(Failure::Input)?;
    let mut text = [0u8; LINE_BYTES];
    write_draws(out, &space[..count], &mut text).map_err(Failure::Output)
}

fn main(rt: HostRuntime) {
    if let Err(failure) = draw_input(&mut rt.stdin(), &mut rt.stdout()) {
        report(&rt, "drawoptions", failure);
    }
}
