// The whole list of a description's options in one walk: every row in words that the caller lends, sorted.
#![tactic(auto)]

ghost use Rattle.std.specs.Prelude.{◌≡◌, cond, ◌++◌, ◌*◌, ◌≤◌, leb, length, drop, replicate, Some, None, IfSome};
ghost use Rattle.sequences.specs.Results.{ok};
ghost use Rattle.survey.specs.Rows.{rows as rows_of};
ghost use Rattle.survey.specs.RowWords.{keys_needed};
ghost use Rattle.whole_list.specs.WholeList.{listed, needed, capacity, list_answer, listed_in, list_call, replaced, cleared, rows_after, scratch_after};

mod billing;

use admission::{Admitted, admit};
use billing::bill_rows;
use description::workflow::Description;
use reading::decode;
use refusals::{Fault, Refusal};

// The words of a row: its cost, its packed placement, and the amounts for storage, transfers and computing.
pub const ROW_WORDS: usize = 5;

// The words of its key: the first two of them.
const KEY_WORDS: usize = 2;

// How many rows a list has, and how many blocks each of its placements has.
#[derive(Clone, Copy, Debug, PartialEq, Eq)]
pub struct Extent {
    pub rows: usize,
    pub blocks: usize,
}

// How many rows there is room for: five words each for the rows, and two for their keys in the scratch.
fn capacity(rows: &[u64], scratch: &[u64]) -> usize
    ensures { result ≡ capacity (length rows.now) (length scratch.now) }
{
    (rows.len() / ROW_WORDS).min(scratch.len() / KEY_WORDS)
}

// How many rows there are, if that is more than there is room for. There are no more rows than candidates: a walk has to count the rows
// first only if there is less room than that.
fn missing(admitted: &Admitted<'_>, room: usize) -> Option<usize>
    ensures value { result
        ≡ cond (leb (length (rows_of admitted.now)) room) None (Some (length (rows_of admitted.now))) }
    ensures few { IfSome result (λ n. n ≤ 65536) }
{
    let choices = admitted.choices();
    if choices.candidates() <= room as u64 {
        return None;
    }
    let figures = survey::count_all(admitted);
    let rows = figures.options as usize;
    if rows <= room { None } else { Some(rows) }
}

// The walk leaves the rows' keys in the scratch; they are sorted there, with the words for the rows as the spare words of the sort.
fn list_fitting(admitted: &Admitted<'_>, rows: &mut [u64], scratch: &mut [u64]) -> Extent
    requires room { (needed admitted.now ≤ length rows.old) × (keys_needed admitted.now ≤ length scratch.old) }
    ensures rows_value { (result.rows ≡ length (rows_of admitted.now)) × (result.blocks ≡ length admitted.now.blocks) }
    ensures rows_after { rows.new ≡ listed admitted.now ++ drop (needed admitted.now) rows.old }
    ensures scratch_after { scratch.new
        ≡ replicate (keys_needed admitted.now) 0 ++ drop (keys_needed admitted.now) scratch.old }
{
    let w = admitted.description();
    let count = survey::keep_rows(admitted, scratch);
    sorting::sort_rows(scratch, rows, count);
    bill_rows(w, scratch, rows, count);
    Extent {
        rows: count,
        blocks: w.block_count(),
    }
}

fn list_accepted(
    admitted: &Admitted<'_>,
    rows: &mut [u64],
    scratch: &mut [u64],
) -> Result<Extent, Refusal>
    ensures result_value { list_answer result ≡ listed_in admitted.now (capacity (length rows.old) (length scratch.old)) }
    ensures rows_after { rows.new
        ≡ replaced (ok admitted.now)
        (capacity (length rows.old) (length scratch.old)) listed rows.old }
    ensures scratch_after { scratch.new
        ≡ replaced (ok admitted.now)
        (capacity (length rows.old) (length scratch.old)) cleared scratch.old }
{
    match missing(admitted, capacity(rows, scratch)) {
        Some(lacking) => Err(Fault::ShortBuffer.at(lacking * ROW_WORDS)),
        None => Ok(list_fitting(admitted, rows, scratch)),
    }
}

// List: all rows of a description in lent words, five each, and two each of scratch. Nothing is written if the description is refused
// or the rows do not fit.
#[tactic(auto, using(security::proofs::Sound::read_is), unfolding(crate::specs::WholeList::list_call, crate::specs::WholeList::rows_after, crate::specs::WholeList::scratch_after))]
pub fn list(description: &[u8], rows: &mut [u64], scratch: &mut [u64]) -> Result<Extent, Refusal>
    ensures result_value { list_answer result ≡ list_call description.now (capacity (length rows.old) (length scratch.old)) }
    ensures rows_after { rows.new
        ≡ rows_after description.now (capacity (length rows.old) (length scratch.old)) rows.old }
    ensures scratch_after { scratch.new
        ≡ scratch_after description.now
        (capacity (length rows.old) (length scratch.old)) scratch.old }
{
    let mut w = Description::new();
    decode(description, &mut w)?;
    let admitted = admit(&w)?;
    list_accepted(&admitted, rows, scratch)
}
