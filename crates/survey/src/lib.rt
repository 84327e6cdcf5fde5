// All placements of a description: how many there are of each kind, the first row past a cursor, and all rows.
#![tactic(auto)]

ghost use Rattle.std.specs.Prelude.{◌≡◌, ◌++◌, ◌≤◌, length, drop};
ghost use Rattle.security.specs.Accepted.{Admitted as IsAdmitted};
ghost use Rattle.visit.specs.Visits.{to_count};
ghost use Rattle.sequences.specs.Options.{given};
ghost use Rattle.survey.specs.Answers.{figures_of};
ghost use Rattle.survey.specs.RowWords.{keys_needed, unsorted};
ghost use Rattle.survey.specs.Rows.{census, draw, rows as rows_of};
ghost use Rattle.survey.specs.Surveys.{seen_of, Asks};

use admission::Admitted;
use costs::answers::Bill;
use costs::bills::bill_of;
use packing::{floor_place, unpacked};
use visit::counts::{Count, Keep};
use visit::draws::Draw;
use visit::tables::{TABLE_BYTES, TABLE_WORDS, Tables};
use visit::{Met, Visitor};
use walk::walk_all;

// The scope's "row": the cost and the sixteen cloud numbers of the placement that represents its option, and its bill, whose three amounts add up to
// the cost.
#[derive(Clone, Copy, Debug, PartialEq, Eq)]
pub struct Row {
    pub cost: u64,
    pub placement: [u8; 16],
    pub bill: Bill,
}

// Where a draw continues: from the start, or past a cost and sixteen bytes. Only `start` marks the start: cost 0 with sixteen zeros is a
// cursor like any other.
#[derive(Clone, Copy, Debug, PartialEq, Eq)]
pub struct Cursor {
    pub start: bool,
    pub cost: u64,
    pub placement: [u8; 16],
}

// How many candidates there are, how many of each kind, and how many different options.
#[derive(Clone, Copy, Debug, PartialEq, Eq)]
pub struct Figures {
    pub candidates: u64,
    pub breaking16: u64,
    pub breaking17only: u64,
    pub apartonly: u64,
    pub secure: u64,
    pub options: u64,
}

// The walk over the tables of the workflow.
fn walk_over<V: Visitor>(admitted: &Admitted<'_>, visitor: &mut V)
    requires fresh { V.tally visitor.old ≡ 0 }
    ensures { visitor.new ≡ seen_of V.see admitted.now visitor.old }
{
    let w = admitted.description();
    let mut words = [0u64; TABLE_WORDS];
    let mut bytes = [0u8; TABLE_BYTES];
    tables::fill(w, admitted.choices().masks(), &mut words, &mut bytes);
    let tables = Tables {
        words: &words,
        bytes: &bytes,
        blocks: w.block_count(),
    };
    walk_all(&tables, visitor);
}

// The same; if a block may stand nowhere there is nothing to meet, but the walk would try all clouds of the blocks before it.
fn walk_candidates<V: Visitor>(admitted: &Admitted<'_>, visitor: &mut V)
    requires fresh { V.tally visitor.old ≡ 0 }
    ensures seen { visitor.new ≡ seen_of V.see admitted.now visitor.old }
    ensures admitted { IsAdmitted admitted.now }
{
    let choices = admitted.choices();
    if choices.candidates() == 0 {
        return;
    }
    walk_over(admitted, visitor);
}

// How many candidates there are of each kind. Rule 16 is looked for first, then rule 17, then the pairs.
pub fn count_all(admitted: &Admitted<'_>) -> Figures
    ensures { figures_of result ≡ census admitted.now }
{
    let choices = admitted.choices();
    let mut count = Count::new();
    walk_candidates(admitted, &mut count);
    Figures {
        candidates: choices.candidates(),
        breaking16: count.breaks_first,
        breaking17only: count.breaks_second,
        apartonly: count.clashes,
        secure: count.secure,
        options: count.rows,
    }
}

fn to_draw_past(cursor: Cursor, blocks: usize) -> Draw
    requires { blocks ≤ 16 }
    ensures { Asks cursor blocks result }
{
    if cursor.start {
        return Draw::new(Met {
            weight: 0,
            place: 0,
        });
    }
    let place = floor_place(cursor.placement, blocks);
    let weight = cursor.cost;
    Draw::new(Met { weight, place })
}

// The first row past a cursor, if there is one.
pub fn row_past(admitted: &Admitted<'_>, cursor: Cursor) -> Option<Row>
    ensures { given result ≡ draw admitted.now cursor }
{
    let w = admitted.description();
    let blocks = w.block_count();
    let mut draw = to_draw_past(cursor, blocks);
    walk_candidates(admitted, &mut draw);
    let best = draw.found()?;
    let cost = best.weight;
    let placement = unpacked(best.place, blocks);
    let bill = bill_of(w, &placement, cost);
    Some(Row {
        cost,
        placement,
        bill,
    })
}

// The walk that keeps the rows, in words that have room for them.
fn walk_keeping(admitted: &Admitted<'_>, rows: &mut Keep<'_>)
    requires fresh { rows.old.count ≡ to_count }
    requires room { keys_needed admitted.now ≤ length rows.old.keys.now }
    ensures same_reference { rows.new.keys.ghost_name ≡ rows.old.keys.ghost_name }
    ensures value { rows.new.count.rows ≡ length (rows_of admitted.now) }
    ensures keys_after { rows.new.keys.now ≡ unsorted admitted.now ++ drop (keys_needed admitted.now) rows.old.keys.now }
{
    walk_candidates(admitted, rows);
}

// The keys of all rows, in the order of the walk; and how many there are.
pub fn keep_rows(admitted: &Admitted<'_>, keys: &mut [u64]) -> usize
    requires { keys_needed admitted.now ≤ length keys.old }
    ensures value { result ≡ length (rows_of admitted.now) }
    ensures keys_after { keys.new ≡ unsorted admitted.now ++ drop (keys_needed admitted.now) keys.old }
{
    let mut rows = Keep {
        count: Count::new(),
        keys,
    };
    walk_keeping(admitted, &mut rows);
    rows.count.rows as usize
}
