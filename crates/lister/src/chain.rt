// Draws in a row: each from the row that the one before it answered.
ghost use Rattle.std.specs.Prelude.{◌≡◌};
ghost use Rattle.lister.specs.Answers.{draw_answer};
ghost use Rattle.lister.specs.Calls.{draw_call};
ghost use Rattle.lister.specs.Chain.{InChain};
ghost use Rattle.lister.specs.DrawsListEveryRow.{at_start, past, moved_by};

use crate::draw;
use refusals::Refusal;
use survey::{Cursor, Row};

// One draw of a chain: what it answered, and the cursor of the next.
#[derive(Clone, Copy, Debug, PartialEq, Eq)]
pub struct Link {
    pub drawn: Result<Option<Row>, Refusal>,
    pub next: Cursor,
}

// The cursor of a chain's first draw.
pub fn begin() -> Cursor
    ensures { result ≡ at_start }
{
    Cursor {
        start: true,
        cost: 0,
        placement: [0u8; 16],
    }
}

fn past_row(row: Row) -> Cursor
    ensures { result ≡ past row }
{
    let placement = row.placement;
    Cursor {
        start: false,
        cost: row.cost,
        placement,
    }
}

// After a row the chain continues past it; any other answer leaves the cursor unchanged.
fn next_cursor(cursor: Cursor, drawn: Result<Option<Row>, Refusal>) -> Cursor
    ensures { result ≡ moved_by cursor (draw_answer drawn) }
{
    match drawn {
        Ok(Some(row)) => past_row(row),
        Ok(None) | Err(_) => cursor,
    }
}

// The next draw. From the cursor of the chain's draw k it answers what that draw answers, and gives the cursor of draw k + 1.
#[tactic(auto, unfolding(crate::specs::Chain::answer_at, crate::specs::Chain::cursor_after))]
pub fn advance(description: &[u8], cursor: Cursor) -> Link
    ensures drawn_value { draw_answer result.drawn ≡ draw_call description.now cursor }
    ensures next_value { result.next ≡ moved_by cursor (draw_call description.now cursor) }
    ensures in_chain { InChain description.now cursor result }
{
    let drawn = draw(description, cursor);
    let next = next_cursor(cursor, drawn);
    Link { drawn, next }
}
