// Census and Draw: the counts of a description's placements, and the first row past a cursor.
#![tactic(auto)]

ghost use Rattle.std.specs.Prelude.{◌≡◌};
ghost use Rattle.lister.specs.Answers.{census_answer, draw_answer};
ghost use Rattle.lister.specs.Calls.{census_call, draw_call};

pub mod chain;

use admission::admit;
use description::workflow::Description;
use reading::decode;
use refusals::Refusal;
use survey::{Cursor, Figures, Row, count_all, row_past};

// Census: the counts of an accepted description.
#[tactic(auto, using(security::proofs::Sound::read_is), unfolding(crate::specs::Calls::census_call))]
pub fn census(description: &[u8]) -> Result<Figures, Refusal>
    ensures { census_answer result ≡ census_call description.now }
{
    let mut w = Description::new();
    decode(description, &mut w)?;
    Ok(count_all(&admit(&w)?))
}

// Draw: the first row past the cursor; none if the list is finished.
#[tactic(auto, using(security::proofs::Sound::read_is), unfolding(crate::specs::Calls::draw_call))]
pub fn draw(description: &[u8], cursor: Cursor) -> Result<Option<Row>, Refusal>
    ensures { draw_answer result ≡ draw_call description.now cursor }
{
    let mut w = Description::new();
    decode(description, &mut w)?;
    Ok(row_past(&admit(&w)?, cursor))
}
