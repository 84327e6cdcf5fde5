// The answers of calls for C: a status, which is 0 or a refusal's number and place in one word, and values in lent arrays, which a refusal
// does not change.
#![tactic(auto)]

ghost use Rattle.std.specs.Prelude.{◌≡◌, min};
ghost use Rattle.lister.specs.Answers.{draw_answer};
ghost use Rattle.refusals.specs.Refusals.{answered, fault_number};
ghost use Rattle.sequences.specs.Options.{given};
ghost use Rattle.security.specs.Answers.{judge_answer};
ghost use Rattle.statuses.specs.Statuses.{highest_place, refusal_status, status, values_after};
ghost use Rattle.statuses.specs.Values.{row_or_none, row_bytes};

pub mod values;

use refusals::Refusal;
use security::answers::Verdict;
use survey::Row;
use values::Values;

// A place has 56 bits of a status, and this is the highest of them: 2^56 - 1.
const HIGHEST_PLACE: usize = 72057594037927935;

// A place that does not fit becomes the highest that does.
fn kept_place(place: usize) -> u64
    ensures { result ≡ min place highest_place }
{
    place.min(HIGHEST_PLACE) as u64
}

// The status of a refusal with any number, whether or not a call refuses with it.
pub fn numbered_status(number: u8, place: usize) -> u64
    ensures { result ≡ refusal_status number place }
{
    u64::from(number) + 256 * kept_place(place)
}

fn refusal_status(refusal: Refusal) -> u64
    ensures { result ≡ refusal_status (fault_number refusal.fault) refusal.place }
{
    numbered_status(refusal.fault.number(), refusal.place)
}

// The status of an answer without values.
pub fn status(answer: Result<(), Refusal>) -> u64
    ensures { result ≡ status (answered (λ u. u) answer) }
{
    match answer {
        Ok(()) => 0,
        Err(refusal) => refusal_status(refusal),
    }
}

pub fn verdict_status(verdict: Verdict) -> u64
    ensures { result ≡ status (judge_answer verdict) }
{
    status(verdict.ok())
}

// The status of an answer. Its values go to the lent array.
pub fn put<T: Values<N> + Drop, const N: usize>(
    answer: Result<T, Refusal>,
    lent: &mut [u64; N],
) -> u64
    ensures value { result ≡ status (answered T.values answer) }
    ensures lent_after { lent.new ≡ values_after (λ vs. vs) (answered T.values answer) lent.old }
{
    match answer {
        Ok(value) => {
            *lent = value.values();
            0
        }
        Err(refusal) => refusal_status(refusal),
    }
}

// The sixteen bytes of a row, or zeros if there is none.
fn bytes_of(found: Option<Row>) -> [u8; 16]
    ensures { result ≡ row_bytes (given found) }
{
    match found {
        Some(row) => row.placement,
        None => [0u8; 16],
    }
}

// The same for a draw, whose row has bytes too.
pub fn put_row(
    drawn: Result<Option<Row>, Refusal>,
    answer: &mut [u64; 5],
    row: &mut [u8; 16],
) -> u64
    ensures value { result ≡ status (draw_answer drawn) }
    ensures answer_after { answer.new ≡ values_after row_or_none (draw_answer drawn) answer.old }
    ensures row_after { row.new ≡ values_after row_bytes (draw_answer drawn) row.old }
{
    if let Ok(found) = drawn {
        *row = bytes_of(found);
    }
    put(drawn, answer)
}
