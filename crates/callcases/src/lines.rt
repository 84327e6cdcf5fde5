// The line of each case: the words of the call's answer, and after a call that writes to a lent buffer the buffer as the call left it.
ghost use Rattle.std.specs.Prelude.{◌+◌, ◌*◌, ◌≤◌, length};
ghost use Rattle.arrayvec.specs.ArrayVec.{array_vec_len};
ghost use Rattle.callcases.specs.Room.{size, line, words, most_lent};

use crate::cases::{Call, Loan, MOST_LENT};
use crate::output::{Output, put, put_clouds, put_hex, put_number};
use arrayvec::ArrayVec;
use refusals::Refusal;
use security::answers::Verdict;
use standard_input::filled;
use statuses::values::Values;
use survey::Row;

// The words of an answer. None has as many bytes.
type Words = ArrayVec<u8, 160>;

pub fn put_line(out: &mut Output, description: &[u8], call: Call)
    requires { array_vec_len out.old + line ≤ size }
    ensures { array_vec_len out.new ≤ array_vec_len out.old + line }
{
    put_answer(out, description, call);
    put(out, b"\n");
}

fn put_answer(out: &mut Output, description: &[u8], call: Call)
    requires { array_vec_len out.old + words + 1 + 2 * most_lent ≤ size }
    ensures { array_vec_len out.new ≤ array_vec_len out.old + words + 1 + 2 * most_lent }
{
    match call {
        Call::Read => put_words(out, answer(b"accepted", judging::read(description))),
        Call::Masks => put_words(out, masks(description)),
        Call::Judge(placement) => put_words(out, verdict(judging::judge(description, placement))),
        Call::Census => put_words(out, answer(b"census", lister::census(description))),
        Call::Draw(cursor) => put_words(out, drawn(lister::draw(description, cursor))),
        Call::Transfers(loan) => put_lent(out, loan, |lent| {
            answer(
                b"transfers",
                judging::transfers(description, loan.placement, lent),
            )
        }),
        Call::Picture(loan) => put_lent(out, loan, |lent| {
            answer(
                b"picture",
                picture::picture(description, loan.placement, lent),
            )
        }),
        Call::Size(placement) => put_words(
            out,
            answer(b"bytes", picture::picture_size(description, placement)),
        ),
        Call::Bill(placement) => put_words(
            out,
            answer(b"bill", billing::bill(description, placement)),
        ),
        Call::Standing(block, cloud) => put_words(
            out,
            answer(
                b"standing",
                standing::standing(description, usize::from(block), cloud),
            ),
        ),
    }
}

fn put_words(out: &mut Output, answer: Words)
    requires { array_vec_len out.old + words ≤ size }
    ensures { array_vec_len out.new ≤ array_vec_len out.old + words }
{
    put(out, answer.as_slice());
}

// The call is lent a buffer that is filled with a byte which shows what it did not touch.
fn put_lent<F: FnOnce(&mut [u8]) -> Words>(out: &mut Output, loan: Loan, call: F)
    requires room { array_vec_len out.old + words + 1 + 2 * most_lent ≤ size }
    requires callable { F.IsAlwaysCallable call }
    ensures { array_vec_len out.new ≤ array_vec_len out.old + words + 1 + 2 * most_lent }
{
    let mut buffer: [u8; MOST_LENT] = filled(0xa5);
    let lent = &mut buffer[..loan.room];
    put_words(out, call(lent));
    put_hex(out, lent);
}

// A word, and then each number with a space before it.
fn worded(word: &[u8], numbers: &[u64]) -> Words
    requires { length word.now + 21 * length numbers.now ≤ words }
    ensures { array_vec_len result ≤ length word.now + 21 * length numbers.now }
{
    let mut text = Words::new();
    put(&mut text, word);
    for &n in numbers {
        put_number(&mut text, n);
    }
    text
}

// The values of an answer after a word, or the refusal.
fn answer<T: Values<N> + Drop, const N: usize>(word: &[u8], given: Result<T, Refusal>) -> Words
    requires { length word.now + 21 * N ≤ words }
{
    match given {
        Ok(value) => worded(word, &value.values()),
        Err(r) => refusal(r),
    }
}

fn masks(description: &[u8]) -> Words {
    let mut masks = [0u8; 16];
    match judging::masks(description, &mut masks) {
        Ok(()) => {
            let mut text = worded(b"masks", &[]);
            put_hex(&mut text, &masks);
            text
        }
        Err(r) => refusal(r),
    }
}

fn verdict(v: Verdict) -> Words {
    match v {
        Verdict::Secure => worded(b"secure", &[]),
        Verdict::Refused(r) => refusal(r),
    }
}

fn drawn(given: Result<Option<Row>, Refusal>) -> Words {
    match given {
        Ok(Some(found)) => row(found),
        Ok(None) => worded(b"finished", &[]),
        Err(r) => refusal(r),
    }
}

fn row(row: Row) -> Words {
    let bill = row.bill;
    let mut text = worded(b"row", &[row.cost]);
    put(&mut text, b" ");
    put_clouds(&mut text, &row.placement);
    put_number(&mut text, bill.storage);
    put_number(&mut text, bill.transfer);
    put_number(&mut text, bill.cpu);
    text
}

fn refusal(r: Refusal) -> Words {
    let number = u64::from(r.fault.number());
    worded(b"refused", &[number, r.place as u64])
}
