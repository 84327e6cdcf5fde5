// Picture and Picture size: a secure placement as Graphviz text, and how many bytes that has.
#![tactic(auto)]

ghost use Rattle.std.specs.Prelude.{◌≡◌, length};
ghost use Rattle.picture.specs.Answers.{picture_answer, size_of};
ghost use Rattle.picture.specs.Calls.{fitted, picture_call, size_call, buffer_after};
ghost use Rattle.picture.specs.Picture.{picture};

mod lines;
mod sheet;

use description::workflow::Description;
use judging::acceptance::accept_secure;
use lines::draw;
use refusals::{Fault, Refusal};
use security::answers::Verdict;
use sheet::Sheet;

fn size(w: &Description, placement: [u8; 16]) -> usize
    ensures { result ≡ length (picture w.now placement) }
{
    let mut sheet = Sheet::new();
    draw(&mut sheet, w, placement);
    sheet.as_slice().len()
}

// The text at the front of the buffer, or a refusal with the room that it needs. It is drawn on a separate sheet first: the buffer is not
// touched until it is known to be long enough.
#[tactic(auto, unfolding(crate::specs::Calls::buffer_after))]
fn written(w: &Description, placement: [u8; 16], buffer: &mut [u8]) -> Result<usize, Refusal>
    ensures result_value { picture_answer result ≡ size_of (fitted (length buffer.old) (picture w.now placement)) }
    ensures buffer_after { buffer.new
        ≡ buffer_after (fitted (length buffer.old) (picture w.now placement)) buffer.old }
{
    let mut sheet = Sheet::new();
    draw(&mut sheet, w, placement);
    let text = sheet.as_slice();
    let count = text.len();
    if buffer.len() < count {
        return Err(Refusal {
            fault: Fault::ShortBuffer,
            place: count,
        });
    }
    buffer[..count].copy_from_slice(text);
    Ok(count)
}

// Picture size: how many bytes the picture of a secure placement has.
#[tactic(auto, unfolding(crate::specs::Calls::size_call))]
pub fn picture_size(description: &[u8], placement: [u8; 16]) -> Result<usize, Refusal>
    ensures { picture_answer result ≡ size_call description.now placement }
{
    let mut w = Description::new();
    let verdict = accept_secure(description, placement, &mut w);
    let Verdict::Refused(refusal) = verdict else {
        return Ok(size(&w, placement));
    };
    Err(refusal)
}

// Picture: the text of a secure placement, at the front of the buffer; the answer is how many bytes it has.
#[tactic(auto, unfolding(crate::specs::Calls::picture_call, crate::specs::Calls::buffer_after))]
pub fn picture(description: &[u8], placement: [u8; 16], buffer: &mut [u8]) -> Result<usize, Refusal>
    ensures result_value { picture_answer result ≡ size_of (picture_call description.now placement (length buffer.old)) }
    ensures buffer_after { buffer.new
        ≡ buffer_after (picture_call description.now placement (length buffer.old)) buffer.old }
{
    let mut w = Description::new();
    let verdict = accept_secure(description, placement, &mut w);
    let Verdict::Refused(refusal) = verdict else {
        return written(&w, placement, buffer);
    };
    Err(refusal)
}
