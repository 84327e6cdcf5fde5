// The transfers of a placement, as bytes.
#![tactic(auto)]

ghost use Rattle.std.specs.Prelude.{◌≡◌, cond, [], ◌∷◌, ◌++◌, leb, ◌+◌, ◌≤◌, length, drop, Some, None};
ghost use Rattle.std.proofs.lemmas.List.Edits.{sets};
ghost use Rattle.sequences.specs.Results.{ok, and_then};
ghost use Rattle.transfer_list.specs.Answers.{transfers_answer};
ghost use Rattle.transfer_list.specs.Transfers.{fitted, buffer_after};
ghost use Rattle.security.specs.Placements.{judge};
ghost use Rattle.transfer_list.specs.Transfers.{source, destination, transfers, transfers_from, bytes_of};

use description::workflow::{Description, Edge, Way};
use placements::{cloud_of, moves};
use refusals::{Fault, Refusal};
use soundness::masks::Choices;
use verdicts::verdict;

// Edge, datum, source and destination.
const TRANSFER_BYTES: usize = 4;

// The clouds that a transfer on this edge goes from and to.
pub fn source_and_destination(placement: [u8; 16], e: Edge) -> (u8, u8)
    ensures { result ≡ (source placement e, destination placement e) }
{
    let service = cloud_of(placement, usize::from(e.service));
    let datum = cloud_of(placement, usize::from(e.datum));
    match e.way {
        Way::Reads => (datum, service),
        Way::Writes => (service, datum),
    }
}

// How many edges move their datum.
fn transfer_count(w: &Description, placement: [u8; 16]) -> usize
    ensures value { result ≡ length (transfers w.now placement) }
    ensures upper_bound { result ≤ 32 }
{
    w.edges().iter().filter(|e| moves(placement, **e)).count()
}

// Writes edge i's transfer, if it makes one, at an offset of the buffer. The answer is the offset after it.
fn put_transfer(placement: [u8; 16], i: u8, e: Edge, buffer: &mut [u8], at: usize) -> usize
    requires { at + length (bytes_of (transfers_from i placement (e ∷ []))) ≤ length buffer.old }
    ensures value { result ≡ at + length (bytes_of (transfers_from i placement (e ∷ []))) }
    ensures buffer_after { buffer.new ≡ sets buffer.old at (bytes_of (transfers_from i placement (e ∷ []))) }
{
    if !moves(placement, e) {
        return at;
    }
    let (source, destination) = source_and_destination(placement, e);
    buffer[at..at + TRANSFER_BYTES].copy_from_slice(&[i, e.datum, source, destination]);
    at + TRANSFER_BYTES
}

// All of them, from the front; the answer is how many.
fn put_transfers(w: &Description, placement: [u8; 16], buffer: &mut [u8]) -> usize
    requires { length (bytes_of (transfers w.now placement)) ≤ length buffer.old }
    ensures value { result ≡ length (transfers w.now placement) }
    ensures buffer_after { buffer.new
        ≡ bytes_of (transfers w.now placement)
        ++ drop (length (bytes_of (transfers w.now placement))) buffer.old }
{
    let mut at = 0;
    for (i, e) in w.edges().iter().enumerate() {
        at = put_transfer(placement, i as u8, *e, buffer, at);
    }
    at / TRANSFER_BYTES
}

// How many bytes the transfers need, if that is more than there is room for. An edge makes at most one transfer: they have to be counted
// first only if there is less room than that.
fn missing(w: &Description, placement: [u8; 16], room: usize) -> Option<usize>
    ensures { result
        ≡ cond (leb (length (bytes_of (transfers w.now placement))) room)
        None (Some (length (bytes_of (transfers w.now placement)))) }
{
    if w.edge_count() * TRANSFER_BYTES <= room {
        return None;
    }
    let needed = transfer_count(w, placement) * TRANSFER_BYTES;
    if needed <= room { None } else { Some(needed) }
}

// All transfers of a secure placement, or a refusal with the room that they need.
fn written(w: &Description, placement: [u8; 16], buffer: &mut [u8]) -> Result<usize, Refusal>
    ensures result_value { transfers_answer result
        ≡ and_then (fitted (length buffer.old) (transfers w.now placement)) (λ ts. ok (length ts)) }
    ensures buffer_after { buffer.new
        ≡ buffer_after (fitted (length buffer.old) (transfers w.now placement)) buffer.old }
{
    if let Some(place) = missing(w, placement, buffer.len()) {
        return Err(Refusal {
            fault: Fault::ShortBuffer,
            place,
        });
    }
    Ok(put_transfers(w, placement, buffer))
}

pub fn written_if_secure(
    choices: &Choices<'_>,
    placement: [u8; 16],
    buffer: &mut [u8],
) -> Result<usize, Refusal>
    ensures result_value { transfers_answer result
        ≡ and_then
        (and_then (judge choices.now placement)
        (λ secure. fitted (length buffer.old) (transfers choices.now placement)))
        (λ ts. ok (length ts)) }
    ensures buffer_after { buffer.new
        ≡ buffer_after
        (and_then (judge choices.now placement)
        (λ secure. fitted (length buffer.old) (transfers choices.now placement)))
        buffer.old }
{
    verdict(choices, placement).ok()?;
    written(choices.description(), placement, buffer)
}
