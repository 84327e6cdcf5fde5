// Read, Masks, Judge and Transfers: the calls that need no list of placements.
#![tactic(auto)]

ghost use Rattle.std.specs.Prelude.{◌≡◌, length};
ghost use Rattle.sequences.specs.Results.{ok, and_then};
ghost use Rattle.judging.specs.Answers.{read_answer, masked_answer, masks_after};
ghost use Rattle.security.specs.Answers.{judge_answer};
ghost use Rattle.transfer_list.specs.Answers.{transfers_answer};
ghost use Rattle.judging.specs.Calls.{read_call, masks_call, judge_call, transfers_call};
ghost use Rattle.transfer_list.specs.Transfers.{buffer_after};

pub mod acceptance;

use acceptance::{accept, accept_secure};
use admission::admit;
use description::workflow::Description;
use reading::decode;
use refusals::Refusal;
use security::answers::Verdict;
use soundness::masks::Masks;

// How many clouds, blocks and edges a description declares.
#[derive(Clone, Copy, Debug, PartialEq, Eq)]
pub struct Counts {
    pub clouds: usize,
    pub blocks: usize,
    pub edges: usize,
}

// Read: the counts of an accepted description, or its first refusal.
#[tactic(auto, unfolding(crate::specs::Calls::read_call))]
pub fn read(description: &[u8]) -> Result<Counts, Refusal>
    ensures { read_answer result ≡ read_call description.now }
{
    let mut w = Description::new();
    accept(description, &mut w)?;
    Ok(Counts {
        clouds: w.cloud_count(),
        blocks: w.block_count(),
        edges: w.edge_count(),
    })
}

// Masks: bit k of byte b says that block b may stand on cloud k. The lent bytes are written only if the description is accepted.
#[tactic(auto, using(security::proofs::Sound::read_is), unfolding(crate::specs::Calls::masks_call))]
pub fn masks(description: &[u8], masks: &mut Masks) -> Result<(), Refusal>
    ensures result_value { masked_answer result ≡ and_then (masks_call description.now) (λ ms. ok tt) }
    ensures masks_after { masks.new ≡ masks_after (masks_call description.now) masks.old }
{
    let mut w = Description::new();
    decode(description, &mut w)?;
    let permitted = *admit(&w)?.choices().masks();
    *masks = permitted;
    Ok(())
}

// Judge: what Read refuses, then the first position, edge or pair that makes the placement insecure.
pub fn judge(description: &[u8], placement: [u8; 16]) -> Verdict
    ensures { judge_answer result ≡ judge_call description.now placement }
{
    let mut w = Description::new();
    accept_secure(description, placement, &mut w)
}

// Transfers: those of a secure placement, four bytes each at the front of the buffer; the answer is how many there are.
#[tactic(auto, using(security::proofs::Sound::read_is, transfer_list::proofs::Transferring::refused_leaves), unfolding(crate::specs::Calls::transfers_call))]
pub fn transfers(
    description: &[u8],
    placement: [u8; 16],
    buffer: &mut [u8],
) -> Result<usize, Refusal>
    ensures result_value { transfers_answer result
        ≡ and_then (transfers_call description.now placement (length buffer.old)) (λ ts. ok (length ts)) }
    ensures buffer_after { buffer.new
        ≡ buffer_after (transfers_call description.now placement (length buffer.old)) buffer.old }
{
    let mut w = Description::new();
    decode(description, &mut w)?;
    let admitted = admit(&w)?;
    transfer_list::written_if_secure(admitted.choices(), placement, buffer)
}
