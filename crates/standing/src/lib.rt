// Standing: may a position of a placement have a cloud, and if not, which of the tests behind number 13 fails first.
#![tactic(auto)]

ghost use Rattle.std.specs.Prelude.{◌≡◌};
ghost use Rattle.standing.specs.Answers.{reason_number, standing_answer};
ghost use Rattle.standing.specs.Reasons.{reason_of_block, reason, standing_call};

use admission::admit;
use description::workflow::Description;
use labels::covers;
use reading::decode;
use refusals::Refusal;

// The tests of a block come in this order; a position without a block has one of its own.
#[derive(Clone, Copy, Debug, PartialEq, Eq)]
pub enum Reason {
    Allowed,
    NoSuchCloud,
    NotCovered,
    NotPermitted,
    NoBlock,
}

impl Reason {
    // The number of a reason, for callers that have no enums.
    pub fn number(self) -> u8
        ensures { result ≡ reason_number self }
    {
        match self {
            Reason::Allowed => 0,
            Reason::NoSuchCloud => 1,
            Reason::NotCovered => 2,
            Reason::NotPermitted => 3,
            Reason::NoBlock => 4,
        }
    }
}

// A declared block on a cloud.
fn reason_of_block(w: &Description, b: usize, k: u8) -> Reason
    ensures { reason_number result ≡ reason_of_block w.now b k }
{
    if w.cloud_count() <= usize::from(k) {
        return Reason::NoSuchCloud;
    }
    let cloud = w.cloud_at(usize::from(k));
    let block = w.block_at(b);
    if !covers(cloud.label, block.label) {
        return Reason::NotCovered;
    }
    match block.pin {
        Some(c) if c != k => Reason::NotPermitted,
        _ => Reason::Allowed,
    }
}

// A position past the last block has 0 and nothing else.
#[tactic(auto, unfolding(crate::specs::Reasons::reason))]
fn reason_at(w: &Description, position: usize, k: u8) -> Reason
    ensures { reason_number result ≡ reason w.now position k }
{
    if position < w.block_count() {
        return reason_of_block(w, position, k);
    }
    if k == 0 {
        Reason::Allowed
    } else {
        Reason::NoBlock
    }
}

// Standing: what Read refuses; otherwise whether the position may have the cloud. Any position and any byte will do.
#[tactic(auto, using(security::proofs::Sound::read_is), unfolding(crate::specs::Reasons::standing_call))]
pub fn standing(description: &[u8], position: usize, cloud: u8) -> Result<Reason, Refusal>
    ensures { standing_answer result ≡ standing_call description.now position cloud }
{
    let mut w = Description::new();
    decode(description, &mut w)?;
    let admitted = admit(&w)?;
    Ok(reason_at(admitted.description(), position, cloud))
}
