// The permitted clouds of all blocks as bits, worked out once for a call: they give the number of candidates and the bad positions of a
// placement, and a walk takes the clouds from them alone.
ghost use Rattle.std.specs.Prelude.{◌≡◌, cond, ◌^◌, replicate};
ghost use Rattle.security.specs.Masks.{left_by, masks_of};
ghost use Rattle.security.specs.Soundness.{cloud_covers, count};
ghost use Rattle.sequences.specs.Bits.{bit, bits};

use crate::cloud_covers;
use description::workflow::Description;
use sequences::with_bit;
use std::marker::Model;

pub const POSITIONS: usize = 16;

// The bits of a byte, one for each possible cloud.
pub const MASK_BITS: u8 = 8;

// A byte for each position: bit k is set if the block may stand on cloud k.
pub type Masks = [u8; POSITIONS];

// The clouds whose labels cover this one, from the highest bit down.
fn covering_clouds(w: &Description, label: u8) -> u8
    ensures { result ≡ bits (cloud_covers w.now label) 0 8 }
{
    let clouds = w.cloud_count();
    let mut m: u8 = 0;
    for i in 0..clouds {
        m = with_bit(m, cloud_covers(w, label, clouds - 1 - i));
    }
    m
}

// Cloud c alone, if it is one of these clouds.
#[tactic(auto, using(crate::proofs::Alone::alone_past, crate::proofs::Alone::alone_on, crate::proofs::Alone::alone_off))]
fn alone(clouds: u8, c: u8) -> u8
    ensures { result ≡ cond (bit clouds c) (2 ^ c) 0 }
{
    if MASK_BITS <= c {
        return 0;
    }
    if (clouds >> c) % 2 == 1 {
        return 1 << c;
    }
    0
}

// Those of these clouds that a pin leaves.
fn left_by(pin: Option<u8>, clouds: u8) -> u8
    ensures { result ≡ left_by pin clouds }
{
    match pin {
        None => clouds,
        Some(c) => alone(clouds, c),
    }
}

// All masks, and how many candidates there are: the product of the numbers of set bits, at most 8 to the 16th power, so it fits. A byte past
// the last block is 0, although its position may have cloud 0: it has one choice and no bit, and is not counted. Blocks in a row often have
// the same label; then the clouds that cover it are looked for once. The bits of a byte are counted as it is made, before it is stored.
pub fn masks_of(w: &Description, masks: &mut Masks) -> u64
    requires { masks.old ≡ replicate 16 0 }
    ensures value { result ≡ count w.now }
    ensures masks_after { masks.new ≡ masks_of w.now }
{
    let mut looked_for: Option<(u8, u8)> = None;
    let mut n: u64 = 1;
    for (b, block) in w.blocks().iter().enumerate() {
        let covering = match looked_for {
            Some((label, clouds)) if label == block.label => clouds,
            _ => covering_clouds(w, block.label),
        };
        looked_for = Some((block.label, covering));
        let m = left_by(block.pin, covering);
        masks[b] = m;
        n *= u64::from(m.count_ones());
    }
    n
}

// A description, on loan, with the masks and the number of candidates that it has.
#[derive(Drop)]
pub struct Choices<'a> {
    description: &'a Description,
    masks: Masks,
    candidates: u64,
}

impl<'a> Model for Choices<'a> {
    ghost use Rattle.std.specs.Prelude.{◌≡◌};
    ghost use Rattle.description.specs.Declarations.{Description};
    ghost use Rattle.security.specs.Masks.{masks_of};
    ghost use Rattle.security.specs.Soundness.{count};

    ghost Value = { Description };

    ghost view = { λ c. c.description.now };

    ghost invariant = { λ c. (c.masks ≡ masks_of c.description.now) × (c.candidates ≡ count c.description.now) };
}

impl<'a> Choices<'a> {
    pub fn of(description: &'a Description) -> Choices<'a>
        ensures { result ≡ description.now }
    {
        let mut masks = [0u8; POSITIONS];
        let candidates = masks_of(description, &mut masks);
        Choices {
            description,
            masks,
            candidates,
        }
    }

    pub fn description(&self) -> &Description
        ensures { result.now ≡ self.now }
    {
        self.description
    }

    pub fn masks(&self) -> &Masks
        ensures { result.now ≡ masks_of self.now }
    {
        &self.masks
    }

    pub fn candidates(&self) -> u64
        ensures { result ≡ count self.now }
    {
        self.candidates
    }
}
