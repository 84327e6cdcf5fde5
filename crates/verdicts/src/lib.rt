// Judging one placement.
#![tactic(auto)]

ghost use Rattle.std.specs.Prelude.{◌≡◌, not, ◌&&◌, cond, ltb, eqb};
ghost use Rattle.sequences.specs.Bits.{bit};
ghost use Rattle.sequences.specs.Lists.{first};
ghost use Rattle.sequences.specs.Options.{given};
ghost use Rattle.security.specs.Answers.{judge_answer};
ghost use Rattle.security.specs.Soundness.{breaks3, breaks4, positions};
ghost use Rattle.security.specs.Placements.{exposes, breaks16, breaks17, bad_position, judge};

use apart::first_broken;
use description::workflow::{Description, Edge};
use labels::covers;
use placements::{cloud_of, moves};
use refusals::{Fault, Refusal};
use security::answers::Verdict;
use soundness::masks::{Choices, MASK_BITS, POSITIONS};
use soundness::{breaks_rule3, breaks_rule4};

// The first edge that breaks rule 3.
pub fn first_reading_up(w: &Description) -> Option<usize>
    ensures { given result ≡ first (breaks3 w.now) w.now.edges }
{
    w.edges().iter().position(|e| breaks_rule3(w, *e))
}

// The first edge that breaks rule 4.
pub fn first_writing_down(w: &Description) -> Option<usize>
    ensures { given result ≡ first (breaks4 w.now) w.now.edges }
{
    w.edges().iter().position(|e| breaks_rule4(w, *e))
}

// The edge makes a copy on a cloud whose label does not cover the datum's.
#[tactic(auto, using(security::proofs::Equations::exposes_of))]
fn exposes(w: &Description, placement: [u8; 16], e: Edge) -> bool
    ensures { result ≡ exposes w.now placement e }
{
    if !moves(placement, e) {
        return false;
    }
    let cloud = w.cloud_at(usize::from(cloud_of(placement, usize::from(e.service))));
    let datum = w.block_at(usize::from(e.datum));
    !covers(cloud.label, datum.label)
}

// The first edge that breaks rule 16.
pub fn first_exposing_read(w: &Description, placement: [u8; 16]) -> Option<usize>
    ensures { given result ≡ first (breaks16 w.now placement) w.now.edges }
{
    w.edges()
        .iter()
        .position(|e| !e.way.is_write() && exposes(w, placement, *e))
}

// The first edge that breaks rule 17.
pub fn first_exposing_write(w: &Description, placement: [u8; 16]) -> Option<usize>
    ensures { given result ≡ first (breaks17 w.now placement) w.now.edges }
{
    w.edges()
        .iter()
        .position(|e| e.way.is_write() && exposes(w, placement, *e))
}

// Position b has cloud k and may not have it: for a block, bit k of its byte m is not set; past the last of the n blocks, k is not 0. The
// byte is passed by value: if it lay in a lent array, the proof would not know that it is less than 256.
fn is_bad(n: usize, m: u8, b: usize, k: u8) -> bool
    ensures { result ≡ not (cond (ltb b n) (ltb k 8 && bit m k) (eqb k 0)) }
{
    if n <= b {
        return k != 0;
    }
    if MASK_BITS <= k {
        return true;
    }
    (m >> k) % 2 != 1
}

fn first_bad_position(choices: &Choices<'_>, placement: [u8; 16]) -> Option<usize>
    ensures { given result ≡ first (bad_position choices.now placement) positions }
{
    let n = choices.description().block_count();
    let masks = choices.masks();
    for b in 0..POSITIONS {
        if is_bad(n, masks[b], b, placement[b]) {
            return Some(b);
        }
    }
    None
}

// Positions first, then rule 16, then rule 17, then the pairs.
pub fn verdict(choices: &Choices<'_>, placement: [u8; 16]) -> Verdict
    ensures { judge_answer result ≡ judge choices.now placement }
{
    let w = choices.description();
    let (fault, place) = if let Some(b) = first_bad_position(choices, placement) {
        (Fault::NoCandidate, b)
    } else if let Some(n) = first_exposing_read(w, placement) {
        (Fault::ReadExposes, n)
    } else if let Some(n) = first_exposing_write(w, placement) {
        (Fault::WriteExposes, n)
    } else if let Some(n) = first_broken(w, placement) {
        (Fault::PairMeets, n)
    } else {
        return Verdict::Secure;
    };
    Verdict::Refused(Refusal { fault, place })
}
