// Where a placement has a block, and whether an edge moves its datum.
#![tactic(auto)]

ghost use Rattle.std.specs.Prelude.{◌≡◌, get_or};
ghost use Rattle.security.specs.Placements.{moves};

use description::workflow::Edge;

// The cloud of block b; past the sixteenth position it is 0.
pub fn cloud_of(placement: [u8; 16], b: usize) -> u8
    ensures { result ≡ get_or placement b 0 }
{
    placement.get(b).copied().unwrap_or(0)
}

// The edge's service and datum stand on different clouds.
#[tactic(auto, using(security::proofs::Equations::moves_of))]
pub fn moves(placement: [u8; 16], e: Edge) -> bool
    ensures { result ≡ moves placement e }
{
    cloud_of(placement, usize::from(e.service)) != cloud_of(placement, usize::from(e.datum))
}
