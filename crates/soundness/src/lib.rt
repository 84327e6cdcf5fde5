// The rules on the workflow itself, and which clouds cover a label.
#![tactic(auto)]

ghost use Rattle.std.specs.Prelude.{◌≡◌};
ghost use Rattle.sequences.specs.Lists.{first};
ghost use Rattle.sequences.specs.Options.{given};
ghost use Rattle.security.specs.Soundness.{clearance_of, breaks2, breaks3, breaks4, cloud_covers};

pub mod masks;

use description::workflow::{Block, Description, Edge, Kind};
use labels::covers;

fn clearance_of(kind: Kind) -> u8
    ensures { result ≡ clearance_of kind }
{
    match kind {
        Kind::Datum { .. } => 0,
        Kind::Service { clearance, .. } => clearance,
    }
}

#[tactic(auto, using(security::proofs::Equations::breaks2_of))]
fn breaks_rule2(block: &Block) -> bool
    ensures { result ≡ breaks2 block.now }
{
    match block.kind {
        Kind::Datum { .. } => false,
        Kind::Service { clearance, .. } => !covers(clearance, block.label),
    }
}

#[tactic(auto, using(security::proofs::Equations::breaks3_of))]
pub fn breaks_rule3(w: &Description, e: Edge) -> bool
    ensures { result ≡ breaks3 w.now e }
{
    if e.way.is_write() {
        return false;
    }
    let service = w.block_at(usize::from(e.service));
    let datum = w.block_at(usize::from(e.datum));
    !covers(clearance_of(service.kind), datum.label)
}

#[tactic(auto, using(security::proofs::Equations::breaks4_of))]
pub fn breaks_rule4(w: &Description, e: Edge) -> bool
    ensures { result ≡ breaks4 w.now e }
{
    if !e.way.is_write() {
        return false;
    }
    let service = w.block_at(usize::from(e.service));
    let datum = w.block_at(usize::from(e.datum));
    !covers(datum.label, service.label)
}

// The lowest block that breaks rule 2.
pub fn first_breaking_rule2(w: &Description) -> Option<usize>
    ensures { given result ≡ first breaks2 w.now.blocks }
{
    w.blocks().iter().position(|block| breaks_rule2(block))
}

// Cloud k is declared, and its label covers this one: rule 7.
pub fn cloud_covers(w: &Description, label: u8, k: usize) -> bool
    ensures { result ≡ cloud_covers w.now label k }
{
    w.clouds()
        .get(k)
        .is_some_and(|cloud| covers(cloud.label, label))
}
