// Pairs of data that must never meet: the first that a cloud holds together.
#![tactic(auto)]

ghost use Rattle.std.specs.Prelude.{◌≡◌, ◌<◌, ◌&&◌, eqb, get_or};
ghost use Rattle.sequences.specs.Lists.{first};
ghost use Rattle.sequences.specs.Options.{given};
ghost use Rattle.security.specs.HeldClouds.{marked, held_by};
ghost use Rattle.security.specs.Placements.{together};

use description::workflow::{Description, MOST_CLOUDS};
use placements::cloud_of;

// Marks a cloud, if it is one of the possible ones.
fn mark(held: &mut [u8; MOST_CLOUDS], cloud: u8)
    ensures { held.new ≡ marked held.old cloud }
{
    let k = usize::from(cloud);
    if k < MOST_CLOUDS {
        held[k] = 1;
    }
}

// The clouds that hold datum n: its own, and those of the services on its edges. A service that stands elsewhere has a copy; one that does
// not is on the datum's own cloud. So there is no need to test whether an edge makes a transfer.
fn clouds_holding(w: &Description, placement: [u8; 16], n: usize) -> [u8; MOST_CLOUDS]
    ensures { result ≡ held_by w.now placement n }
{
    let mut held = [0u8; MOST_CLOUDS];
    mark(&mut held, cloud_of(placement, n));
    for e in w.edges() {
        if usize::from(e.datum) == n {
            mark(&mut held, cloud_of(placement, usize::from(e.service)));
        }
    }
    held
}

// Cloud k is marked in both.
fn in_both(left: [u8; MOST_CLOUDS], right: [u8; MOST_CLOUDS], k: usize) -> bool
    requires { k < 8 }
    ensures { result ≡ (eqb (get_or left k 0) 1 && eqb (get_or right k 0) 1) }
{
    left[k] == 1 && right[k] == 1
}

// The first broken pair: the loops end at the first cloud that holds both data of a pair.
fn first_together(w: &Description, placement: [u8; 16]) -> Option<usize>
    ensures { given result ≡ first (together w.now placement) w.now.pairs }
{
    let clouds = w.cloud_count();
    let mut broken = None;
    'pairs: for (i, pair) in w.pairs().iter().enumerate() {
        let left = clouds_holding(w, placement, usize::from(pair.left));
        let right = clouds_holding(w, placement, usize::from(pair.right));
        for k in 0..clouds {
            if in_both(left, right, k) {
                broken = Some(i);
                break 'pairs;
            }
        }
    }
    broken
}

// The same; most descriptions have no pairs, and this is short enough to be inlined.
pub fn first_broken(w: &Description, placement: [u8; 16]) -> Option<usize>
    ensures { given result ≡ first (together w.now placement) w.now.pairs }
{
    if w.pairs().is_empty() {
        return None;
    }
    first_together(w, placement)
}
