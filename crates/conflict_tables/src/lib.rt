// The blocks that may not share a cloud: one is a block of the one datum of a pair, the other a block of the other datum.
#![tactic(auto)]

ghost use Rattle.std.specs.Prelude.{◌≡◌, ◌<◌, replicate};
ghost use Rattle.std.specs.List.{All, list_any};
ghost use Rattle.description.specs.Invariants.{WellFormed};
ghost use Rattle.security.specs.Conflicts.{is_holder, conflict_by, conflicts};
ghost use Rattle.table_entries.specs.Building.{Listed, Served, is_conflict, conflict_list, conflicts_of};

use description::workflow::{Description, MOST_BLOCKS, Pair};
use visit::tables::{CONFLICTS, EXCHANGES};

// The table of conflicts: how many there are, and room for each two of sixteen blocks.
const CONFLICT_BYTES: usize = EXCHANGES - CONFLICTS;

// Which blocks hold which data: a datum's own block, and the services of its edges.
#[derive(Drop)]
struct Holders<'a> {
    description: &'a Description,
    // At the number of a datum, whether each block is the service of one of its edges.
    served: [[bool; MOST_BLOCKS]; MOST_BLOCKS],
    ghost pairs_low: { All (λ a. (a.left < 16) × (a.right < 16)) description.now.pairs },
    ghost marked: { Served description.now.edges served },
}

impl<'a> Holders<'a> {
    #[tactic(auto, using(crate::proofs::Pairs::pairs_low))]
    fn new(w: &'a Description) -> Holders<'a>
        requires well_formed { WellFormed w.now }
        ensures { result.description.now ≡ w.now }
    {
        let mut served = [[false; MOST_BLOCKS]; MOST_BLOCKS];
        for e in w.edges() {
            served[usize::from(e.datum)][usize::from(e.service)] = true;
        }
        Holders {
            description: w,
            served,
        }
    }

    // Datum n lies on the cloud of block u.
    fn is_holder(&self, n: usize, u: usize) -> bool
        requires n_bound { n < 16 }
        requires u_bound { u < 16 }
        ensures { result ≡ is_holder self.now.description.now n u }
    {
        u == n || self.served[n][u]
    }

    fn conflict_by(&self, a: Pair, u: usize, v: usize) -> bool
        requires left_bound { a.left < 16 }
        requires right_bound { a.right < 16 }
        requires u_bound { u < 16 }
        requires v_bound { v < 16 }
        ensures { result ≡ conflict_by self.now.description.now u v a }
    {
        self.is_holder(usize::from(a.left), u) && self.is_holder(usize::from(a.right), v)
    }

    // Some of these pairs has u on its left and v on its right side.
    fn conflict_in(&self, pairs: &[Pair], u: usize, v: usize) -> bool
        requires low { All (λ a. (a.left < 16) × (a.right < 16)) pairs.now }
        requires u_bound { u < 16 }
        requires v_bound { v < 16 }
        ensures { result ≡ list_any (conflict_by self.now.description.now u v) pairs.now }
    {
        pairs.iter().any(|a| self.conflict_by(*a, u, v))
    }

    // The same of all pairs.
    fn conflict(&self, u: usize, v: usize) -> bool
        requires u_bound { u < 16 }
        requires v_bound { v < 16 }
        ensures { result ≡ conflicts self.now.description.now u v }
    {
        self.conflict_in(self.description.pairs(), u, v)
    }

    // Blocks both / 16 and both % 16 conflict; of two blocks the later one is first.
    fn is_conflict(&self, both: usize) -> bool
        requires both_bound { both < 256 }
        ensures { result ≡ is_conflict self.now.description.now both }
    {
        let u = both / MOST_BLOCKS;
        let v = both % MOST_BLOCKS;
        v <= u && (self.conflict(u, v) || self.conflict(v, u))
    }

    // Lists the conflicts, and returns how many there are.
    fn list_conflicts(&self, a: &mut [u8]) -> usize
        requires a_value { a.old ≡ replicate 136 0 }
        ensures { Listed 136 (conflict_list self.now.description.now) a.new result }
    {
        let mut m = 0;
        for both in 0..self.description.block_count() * MOST_BLOCKS {
            if self.is_conflict(both) {
                a[m] = both as u8;
                m += 1;
            }
        }
        m
    }
}

// Most descriptions have no pairs, and so no conflicts.
pub fn fill_conflicts(w: &Description, a: &mut [u8])
    requires well_formed { WellFormed w.now }
    requires a_value { a.old ≡ replicate 137 0 }
    ensures { a.new ≡ conflicts_of w.now }
{
    if w.pairs().is_empty() {
        return;
    }
    let n = Holders::new(w).list_conflicts(&mut a[1..CONFLICT_BYTES]);
    a[0] = n as u8;
}
