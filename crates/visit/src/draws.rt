// A walk that draws: the first row that is not before a floor.
ghost use Rattle.std.specs.Prelude.{◌≡◌};
ghost use Rattle.visit.specs.Lent.{tests_in};
ghost use Rattle.visit.specs.Visits.{passes};

use crate::conflicts::is_apart;
use crate::rowtest::stands;
use crate::tables::Tables;
use crate::{Met, Visitor};
use weights::COST_LIMIT;

// What is above every row, and stands for the best row as long as there is none: so that one comparison tells most placements.
pub const NONE: Met = Met {
    weight: COST_LIMIT,
    place: 0,
};

// No row before the floor is wanted. The best row so far, or `NONE`; with another one to begin with, only rows before it are wanted.
#[derive(Clone, Copy)]
pub struct Draw {
    pub floor: Met,
    pub best: Met,
}

// No two blocks in conflict share a cloud, and the placement represents its option.
fn passes(tables: &Tables<'_>, place: u64) -> bool
    ensures { result ≡ passes (tests_in tables.now place) }
{
    is_apart(tables, place) && stands(tables, place)
}

impl Draw {
    ghost use Rattle.visit.specs.Visits.{to_draw, found, wanted, drawn};

    pub fn new(floor: Met) -> Self
        ensures { result ≡ to_draw floor.weight floor.place }
    {
        Draw { floor, best: NONE }
    }

    // The best row, if there is one.
    pub fn found(&self) -> Option<Met>
        ensures { result ≡ found self.now }
    {
        if self.best.weight == COST_LIMIT {
            return None;
        }
        Some(self.best)
    }

    // The row is not before the floor, and comes before the best so far.
    fn is_wanted(&self, met: Met) -> bool
        ensures { result ≡ wanted self.now met.weight met.place }
    {
        self.floor <= met && met < self.best
    }

    // The placement becomes the best row so far if it is wanted, no two blocks in conflict share a cloud, and it represents its option.
    // A call, so that the walk's loop keeps its registers for the placements that are not looked at.
    #[inline(never)]
    #[tactic(auto, unfolding(crate::specs::Visits::drawn))]
    fn draw(&mut self, tables: &Tables<'_>, met: Met)
        ensures { self.new ≡ drawn met.weight met.place (tests_in tables.now met.place) self.old }
    {
        if self.is_wanted(met) && passes(tables, met.place) {
            self.best = met;
        }
    }
}

impl Visitor for Draw {
    ghost use Rattle.std.proofs.Common.{arith};
    ghost use Rattle.visit.specs.Visits.{drawn};

    ghost tally = { λ d. 0 };

    ghost see = { drawn };

    ghost counts_few = { λ w p t d. omega arith };

    // Most placements cost more than the best: that is seen here, and only the others are looked at.
    #[tactic(auto, using(crate::proofs::Orders::not_earlier), unfolding(crate::specs::Visits::drawn))]
    fn meet(&mut self, tables: &Tables<'_>, met: Met) {
        if self.best.weight < met.weight {
            return;
        }
        self.draw(tables, met);
    }
}
