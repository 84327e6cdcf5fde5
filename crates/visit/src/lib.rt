// What is done at a placement that a walk meets: it is counted, or counted and kept if it is a row, or it may be the row that is drawn. Blocks,
// clouds and edges are only numbers here, each with what it adds to a placement's weight.
#![tactic(auto)]

ghost use Rattle.std.specs.Prelude.{◌≡◌, ℕ, ◌+◌, ◌≤◌, ◌<◌};
ghost use Rattle.visit.specs.Tables.{Tests};

pub mod conflicts;
pub mod counts;
pub mod draws;
pub mod rowtest;
pub mod tables;

use tables::Tables;

// A placement: its weight, and the clouds of its blocks as digits to the base 8.
#[derive(Clone, Copy, PartialEq, Eq, PartialOrd, Ord)]
pub struct Met {
    pub weight: u64,
    pub place: u64,
}

// What is asked of a walk, and what it found so far. `see` says what one more placement changes; `tally` is the sum of all that is counted.
pub trait Visitor {
    ghost use Rattle.visit.specs.Visits.{counter_count, count_limit};
    ghost use Rattle.visit.specs.Lent.{tests_in};

    ghost tally: { Self → ℕ };

    ghost see: { (weight place : ℕ) → Tests → Self → Self };

    fn meet(&mut self, tables: &Tables<'_>, met: Met)
        requires room { tally self.old < count_limit }
        ensures { self.new ≡ see met.weight met.place (tests_in tables.now met.place) self.old };

    // A placement adds at most one to each counter.
    ghost counts_few: { (weight place : ℕ) (t : Tests) (v : Self) → tally (see weight place t v) ≤ tally v + counter_count };
}
