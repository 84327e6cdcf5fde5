// A walk that counts, and one that keeps the rows as well.
ghost use Rattle.std.specs.Prelude.{◌≡◌, ◌<◌, ◌&&◌};
ghost use Rattle.weights.specs.Numbers.{class_number};
ghost use Rattle.weights.specs.Weights.{is_unexposed};
ghost use Rattle.visit.specs.Visits.{count_limit, class_at, passes, with_row};
ghost use Rattle.visit.specs.Lent.{tests_in};

use crate::conflicts::is_apart;
use crate::rowtest::stands;
use crate::tables::Tables;
use crate::{Met, Visitor};
use weights::{COST_LIMIT, Class, class_of};

// How many placements of each class, and how many rows.
#[derive(Clone, Copy)]
pub struct Count {
    pub secure: u64,
    pub breaks_first: u64,
    pub breaks_second: u64,
    pub clashes: u64,
    pub rows: u64,
}

// The rows as well, two words each in lent memory, as far as they fit.
#[derive(Drop)]
pub struct Keep<'a> {
    pub count: Count,
    pub keys: &'a mut [u64],
}

// The class of a placement. Conflicts are looked at only if no edge breaks a rule.
fn class_at(tables: &Tables<'_>, met: Met) -> Class
    ensures { class_number result ≡ class_at met.weight (tests_in tables.now met.place) }
{
    if COST_LIMIT <= met.weight {
        return class_of(met.weight);
    }
    if is_apart(tables, met.place) {
        return Class::Secure;
    }
    Class::Clashes
}

// A placement, whose class it is, is a row if it is secure and passes the row test.
fn is_row(tables: &Tables<'_>, class: Class, met: Met) -> bool
    requires { class_number class ≡ class_at met.weight (tests_in tables.now met.place) }
    ensures { result ≡ (is_unexposed met.weight && passes (tests_in tables.now met.place)) }
{
    match class {
        Class::Secure => stands(tables, met.place),
        _ => false,
    }
}

// The row goes after the n rows before it, if the lent words have room for it.
#[tactic(auto, unfolding(crate::specs::Visits::with_row))]
fn put_row(n: u64, met: Met, keys: &mut [u64])
    requires { n < count_limit }
    ensures { keys.new ≡ with_row n met.weight met.place keys.old }
{
    let at = (n * 2) as usize;
    if keys.len() < at + 2 {
        return;
    }
    keys[at] = met.weight;
    keys[at + 1] = met.place;
}

impl Count {
    ghost use Rattle.visit.specs.Visits.{tally, one_more, counted, to_count};

    pub fn new() -> Self
        ensures { result ≡ to_count }
    {
        Count {
            secure: 0,
            breaks_first: 0,
            breaks_second: 0,
            clashes: 0,
            rows: 0,
        }
    }

    // One more of a class.
    fn count_class(&mut self, class: Class)
        requires { tally self.old < count_limit }
        ensures { self.new ≡ one_more (class_number class) self.old }
    {
        match class {
            Class::Secure => self.secure += 1,
            Class::BreaksFirst => self.breaks_first += 1,
            Class::BreaksSecond => self.breaks_second += 1,
            Class::Clashes => self.clashes += 1,
        }
    }

    // One more of the placement's class, and if it is a row, one more row; says whether it is one.
    #[tactic(auto, unfolding(crate::specs::Visits::counted))]
    fn count(&mut self, tables: &Tables<'_>, met: Met) -> bool
        requires { tally self.old < count_limit }
        ensures after { self.new ≡ counted met.weight met.place (tests_in tables.now met.place) self.old }
        ensures row { result ≡ (is_unexposed met.weight && passes (tests_in tables.now met.place)) }
    {
        let class = class_at(tables, met);
        self.count_class(class);
        let is_row = is_row(tables, class, met);
        if is_row {
            self.rows += 1;
        }
        is_row
    }
}

impl Visitor for Count {
    ghost use Rattle.visit.specs.Visits.{tally, counted};
    ghost use Rattle.visit.specs.Laws.{counted-few};

    ghost tally = { tally };

    ghost see = { counted };

    ghost counts_few = { counted-few };

    fn meet(&mut self, tables: &Tables<'_>, met: Met) {
        self.count(tables, met);
    }
}

impl<'a> Visitor for Keep<'a> {
    ghost use Rattle.visit.specs.Visits.{tally, kept};
    ghost use Rattle.visit.specs.Laws.{counted-few};

    ghost tally = { λ k. tally k.count };

    ghost see = { kept };

    ghost counts_few = { λ w p t k. counted-few w p t k.count };

    #[tactic(auto, unfolding(crate::specs::Visits::keep_row))]
    fn meet(&mut self, tables: &Tables<'_>, met: Met) {
        let rows = self.count.rows;
        if self.count.count(tables, met) {
            put_row(rows, met, self.keys);
        }
    }
}
