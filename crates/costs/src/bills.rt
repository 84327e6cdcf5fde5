// The bills of placements. An amount is a rate of a cloud times a quantity of a block: both are written down once, for any number of bills.
ghost use Rattle.std.specs.Prelude.{◌≡◌, map, length, ◌≤◌, ◌<◌, ◌*◌};
ghost use Rattle.description.specs.Invariants.{WellFormed};
ghost use Rattle.sequences.specs.Arrays.{AllBelow};
ghost use Rattle.sequences.specs.Lists.{sum};
ghost use Rattle.costs.specs.Cost.{bill_of, cost};
ghost use Rattle.costs.specs.Prices.{most_amount, column_of, rates_of, quantities_of, amount_by, blocks_by, copy_by};

use crate::answers::{Bill, Charge};
use crate::cost::{charged_of, months_of, units_of};
use description::workflow::{Description, Edge};
use std::marker::Model;

// A row of one number for each charge.
const CHARGES: usize = 3;

// A row for each of eight clouds, and one for each of sixteen blocks.
pub const RATES: usize = 24;

pub const QUANTITIES: usize = 48;

pub type Rates = [u16; RATES];

pub type Quantities = [u32; QUANTITIES];

// The clouds of the blocks. It is lent: passed by value, it would be copied for every edge.
pub type Placement = [u8; 16];

// The place of a charge in a row.
fn column_of(charge: Charge) -> usize
    ensures value { result ≡ column_of charge }
    ensures upper_bound { result < 3 }
{
    match charge {
        Charge::Storage => 0,
        Charge::Copy => 1,
        Charge::Cpu => 2,
    }
}

// The rates of the declared clouds, for each charge.
pub fn rates_of(w: &Description) -> Rates
    ensures { result ≡ rates_of w.now }
{
    let mut rates = [0u16; RATES];
    for (k, cloud) in w.clouds().iter().enumerate() {
        rates[CHARGES * k] = cloud.storage;
        rates[CHARGES * k + 1] = cloud.storage;
        rates[CHARGES * k + 2] = cloud.cpu;
    }
    rates
}

// The quantities of the declared blocks, for each charge.
pub fn quantities_of(w: &Description) -> Quantities
    ensures { result ≡ quantities_of w.now }
{
    let mut quantities = [0u32; QUANTITIES];
    for (b, block) in w.blocks().iter().enumerate() {
        quantities[CHARGES * b] = months_of(block.kind) as u32;
        quantities[CHARGES * b + 1] = charged_of(block.kind) as u32;
        quantities[CHARGES * b + 2] = units_of(block.kind) as u32;
    }
    quantities
}

// The highest rate times the highest quantity is far below 2^64.
fn amount(rate: u16, quantity: u32) -> u64
    ensures value { result ≡ rate * quantity }
    ensures upper_bound { result ≤ most_amount }
{
    u64::from(rate) * u64::from(quantity)
}

// A description, on loan, with its rates and quantities.
#[derive(Drop)]
pub struct Prices<'a> {
    description: &'a Description,
    rates: Rates,
    quantities: Quantities,
}

impl<'a> Model for Prices<'a> {
    ghost use Rattle.std.specs.Prelude.{◌≡◌};
    ghost use Rattle.description.specs.Declarations.{Description};
    ghost use Rattle.costs.specs.Prices.{rates_of, quantities_of};

    ghost Value = { Description };

    ghost view = { λ p. p.description.now };

    ghost invariant = { λ p. (p.rates ≡ rates_of p.description.now) × (p.quantities ≡ quantities_of p.description.now) };
}

impl<'a> Prices<'a> {
    pub fn of(description: &'a Description) -> Prices<'a>
        ensures { result ≡ description.now }
    {
        Prices {
            description,
            rates: rates_of(description),
            quantities: quantities_of(description),
        }
    }

    fn description(&self) -> &Description
        ensures { result.now ≡ self.now }
    {
        self.description
    }

    // What block b is charged on cloud k.
    fn amount_at(&self, charge: Charge, k: usize, b: usize) -> u64
        requires { (k < 8) × (b < 16) }
        ensures value { result ≡ amount_by (rates_of self.now) (quantities_of self.now) charge k b }
        ensures upper_bound { result ≤ most_amount }
    {
        let column = column_of(charge);
        amount(
            self.rates[CHARGES * k + column],
            self.quantities[CHARGES * b + column],
        )
    }

    // One charge for all blocks, on their clouds.
    fn blocks_cost(&self, charge: Charge, placement: &Placement) -> u64
        requires { AllBelow 8 placement.now }
        ensures value { result
            ≡ blocks_by (rates_of self.now) (quantities_of self.now) charge (length self.now.blocks) placement.now }
        ensures upper_bound { result ≤ 16 * most_amount }
    {
        let n = self.description().block_count();
        let mut total: u64 = 0;
        for b in 0..n {
            total += self.amount_at(charge, usize::from(placement[b]), b);
        }
        total
    }

    // What the copy on an edge is charged. It is worked out even if there is none: a branch around it would be guessed wrong every other time.
    fn copy_cost(&self, placement: &Placement, e: Edge) -> u64
        requires { (e.service < 16) × (e.datum < 16) × AllBelow 8 placement.now }
        ensures value { result ≡ copy_by (rates_of self.now) (quantities_of self.now) placement.now e }
        ensures upper_bound { result ≤ most_amount }
    {
        let here = placement[usize::from(e.service)];
        let there = placement[usize::from(e.datum)];
        let copy = self.amount_at(Charge::Copy, usize::from(here), usize::from(e.datum));
        if here == there { 0 } else { copy }
    }

    // All copies that the placement makes.
    fn copies_cost(&self, placement: &Placement) -> u64
        requires well_formed { WellFormed self.now }
        requires all_below { AllBelow 8 placement.now }
        ensures value { result
            ≡ sum (map (copy_by (rates_of self.now) (quantities_of self.now) placement.now) self.now.edges) }
        ensures upper_bound { result ≤ 32 * most_amount }
    {
        let mut total: u64 = 0;
        for e in self.description().edges() {
            total += self.copy_cost(placement, *e);
        }
        total
    }

    // The bill of a placement whose cost is known, as every row's is: what storage and computing leave of the cost is for the transfers.
    pub fn bill_by(&self, placement: &Placement, whole: u64) -> Bill
        requires well_formed { WellFormed self.now }
        requires all_below { AllBelow 8 placement.now × (whole ≡ cost self.now placement.now) }
        ensures { result ≡ bill_of self.now placement.now }
    {
        let stored = self.blocks_cost(Charge::Storage, placement);
        let storage = stored + self.copies_cost(placement);
        let cpu = self.blocks_cost(Charge::Cpu, placement);
        Bill {
            storage,
            transfer: whole - storage - cpu,
            cpu,
        }
    }
}

// The same for one placement.
pub fn bill_of(w: &Description, placement: &Placement, whole: u64) -> Bill
    requires well_formed { WellFormed w.now }
    requires all_below { AllBelow 8 placement.now × (whole ≡ cost w.now placement.now) }
    ensures { result ≡ bill_of w.now placement.now }
{
    Prices::of(w).bill_by(placement, whole)
}
