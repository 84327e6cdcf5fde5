// Bill: what a secure placement costs, and by which parts.
#![tactic(auto)]

ghost use Rattle.std.specs.Prelude.{◌≡◌, map, ◌*◌, ◌^◌, ◌≤◌, length, get_or};
ghost use Rattle.sequences.specs.Lists.{below, sum};
ghost use Rattle.costs.specs.Cost.{edge_cost, cost};
ghost use Rattle.costs.specs.Terms.{block_term};
ghost use Rattle.billing.specs.Answers.{bill_answer};
ghost use Rattle.billing.specs.Calls.{bill_call};
ghost use Rattle.billing.specs.Charges.{rate_between, charge_between, most_rate, most_edge};

use costs::answers::Bill;
use costs::bills::bill_of;
use costs::cost::charged_of;
use costs::terms::block_term;
use description::workflow::{Cloud, Description, Edge, Kind, Way};
use judging::acceptance::secured;
use placements::{cloud_of, moves};
use refusals::Refusal;

// The cost of a placement, and the three amounts that add up to it.
#[derive(Clone, Copy, Debug, PartialEq, Eq)]
pub struct Price {
    pub cost: u64,
    pub bill: Bill,
}

// What a gigabyte pays to leave one cloud and enter the other.
fn moved_rate(way: Way, service: Cloud, datum: Cloud) -> u64
    ensures value { result ≡ rate_between way service datum }
    ensures upper_bound { result ≤ most_rate }
{
    match way {
        Way::Reads => u64::from(datum.outward) + u64::from(service.inward),
        Way::Writes => u64::from(service.outward) + u64::from(datum.inward),
    }
}

// A transfer between these clouds, and the copy that it leaves with the service for a month.
fn transfer_charge(way: Way, service: Cloud, datum: Cloud, kind: Kind) -> u64
    ensures value { result ≡ charge_between way service datum kind }
    ensures upper_bound { result ≤ most_edge }
{
    let gigabytes = charged_of(kind);
    moved_rate(way, service, datum) * gigabytes + u64::from(service.storage) * gigabytes
}

// What an edge adds to the cost: nothing if its service and its datum stand on one cloud.
#[tactic(auto, using(crate::proofs::Costs::edge_stays, crate::proofs::Costs::edge_moves))]
fn edge_cost(w: &Description, placement: [u8; 16], e: Edge) -> u64
    ensures value { result ≡ edge_cost w.now placement e }
    ensures upper_bound { result ≤ most_edge }
{
    if !moves(placement, e) {
        return 0;
    }
    let service = w.cloud_at(usize::from(cloud_of(placement, usize::from(e.service))));
    let datum = w.cloud_at(usize::from(cloud_of(placement, usize::from(e.datum))));
    let block = w.block_at(usize::from(e.datum));
    transfer_charge(e.way, service, datum, block.kind)
}

// All edges.
fn edges_cost(w: &Description, placement: [u8; 16]) -> u64
    ensures value { result ≡ sum (map (edge_cost w.now placement) w.now.edges) }
    ensures upper_bound { result ≤ 32 * most_edge }
{
    let mut total = 0;
    for e in w.edges() {
        total += edge_cost(w, placement, *e);
    }
    total
}

// All blocks where they stand: storage of the data, computing of the services.
fn blocks_cost(w: &Description, placement: [u8; 16]) -> u64
    ensures value { result
        ≡ sum (map (λ b. block_term w.now b (get_or placement b 0)) (below (length w.now.blocks))) }
    ensures upper_bound { result ≤ 16 * 2 ^ 49 }
{
    let mut total = 0;
    for b in 0..w.block_count() {
        total += block_term(w, b, usize::from(cloud_of(placement, b)));
    }
    total
}

// What any placement costs, a row or not.
fn cost_of(w: &Description, placement: [u8; 16]) -> u64
    ensures { result ≡ cost w.now placement }
{
    blocks_cost(w, placement) + edges_cost(w, placement)
}

// Bill: what Read refuses, then what Judge refuses; otherwise the cost of the placement and its bill.
#[tactic(auto, unfolding(crate::specs::Calls::bill_call))]
pub fn bill(description: &[u8], placement: [u8; 16]) -> Result<Price, Refusal>
    ensures { bill_answer result ≡ bill_call description.now placement }
{
    let mut w = Description::new();
    secured(description, placement, &mut w)?;
    let cost = cost_of(&w, placement);
    let bill = bill_of(&w, &placement, cost);
    Ok(Price { cost, bill })
}
