// What one block and one edge add to a placement's weight, by where their blocks stand.
ghost use Rattle.std.specs.Prelude.{◌≡◌, cond, ◌^◌, ◌≤◌, ◌<◌};
ghost use Rattle.weights.specs.Weights.{second_penalty, term_limit};
ghost use Rattle.costs.specs.Terms.{block_term, penalty, service_side, datum_side};
ghost use Rattle.labels.specs.Labels.{covers};

use crate::cost::{charged_of, cpu_of, storage_of};
use description::workflow::{Block, Cloud, Description, Way};
use labels::covers;
use weights::{FIRST_PENALTY, SECOND_PENALTY};

// What block b is charged on cloud k.
#[tactic(auto, unfolding(crate::specs::Terms::block_term))]
pub fn block_term(w: &Description, b: usize, k: usize) -> u64
    ensures value { result ≡ block_term w.now b k }
    ensures upper_bound { result < 2 ^ 49 }
{
    let cloud = w.cloud_at(k);
    let kind = w.block_at(b).kind;
    storage_of(cloud, kind) + cpu_of(cloud, kind)
}

// What an exposed copy adds to the service's end of its edge.
fn exposed(way: Way, cloud: Cloud, datum: Block) -> u64
    ensures value { result ≡ cond (covers cloud.label datum.label) 0 (penalty way) }
    ensures upper_bound { result ≤ second_penalty }
{
    if covers(cloud.label, datum.label) {
        return 0;
    }
    match way {
        Way::Reads => FIRST_PENALTY,
        Way::Writes => SECOND_PENALTY,
    }
}

// What a gigabyte costs at one end: out of its cloud, or into it.
fn rate_at(out: bool, cloud: Cloud) -> u64
    ensures value { result ≡ cond out cloud.outward cloud.inward }
    ensures upper_bound { result ≤ 65535 }
{
    u64::from(if out { cloud.outward } else { cloud.inward })
}

// What an edge adds by the cloud of its service alone, if its datum stands on another: the rate of its end, and a month of the copy that lies
// there.
#[tactic(auto, unfolding(crate::specs::Terms::service_side))]
pub fn service_side(way: Way, cloud: Cloud, datum: Block) -> u64
    ensures value { result ≡ service_side way cloud datum }
    ensures upper_bound { result < term_limit }
{
    let rate = rate_at(way.is_write(), cloud) + u64::from(cloud.storage);
    rate * charged_of(datum.kind) + exposed(way, cloud, datum)
}

// What it adds by the cloud of its datum alone.
#[tactic(auto, unfolding(crate::specs::Terms::datum_side))]
pub fn datum_side(way: Way, cloud: Cloud, datum: Block) -> u64
    ensures value { result ≡ datum_side way cloud datum }
    ensures upper_bound { result < term_limit }
{
    rate_at(!way.is_write(), cloud) * charged_of(datum.kind)
}
