// A placement's cost and what it breaks, in one number: its weight. The numbers are named here for all code.
#![tactic(auto)]

ghost use Rattle.std.specs.Prelude.{◌≡◌};
ghost use Rattle.weights.specs.Numbers.{class_number};
ghost use Rattle.weights.specs.Weights.{class_of};

// 2^53, which is above every cost.
pub const COST_LIMIT: u64 = 9007199254740992;

// More than there can be edges.
pub const RADIX: u64 = 33;

// What an edge adds if it breaks the rule that is looked for first, and if it breaks the other: 33 times 2^53.
pub const FIRST_PENALTY: u64 = COST_LIMIT;

pub const SECOND_PENALTY: u64 = 297237575406452736;

// How many kinds of placements are counted.
pub const CLASSES: usize = 4;

// The kinds of placements that are counted. The weight does not show the last one: such placements break what no single edge decides.
#[derive(Clone, Copy, Debug, PartialEq, Eq)]
pub enum Class {
    Secure,
    BreaksFirst,
    BreaksSecond,
    Clashes,
}

// The class of a placement, by its weight alone.
#[tactic(auto, unfolding(crate::specs::Weights::class_of))]
pub fn class_of(weight: u64) -> Class
    ensures { class_number result ≡ class_of weight }
{
    if weight < COST_LIMIT {
        return Class::Secure;
    }
    if weight / COST_LIMIT % RADIX == 0 {
        return Class::BreaksSecond;
    }
    Class::BreaksFirst
}
