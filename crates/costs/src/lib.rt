// What a placement costs.
#![tactic(auto)]

pub mod answers;
pub mod bills;
pub mod cost;
pub mod terms;
