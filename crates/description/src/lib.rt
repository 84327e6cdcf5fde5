// A description: its clouds, blocks, edges and pairs, put in and looked up.
#![tactic(auto)]

pub mod workflow;
