// The security rules: which blocks and edges a description may declare, where a block may stand, and whether a placement is secure.
#![tactic(auto)]

pub mod answers;
