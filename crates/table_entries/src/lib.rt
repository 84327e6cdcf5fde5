// What each entry of the tables is that a walk over placements takes: definitions and their laws, and no code.
#![tactic(auto)]
