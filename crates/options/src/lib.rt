// Which placements are one option, and which of them represents it: definitions and their laws, and no code.
#![tactic(auto)]
