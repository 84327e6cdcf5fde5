// The format: which bytes declare what, and which are refused with 1 to 8. Definitions and their laws, and no code.
#![tactic(auto)]
