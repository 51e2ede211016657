// Histories: the calls that were made, and the state after them. No code.
#![tactic(auto)]
