// Demand 3 and requests 02 and 03, over all histories. No code.
#![tactic(auto)]
