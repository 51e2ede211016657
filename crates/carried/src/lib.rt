// Demands 1 to 3 of the lent engine. No code: nothing here runs.
#![tactic(auto)]
