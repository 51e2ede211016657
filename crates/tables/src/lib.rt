// The example table, and the eight instructions worked. No code.
#![tactic(auto)]
