// No code: what is promised of recorded calls, and its proof.
#![tactic(auto)]
