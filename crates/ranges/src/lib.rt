// The ranges of every state that the calls gave. No code.
#![tactic(auto)]
