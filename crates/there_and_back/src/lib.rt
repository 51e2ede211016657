// Records there and back: show and begin, park and setup. No code.
#![tactic(auto)]
