// The theory of helping, on a small machine with any number of workers, locks, words and sheets. No code: nothing here runs.
#![tactic(auto)]
