// What a step on lent numbers looks at, and the moves of its worker: each reads or writes just the numbers that it names, and its contract
// is their definition.
#![tactic(auto)]

pub mod looks;
pub mod moves;
