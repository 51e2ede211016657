// The engine's loops over its arrays: how they are filled. Each contract gives the result whole, by a definition of specs/.
#![tactic(auto)]

pub mod laid;
