// A file of recorded calls: a setup record, then call records. Each call is made on the engine, and a line is put of what it told.
#![tactic(auto)]

pub mod make;
pub mod walk;
