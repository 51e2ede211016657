// Call records: which are accepted, the reader that hands them out, and the writer.
#![tactic(auto)]

pub mod kind;
pub mod reader;
pub mod record;
pub mod write;
