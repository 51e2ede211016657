// A session: the walk over a script, a line at a time. Each line is read, the call that it names is made on the engine, and what
// the call told is put as text.
#![tactic(auto)]

pub mod obey;
pub mod reply_text;
pub mod walk;
