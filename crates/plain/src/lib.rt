// The plain engine of the bench: a job record run at once on two lent tables, the words' values and their guards, under any lock number. Only
// values are written. The job runs by `alone`, which calls itself on what remains of the program after each instruction.
#![tactic(auto)]

ghost use Rattle.std.specs.Prelude.{◌≡◌};
ghost use Rattle.plain.specs.Plain.{plain_told, plain_of, plain_left};

use alone::Ran;
use parts::{Refusal, WORDS};

// Refused: 16 (tables of different lengths, or of more than 64 words), then 5, 6, 7 and 8 as in begin.
#[tactic(auto, unfolding(crate::specs::Plain::plain_told))]
fn told(values: &[u32], guards: &[u8], lock: u32, rec: &[u8]) -> Result<(), Refusal>
    ensures { result ≡ plain_told values.now guards.now lock rec.now }
{
    if values.len() != guards.len() || WORDS < values.len() {
        return Err(Refusal::NoWord);
    }
    records::job::job_told(rec, lock, guards)
}

// Runs the job of a record: its answer, and how many instructions it executed. Refused: 16, 5, 6, 5, the lowest faulty instruction (7
// before 8 there); a refused call changes nothing.
#[tactic(auto, using(crate::proofs::Laws::accepted_four, records::proofs::Laws::part_end), unfolding(crate::specs::Plain::plain_of, crate::specs::Plain::plain_left))]
pub fn run(values: &mut [u32], guards: &[u8], lock: u32, rec: &[u8]) -> Result<Ran, Refusal>
    ensures value { result ≡ plain_of values.old guards.now lock rec.now }
    ensures values_after { values.new ≡ plain_left values.old guards.now lock rec.now }
    ensures guards_stay { guards.exit.now ≡ guards.entry.now }
{
    told(values, guards, lock, rec)?;
    Ok(alone::run(&rec[4..], values))
}
