// A job record of a book, which is held against no lock: 5, 6 and 7.
ghost use Rattle.std.specs.Prelude.{◌≡◌, ◌≤◌, length};
ghost use Rattle.records.specs.Job.{instrs_of, job_of};
ghost use Rattle.book.specs.Formed.{instr_formed, code_formed, formed_told};

use parts::{Instr, Refusal};
use records::job::{faulty, form_told, lowest};

// One instruction, which `left` others follow.
fn instr_formed(i: Instr, place: usize, left: usize) -> Result<(), Refusal>
    ensures { result ≡ instr_formed i place left }
{
    if faulty(i, left) {
        return Err(Refusal::Instruction(place));
    }
    Ok(())
}

// The lowest faulty instruction.
fn code_formed(code: &[u8]) -> Result<(), Refusal>
    ensures { result ≡ code_formed (instrs_of code.now) 0 }
{
    lowest(code, instr_formed)
}

// A job record, whatever words it names.
#[tactic(auto, unfolding(crate::specs::Formed::formed_told), using(records::proofs::Form::form_four))]
pub fn formed_told(rec: &[u8]) -> Result<(), Refusal>
    ensures { result ≡ formed_told rec.now }
{
    form_told(rec)?;
    code_formed(&rec[4..])
}
