// Begin: its order of refusals, and what an accepted begin does.
ghost use Rattle.std.specs.Prelude.{◌≡◌, ◌<◌, ◌≤◌, ◌+◌, ◌*◌, length};
ghost use Rattle.arrays.specs.Fresh.{guards_of};
ghost use Rattle.parts.specs.Numbers.{workers, most_locks, sheets, instructions};
ghost use Rattle.parts.specs.Parts.{worn_of};
ghost use Rattle.parts.specs.Told.{first_of, refuse_if};
ghost use Rattle.parts.specs.declared.Refusal.TheVariants.{LastTurn};
ghost use Rattle.records.specs.Job.{job_told};
ghost use Rattle.engine.specs.State.{words_of, lock_at};
ghost use Rattle.engine.specs.Calls.{lock_order, begin_told, begun_of, taken_of, begin_of};
ghost use Rattle.engine.specs.Inner.{Begins, Walked};

use crate::reads::Reads;
use crate::{Engine, Sheet, reads};
use parts::{INSTRUCTIONS, Refusal, WORDS, WORKERS};

// The guard of each word.
fn guards_of<S: Reads>(s: &S) -> [u8; WORDS]
    requires { Walked (S.says s.now) }
    ensures { result ≡ guards_of (S.says s.now).word }
{
    let mut out = [0; WORDS];
    for j in 0..WORDS {
        out[j] = s.word(j).guard;
    }
    out
}

// Refusals 5 to 8: is this a job for this lock?
fn job_told<S: Reads>(s: &S, lock: u32, rec: &[u8]) -> Result<(), Refusal>
    ensures { result ≡ job_told rec.now lock (guards_of (words_of (S.says s.now))) }
{
    let n = s.word_count();
    records::job::job_told(rec, lock, &guards_of(s)[..n])
}

// Refusal 9.
#[tactic(auto, unfolding(parts::specs::Parts::worn_of))]
fn worn_told<S: Reads>(s: &S, lock: usize) -> Result<(), Refusal>
    requires { lock < most_locks }
    ensures { result ≡ refuse_if (worn_of (lock_at (S.says s.now) lock)) LastTurn }
{
    if s.lock(lock).worn() {
        return Err(Refusal::LastTurn);
    }
    Ok(())
}

// Refusals 2 and 5 to 9.
fn lock_told<S: Reads>(s: &S, lock: u32, rec: &[u8]) -> Result<(), Refusal>
    ensures { result ≡ first_of (lock_order (S.says s.now) lock rec.now) }
{
    let i = lock as usize;
    if s.lock_count() <= i {
        return Err(Refusal::NoLock);
    }
    job_told(s, lock, rec)?;
    worn_told(s, i)
}

// Every refusal of begin, in its order.
#[tactic(auto, unfolding(crate::specs::Calls::begin_told))]
pub fn begin_told<S: Reads>(s: &S, w: u32, lock: u32, rec: &[u8]) -> Result<(), Refusal>
    ensures { result ≡ begin_told (S.says s.now) w lock rec.now }
{
    let i = w as usize;
    if WORKERS <= i {
        return Err(Refusal::NoWorker);
    }
    s.may_begin(i)?;
    lock_told(s, lock, rec)
}

impl Engine {
    // Sheet s has the job, an empty log and no mark; worker w is to look at its lock.
    #[tactic(auto, using(records::proofs::Laws::part_end, records::proofs::Fours::instrs_length), unfolding(crate::specs::Calls::begun_of))]
    fn begun(&mut self, w: usize, lock: u8, rec: &[u8], s: u8)
        requires { (w < workers) × (s < sheets) × (8 ≤ length rec.now) × (length rec.now ≤ 4 + 4 * instructions) }
        ensures { self.new ≡ begun_of self.old w lock rec.now s }
    {
        let i = usize::from(s);
        let base = i * INSTRUCTIONS;
        let code = &rec[4..];
        arrays::laid::program_emptied(&mut self.program, base);
        arrays::laid::program_laid(&mut self.program, base, code);
        arrays::laid::log_emptied(&mut self.entry, base);
        self.sheet[i] = Sheet {
            length: (code.len() / 4) as u8,
            done: false,
        };
        self.worker[w] = self.worker[w].begin(lock, s);
    }

    // The free sheet with the lowest number is taken for the job.
    #[tactic(auto, using(sheets::proofs::Lowest::taken_one, crate::proofs::Begins::job_size))]
    fn taken(&mut self, w: u32, lock: u32, rec: &[u8])
        requires { Begins self.old w lock rec.now }
        ensures { self.new ≡ taken_of self.old w lock rec.now }
    {
        let s = reads::free_sheet(self);
        self.begun(w as usize, lock as u8, rec, s);
    }

    // Worker w is under way with this job on this lock. Refused: 1, 3 or 4, 2, 5, 6, 5, the lowest faulty instruction, 9.
    #[tactic(auto, using(crate::proofs::Begins::begins_by), unfolding(crate::specs::Calls::begin_of))]
    pub fn begin(&mut self, w: u32, lock: u32, rec: &[u8]) -> Result<(), Refusal>
        ensures value { result ≡ (begin_of self.old w lock rec.now).told }
        ensures after { self.new ≡ (begin_of self.old w lock rec.now).engine }
    {
        begin_told(self, w, lock, rec)?;
        self.taken(w, lock, rec);
        Ok(())
    }
}
