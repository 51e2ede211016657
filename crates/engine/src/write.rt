// Show and park: they fill the first bytes of a lent buffer and tell how many; the bytes after them don't change.
ghost use Rattle.std.specs.Prelude.{◌≡◌, ◌<◌, ◌≤◌, ◌+◌, ◌*◌, ◌%◌, [], ◌∷◌, length, take, drop};
ghost use Rattle.parts.specs.Lay.{lay};
ghost use Rattle.parts.specs.Numbers.{sheets, instructions, entries, most_locks, most_words};
ghost use Rattle.records.specs.Bytes.{header};
ghost use Rattle.records.specs.Job.{job_record};
ghost use Rattle.records.specs.Setup.{setup_kind, setup_length};
ghost use Rattle.engine.specs.State.{program_length, lock_count, word_count, sheet_record, record_of, state_record};
ghost use Rattle.engine.specs.Calls.{show_told, show_of, shown_of, park_told, park_of, parked_of};
ghost use Rattle.engine.specs.Inner.{Walked};
ghost use Rattle.engine.specs.Written.{fields_of};

use crate::reads::Reads;
use crate::{Engine, loops, reads};
use parts::{INSTRUCTIONS, Refusal, SHEETS};

// How many instructions a sheet has.
pub fn instruction_count(n: u8) -> usize
    ensures { result ≡ n % (instructions + 1) }
{
    usize::from(n) % (INSTRUCTIONS + 1)
}

// The order for show: 14, 13.
#[tactic(auto, unfolding(crate::specs::Calls::show_told))]
fn show_told<S: Reads>(s: &S, sheet: usize, room: usize) -> Result<(), Refusal>
    ensures { result ≡ show_told (S.says s.now) sheet room }
{
    if SHEETS <= sheet || !reads::in_use(s, sheet) {
        return Err(Refusal::SheetFree);
    }
    if room < 4 + 4 * s.program_length(sheet) {
        return Err(Refusal::Buffer);
    }
    Ok(())
}

// The job record of the n instructions from `base` on.
#[tactic(auto, using(crate::proofs::Written::program_size, crate::proofs::Written::program_laid))]
fn put_program<S: Reads>(s: &S, base: usize, n: usize, buf: &mut [u8]) -> usize
    requires { Walked (S.says s.now) × (n ≤ instructions) × (base + n ≤ entries) × (4 + 4 * n ≤ length buf.old) }
    ensures value { result ≡ length (job_record (take n (drop base (S.says s.now).program))) }
    ensures buf_after { buf.new ≡ lay 0 (job_record (take n (drop base (S.says s.now).program))) buf.old }
{
    let size = 4 + 4 * n;
    records::put_header(buf, size, records::job::kind_for(n));
    loops::put_code(s, base, n, buf, 4);
    size
}

// The job record of a sheet.
fn put_job<S: Reads>(s: &S, sheet: usize, buf: &mut [u8]) -> usize
    requires { (sheet < sheets) × (4 + 4 * program_length (S.says s.now) sheet ≤ length buf.old) }
    ensures value { result ≡ length (sheet_record (S.says s.now) sheet) }
    ensures buf_after { buf.new ≡ lay 0 (sheet_record (S.says s.now) sheet) buf.old }
{
    let n = s.program_length(sheet);
    put_program(s, sheet * INSTRUCTIONS, n, buf)
}

// The job record of a sheet in use. Refused: 14, 13.
#[tactic(auto, using(crate::proofs::Written::show_room), unfolding(crate::specs::Calls::show_of, crate::specs::Calls::shown_of))]
pub fn show<S: Reads>(s: &S, sheet: u32, buf: &mut [u8]) -> Result<usize, Refusal>
    ensures value { result ≡ show_of (S.says s.now) sheet (length buf.old) }
    ensures buf_after { buf.new ≡ shown_of (S.says s.now) sheet buf.old }
{
    let i = sheet as usize;
    show_told(s, i, buf.len())?;
    Ok(put_job(s, i, buf))
}

// The first six bytes of a setup record: its header, L and W.
#[tactic(auto, using(crate::proofs::Written::sizes_laid))]
pub fn put_sizes(l: usize, w: usize, buf: &mut [u8])
    requires { (l ≤ most_locks) × (w ≤ most_words) × (6 ≤ length buf.old) }
    ensures { buf.new ≡ lay 0 (header (setup_length l w) setup_kind (l ∷ w ∷ [])) buf.old }
{
    records::put_header(buf, 6 + 5 * w + 4 * l, 2);
    buf[4] = l as u8;
    buf[5] = w as u8;
}

// What follows them: the guards and the values of the first w words, and the turns of the first l locks.
#[tactic(auto, using(crate::proofs::Written::fields_laid))]
fn put_fields<S: Reads>(s: &S, w: usize, l: usize, buf: &mut [u8])
    requires { Walked (S.says s.now) × (l ≤ most_locks) × (w ≤ most_words) × (setup_length l w ≤ length buf.old) }
    ensures { buf.new ≡ lay 6 (fields_of (take w (S.says s.now).word) (take l (S.says s.now).lock)) buf.old }
{
    loops::put_guards(s, w, buf, 6);
    loops::put_values(s, w, buf, 6 + w);
    loops::put_turns(s, l, buf, 6 + 5 * w);
}

// The setup record of the first w words and the first l locks.
#[tactic(auto, using(crate::proofs::Written::setup_size, crate::proofs::Written::setup_laid))]
fn put_setup<S: Reads>(s: &S, w: usize, l: usize, buf: &mut [u8]) -> usize
    requires { Walked (S.says s.now) × (l ≤ most_locks) × (w ≤ most_words) × (setup_length l w ≤ length buf.old) }
    ensures value { result ≡ length (record_of (take w (S.says s.now).word) (take l (S.says s.now).lock)) }
    ensures buf_after { buf.new ≡ lay 0 (record_of (take w (S.says s.now).word) (take l (S.says s.now).lock)) buf.old }
{
    put_sizes(l, w, buf);
    put_fields(s, w, l, buf);
    6 + 5 * w + 4 * l
}

// The order for park: 12, 15, 13.
#[tactic(auto, unfolding(crate::specs::Calls::park_told))]
fn park_told<S: Reads>(s: &S, room: usize) -> Result<(), Refusal>
    ensures { result ≡ park_told (S.says s.now) room }
{
    let l = s.lock_count();
    let w = s.word_count();
    if l == 0 {
        return Err(Refusal::Range(4));
    }
    loops::held_told(s, l)?;
    if room < 6 + 5 * w + 4 * l {
        return Err(Refusal::Buffer);
    }
    Ok(())
}

// The setup record of the present values and turns.
fn put_state<S: Reads>(s: &S, buf: &mut [u8]) -> usize
    requires { setup_length (lock_count (S.says s.now)) (word_count (S.says s.now)) ≤ length buf.old }
    ensures value { result ≡ length (state_record (S.says s.now)) }
    ensures buf_after { buf.new ≡ lay 0 (state_record (S.says s.now)) buf.old }
{
    let l = s.lock_count();
    let w = s.word_count();
    put_setup(s, w, l, buf)
}

// The setup record of the present values and turns. Refused: 12 on the blank state, 15 with the lowest held lock, 13.
#[tactic(auto, using(crate::proofs::Written::park_room), unfolding(crate::specs::Calls::park_of, crate::specs::Calls::parked_of))]
pub fn park<S: Reads>(s: &S, buf: &mut [u8]) -> Result<usize, Refusal>
    ensures value { result ≡ park_of (S.says s.now) (length buf.old) }
    ensures buf_after { buf.new ≡ parked_of (S.says s.now) buf.old }
{
    park_told(s, buf.len())?;
    Ok(put_state(s, buf))
}

impl Engine {
    // The job record of a sheet in use. Refused: 14, 13.
    pub fn show(&self, sheet: u32, buf: &mut [u8]) -> Result<usize, Refusal>
        ensures value { result ≡ show_of self.now sheet (length buf.old) }
        ensures buf_after { buf.new ≡ shown_of self.now sheet buf.old }
    {
        show(self, sheet, buf)
    }

    // The setup record of the present values and turns. Refused: 12 on the blank state, 15 with the lowest held lock, 13.
    pub fn park(&self, buf: &mut [u8]) -> Result<usize, Refusal>
        ensures value { result ≡ park_of self.now (length buf.old) }
        ensures buf_after { buf.new ≡ parked_of self.now buf.old }
    {
        park(self, buf)
    }
}
