// Collect, drop and the two readers, in place on numbers that a caller lends. Collect's and drop's contracts give what is told,
// the numbers at exit exactly, and the state that they say; a reader's, what is told.
#![tactic(auto)]

ghost use Rattle.std.specs.Prelude.{◌≡◌, ◌≤◌, ◌<◌, length};
ghost use Rattle.engine.specs.Calls.{collect_of, drop_of, read_word_of, read_lock_of};
ghost use Rattle.parts.specs.Numbers.{workers};
ghost use Rattle.cells.specs.Layout.{numbers, unpack, put_idle};
ghost use Rattle.lent.specs.Calls.{handed_out, collect_numbers, drop_numbers};

use cells::codes;
use cells::worker::{FILLED, IDLE, NEW, RELEASE, STEPS, TAG};
use engine::{Answered, reads};
use lent_sheets::reads::Lent;
use parts::{LockWord, Refusal, WORKERS, Word};

// What worker w, which has finished, has to hand out; it is idle then.
#[tactic(auto, unfolding(crate::specs::Calls::handed_out))]
fn hand_out(s: &mut [u32], w: usize) -> Result<Answered, Refusal>
    requires { (numbers ≤ length s.old) × (w < workers) }
    ensures value { result ≡ handed_out s.old w }
    ensures s_after { s.new ≡ put_idle s.old w }
{
    let new = cells::get_number(s, w, NEW);
    let steps = cells::get_number(s, w, STEPS);
    let filled = cells::get_number(s, w, FILLED);
    cells::put_idle(s, w);
    let answer = codes::answer_of(new);
    Ok(Answered {
        answer,
        steps,
        filled,
    })
}

// The answer of worker w's try, its steps and the entries that it filled; the worker is idle. Refused: 1, 11, 3.
pub fn collect(s: &mut [u32], w: u32) -> Result<Answered, Refusal>
    requires { numbers ≤ length s.old }
    ensures value { result ≡ (collect_of (unpack s.old) w).told }
    ensures s_after { s.new ≡ collect_numbers s.old w }
    ensures unpacked { unpack s.new ≡ (collect_of (unpack s.old) w).engine }
{
    let i = w as usize;
    if WORKERS <= i {
        return Err(Refusal::NoWorker);
    }
    let tag = cells::get_number(s, i, TAG);
    if tag == IDLE {
        return Err(Refusal::WorkerIdle);
    }
    if tag <= RELEASE {
        return Err(Refusal::WorkerUnderWay);
    }
    hand_out(s, i)
}

// Worker w is idle; a held lock stays held. Refused: 1, 11.
pub fn drop(s: &mut [u32], w: u32) -> Result<(), Refusal>
    requires { numbers ≤ length s.old }
    ensures value { result ≡ (drop_of (unpack s.old) w).told }
    ensures s_after { s.new ≡ drop_numbers s.old w }
    ensures unpacked { unpack s.new ≡ (drop_of (unpack s.old) w).engine }
{
    let i = w as usize;
    if WORKERS <= i {
        return Err(Refusal::NoWorker);
    }
    let tag = cells::get_number(s, i, TAG);
    if tag == IDLE {
        return Err(Refusal::WorkerIdle);
    }
    cells::put_idle(s, i);
    Ok(())
}

// A word's value, count and guard. Refused: 16.
pub fn read_word(s: &[u32], word: u32) -> Result<Word, Refusal>
    requires { numbers ≤ length s.now }
    ensures { result ≡ read_word_of (unpack s.now) word }
{
    reads::read_word(&Lent { s }, word)
}

// A lock's turn and the sheet that holds it, if any. Refused: 2.
pub fn read_lock(s: &[u32], lock: u32) -> Result<LockWord, Refusal>
    requires { numbers ≤ length s.now }
    ensures { result ≡ read_lock_of (unpack s.now) lock }
{
    reads::read_lock(&Lent { s }, lock)
}
