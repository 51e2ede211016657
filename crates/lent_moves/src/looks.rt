// What a step looks at, read off the numbers. Each is the definition of specs/Looks.antt that it names.
ghost use Rattle.std.specs.Prelude.{◌≡◌, ◌+◌, ◌*◌, ◌%◌, ◌<◌, ◌≤◌, length};
ghost use Rattle.parts.specs.Instr.{over_of};
ghost use Rattle.parts.specs.Numbers.{workers, most_locks, most_words, sheets, entries};
ghost use Rattle.parts.specs.Parts.{reading_of};
ghost use Rattle.cells.specs.Layout.{numbers};
ghost use Rattle.lent_moves.specs.Looks.{own_now, lock_place, registers_now, instr_now, word_place, word_now, entry_place, answer_now, sum_now, difference_now};

use cells::codes;
use cells::piece::Piece;
use cells::worker::{LOCK, NEW, OWN};
use parts::{Answer, Instr, LOCKS, Reading, SHEETS, WORDS, Word};

// The worker's own sheet.
#[tactic(auto, using(crate::proofs::Seen::own_is))]
pub fn own(s: &[u32], w: usize) -> u8
    requires { (numbers ≤ length s.now) × (w < workers) }
    ensures { result ≡ own_now s.now w }
{
    codes::byte(cells::get_number(s, w, OWN))
}

// Where its lock stands.
#[tactic(auto, using(crate::proofs::Seen::lock_is))]
pub fn lock_place(s: &[u32], w: usize) -> usize
    requires { (numbers ≤ length s.now) × (w < workers) }
    ensures { (result ≡ lock_place s.now w) × (result < most_locks) }
{
    let lock = codes::byte(cells::get_number(s, w, LOCK));
    usize::from(lock) % LOCKS
}

// Where a sheet stands.
pub fn sheet_place(sheet: u8) -> usize
    ensures { (result ≡ sheet % sheets) × (result < sheets) }
{
    usize::from(sheet) % SHEETS
}

// The instruction that the run is at.
#[tactic(auto, unfolding(crate::specs::Looks::instr_now))]
pub fn instr(s: &[u32], w: usize) -> Instr
    requires { (numbers ≤ length s.now) × (w < workers) }
    ensures { result ≡ instr_now s.now w }
{
    let run = cells::get_run(s, w);
    let j = engine::step::instr_at(run.spot());
    Instr::get(s, j)
}

// Where its log entry stands.
pub fn entry_place(s: &[u32], w: usize) -> usize
    requires { (numbers ≤ length s.now) × (w < workers) }
    ensures { (result ≡ entry_place s.now w) × (result < entries) }
{
    let run = cells::get_run(s, w);
    engine::step::entry_at(run.spot())
}

// Where the word stands that an instruction names, and what is read of it.
pub fn word_place(i: Instr) -> usize
    ensures { (result ≡ word_place i) × (result < most_words) }
{
    usize::from(i.word()) % WORDS
}

pub fn reading(s: &[u32], i: Instr) -> Reading
    requires { numbers ≤ length s.now }
    ensures { result ≡ reading_of (word_now s.now i) }
{
    Word::get(s, word_place(i)).reading()
}

// Set's constant; the sum and the difference of registers a and b; how many instructions a skip passes over.
pub fn constant(i: Instr) -> u32
    ensures { result ≡ i.b + 256 * i.c }
{
    u32::from(i.b) + 256 * u32::from(i.c)
}

pub fn sum(s: &[u32], w: usize, i: Instr) -> u32
    requires { (numbers ≤ length s.now) × (w < workers) }
    ensures { result ≡ sum_now s.now w i }
{
    let x = cells::get_register(s, w, i.a);
    let y = cells::get_register(s, w, i.b);
    x.wrapping_add(y)
}

pub fn difference(s: &[u32], w: usize, i: Instr) -> u32
    requires { (numbers ≤ length s.now) × (w < workers) }
    ensures { result ≡ difference_now s.now w i }
{
    let x = cells::get_register(s, w, i.a);
    let y = cells::get_register(s, w, i.b);
    x.wrapping_sub(y)
}

#[tactic(auto, unfolding(parts::specs::Instr::over_of))]
pub fn over(s: &[u32], w: usize, i: Instr) -> u8
    requires { (numbers ≤ length s.now) × (w < workers) }
    ensures { result ≡ over_of i (registers_now s.now w) }
{
    let x = cells::get_register(s, w, i.a);
    let y = cells::get_register(s, w, i.b);
    if x == y { i.c } else { 0 }
}

// What the end of the run tells its worker.
pub fn answer(s: &[u32], w: usize) -> Answer
    requires { (numbers ≤ length s.now) × (w < workers) }
    ensures { result ≡ answer_now s.now w }
{
    let run = cells::get_run(s, w);
    let o = own(s, w);
    let said = codes::flag(cells::get_number(s, w, NEW));
    steps::trying::answer(run, o, said)
}
