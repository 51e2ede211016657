// The state as numbers that a caller lends: each piece is read and written in place. Of a whole piece a contract gives the numbers
// exactly, and the state that they say (`unpack`); of one number of a worker, the numbers alone.
// That the numbers are enough stands at each function here and above: callers may lend more than a state takes, which `[u32; NUMBERS]` would
// not let them, and what is written through a struct around the slice is not known of the slice once the struct is gone. A step reads between
// its writes, so its readers take the slice too, and with it the worker that it steps.
#![tactic(auto)]

ghost use Rattle.std.specs.Prelude.{◌≡◌, ◌≤◌, ◌<◌, length};
ghost use Rattle.parts.specs.Numbers.{workers};
ghost use Rattle.parts.specs.Parts.{register_of};
ghost use Rattle.engine.specs.State.{blank_of, lock_count, word_count};
ghost use Rattle.cells.specs.Codes.{at_register};
ghost use Rattle.cells.specs.Layout.{numbers, worker_used, unpack, number_at, run_now, read_now, seen_now, put_number, put_idle, put_sizes, blanked};
ghost use Rattle.cells.specs.State.{with_sizes};

pub mod codes;
pub mod piece;
pub mod worker;

use crate::worker::{FILLED, IDLE, LOCK, OWN, Row, STEPS, TAG};
use parts::{ENTRIES, LOCKS, LockWord, Reading, SHEETS, WORDS, WORKERS};
use steps::{Run, Worker};

// From one piece to the next; the head has L and W. Every width leaves room.
pub const HEAD_WIDTH: usize = 4;

pub const WORKER_WIDTH: usize = 16;

pub const LOCK_WIDTH: usize = 4;

pub const WORD_WIDTH: usize = 4;

pub const SHEET_WIDTH: usize = 4;

pub const INSTR_WIDTH: usize = 2;

pub const ENTRY_WIDTH: usize = 4;

// Where the pieces of each kind begin, one kind after the other.
pub const WORKER_BASE: usize = HEAD_WIDTH;

pub const LOCK_BASE: usize = WORKER_BASE + WORKERS * WORKER_WIDTH;

pub const WORD_BASE: usize = LOCK_BASE + LOCKS * LOCK_WIDTH;

pub const SHEET_BASE: usize = WORD_BASE + WORDS * WORD_WIDTH;

pub const INSTR_BASE: usize = SHEET_BASE + SHEETS * SHEET_WIDTH;

pub const ENTRY_BASE: usize = INSTR_BASE + ENTRIES * INSTR_WIDTH;

// How many numbers a state takes.
pub const NUMBERS: usize = ENTRY_BASE + ENTRIES * ENTRY_WIDTH;

// The blank state; the numbers past it stay.
pub fn blank(s: &mut [u32])
    requires { numbers ≤ length s.old }
    ensures { (s.new ≡ blanked s.old) × (unpack s.new ≡ blank_of) }
{
    s[..NUMBERS].fill(0);
}

// L as it stands, a byte.
#[tactic(auto, unfolding(crate::specs::Layout::unpack))]
fn lock_number(s: &[u32]) -> u8
    requires { numbers ≤ length s.now }
    ensures { result ≡ (unpack s.now).locks }
{
    codes::byte(s[0])
}

// W as it stands, a byte.
#[tactic(auto, unfolding(crate::specs::Layout::unpack))]
fn word_number(s: &[u32]) -> u8
    requires { numbers ≤ length s.now }
    ensures { result ≡ (unpack s.now).words }
{
    codes::byte(s[1])
}

// How many locks there are, and how many words.
pub fn lock_count(s: &[u32]) -> usize
    requires { numbers ≤ length s.now }
    ensures { result ≡ lock_count (unpack s.now) }
{
    engine::read::lock_count(lock_number(s))
}

pub fn word_count(s: &[u32]) -> usize
    requires { numbers ≤ length s.now }
    ensures { result ≡ word_count (unpack s.now) }
{
    engine::read::word_count(word_number(s))
}

pub fn put_sizes(s: &mut [u32], l: u8, w: u8)
    requires { numbers ≤ length s.old }
    ensures { (s.new ≡ put_sizes s.old l w) × (unpack s.new ≡ with_sizes (unpack s.old) l w) }
{
    codes::write(s, 0, &[u32::from(l), u32::from(w)]);
}

// Number j of worker w as it stands, and written.
#[tactic(auto, unfolding(crate::specs::Layout::number_at))]
pub fn get_number(s: &[u32], w: usize, j: usize) -> u32
    requires { (numbers ≤ length s.now) × (w < workers) × (j < worker_used) }
    ensures { result ≡ number_at s.now w j }
{
    s[WORKER_BASE + w * WORKER_WIDTH + j]
}

#[tactic(auto, unfolding(crate::specs::Layout::put_number))]
pub fn put_number(s: &mut [u32], w: usize, j: usize, x: u32)
    requires { (numbers ≤ length s.old) × (w < workers) × (j < worker_used) }
    ensures { s.new ≡ put_number s.old w j x }
{
    s[WORKER_BASE + w * WORKER_WIDTH + j] = x;
}

// Worker w is idle.
#[tactic(auto, unfolding(crate::specs::Layout::put_idle))]
pub fn put_idle(s: &mut [u32], w: usize)
    requires { (numbers ≤ length s.old) × (w < workers) }
    ensures { s.new ≡ put_idle s.old w }
{
    put_number(s, w, TAG, IDLE);
    put_number(s, w, LOCK, 0);
    put_number(s, w, OWN, 0);
    put_number(s, w, STEPS, 0);
    put_number(s, w, FILLED, 0);
}

// Register i of worker w's run.
#[tactic(auto, using(crate::proofs::Row::register_read))]
pub fn get_register(s: &[u32], w: usize, i: u8) -> u32
    requires { (numbers ≤ length s.now) × (w < workers) }
    ensures { result ≡ register_of (run_now s.now w).registers i }
{
    get_number(s, w, worker::at_register(i))
}

pub fn put_register(s: &mut [u32], w: usize, i: u8, x: u32)
    requires { (numbers ≤ length s.old) × (w < workers) }
    ensures { s.new ≡ put_number s.old w (at_register i) x }
{
    put_number(s, w, worker::at_register(i), x);
}

// What worker w's numbers say of a run, of a reading and of a lock word seen, whatever the tag.
#[tactic(auto, unfolding(crate::specs::Layout::run_now))]
pub fn get_run(s: &[u32], w: usize) -> Run
    requires { (numbers ≤ length s.now) × (w < workers) }
    ensures { result ≡ run_now s.now w }
{
    let at = WORKER_BASE + w * WORKER_WIDTH;
    Row { s, at }.run()
}

#[tactic(auto, unfolding(crate::specs::Layout::read_now))]
pub fn get_reading(s: &[u32], w: usize) -> Reading
    requires { (numbers ≤ length s.now) × (w < workers) }
    ensures { result ≡ read_now s.now w }
{
    let at = WORKER_BASE + w * WORKER_WIDTH;
    Row { s, at }.reading()
}

#[tactic(auto, unfolding(crate::specs::Layout::seen_now))]
pub fn get_seen(s: &[u32], w: usize) -> LockWord
    requires { (numbers ≤ length s.now) × (w < workers) }
    ensures { result ≡ seen_now s.now w }
{
    let at = WORKER_BASE + w * WORKER_WIDTH;
    Row { s, at }.seen()
}
