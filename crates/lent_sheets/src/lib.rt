// Lent numbers read as the state that they say (`reads`), and the marks of the sheets in use: sheets' marks, set from the numbers in place. Of a
// worker only its tag and its two sheets are read, which is why the marks are not set by a walk over whole pieces, as they are by value.
#![tactic(auto)]

ghost use Rattle.std.specs.Prelude.{◌≡◌, ◌<◌, ◌≤◌, length};
ghost use Rattle.parts.specs.Numbers.{workers};
ghost use Rattle.sheets.specs.Marks.{lock_marks, worker_marks, all_mark, marks_of};
ghost use Rattle.engine.specs.State.{worker_at};
ghost use Rattle.cells.specs.Layout.{numbers, unpack};
ghost use Rattle.lent_sheets.specs.Two.{helped_in, two_marks};

pub mod reads;

use cells::codes;
use cells::piece::Piece;
use cells::worker::{IDLE, OWN, READ_MARK, RELEASE, SHEET, TAG};
use parts::{LOCKS, LockWord, WORKERS};

// Marks the sheets that the locks name.
fn mark_locks(s: &[u32], marks: u32) -> u32
    requires { numbers ≤ length s.now }
    ensures { result ≡ all_mark lock_marks marks (unpack s.now).lock }
{
    let mut m = marks;
    for j in 0..LOCKS {
        let l = LockWord::get(s, j);
        m = sheets::mark_holder(m, l.holder);
    }
    m
}

// The sheet that a worker under way helps, or runs: by its tag, and its number for a sheet.
#[tactic(auto, unfolding(crate::specs::Two::helped_in))]
fn helped(tag: u32, sheet: u32) -> Option<u8>
    ensures { result ≡ helped_in tag sheet }
{
    if tag < READ_MARK {
        return None;
    }
    if tag == READ_MARK {
        return codes::holder_of(sheet);
    }
    Some(codes::byte(sheet))
}

// Marks what worker w, which is under way, has: its own sheet, and the one that it helps.
#[tactic(auto, unfolding(crate::specs::Two::two_marks))]
fn mark_two(s: &[u32], w: usize, tag: u32, marks: u32) -> u32
    requires { (numbers ≤ length s.now) × (w < workers) }
    ensures { result ≡ two_marks marks s.now w tag }
{
    let own = codes::byte(cells::get_number(s, w, OWN));
    let first = sheets::mark(marks, own);
    let sheet = cells::get_number(s, w, SHEET);
    sheets::mark_holder(first, helped(tag, sheet))
}

// Marks what worker w has.
#[tactic(auto, using(crate::proofs::Two::idle_marks, crate::proofs::Two::way_marks, crate::proofs::Two::end_marks))]
fn mark_worker(s: &[u32], w: usize, marks: u32) -> u32
    requires { (numbers ≤ length s.now) × (w < workers) }
    ensures { result ≡ worker_marks marks (worker_at (unpack s.now) w) }
{
    let tag = cells::get_number(s, w, TAG);
    if tag == IDLE {
        return marks;
    }
    if tag <= RELEASE {
        return mark_two(s, w, tag, marks);
    }
    marks
}

// Marks the sheets that the workers have.
fn mark_workers(s: &[u32], marks: u32) -> u32
    requires { numbers ≤ length s.now }
    ensures { result ≡ all_mark worker_marks marks (unpack s.now).worker }
{
    let mut m = marks;
    for j in 0..WORKERS {
        m = mark_worker(s, j, m);
    }
    m
}

// The marks: a sheet is marked where a lock names it or a worker has it.
#[tactic(auto, unfolding(sheets::specs::Marks::marks_of))]
fn marks_of(s: &[u32]) -> u32
    requires { numbers ≤ length s.now }
    ensures { result ≡ marks_of (unpack s.now).lock (unpack s.now).worker }
{
    let named = mark_locks(s, 0);
    mark_workers(s, named)
}
