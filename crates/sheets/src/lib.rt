// Which sheets are in use, by one number with a binary digit for each sheet, and the free one with the lowest number.
#![tactic(auto)]

ghost use Rattle.std.specs.Prelude.{◌<◌, ◌-◌, ◌≡◌};
ghost use Rattle.parts.specs.Numbers.{sheets};
ghost use Rattle.sheets.specs.Sheets.{lowest_of};
ghost use Rattle.sheets.specs.Marks.{marked_of, sheet_marks, holder_marks, worker_marks, marks_of};

use parts::{LOCKS, LockWord, SHEETS, WORKERS};
use steps::{State, Worker};

// The sheet with the highest number.
const LAST: u32 = SHEETS as u32 - 1;

// Marks sheet s; a number that is no sheet's marks nothing.
#[tactic(auto, using(crate::proofs::Laws::shifted), unfolding(crate::specs::Marks::sheet_marks))]
pub fn mark(marks: u32, s: u8) -> u32
    ensures { result ≡ sheet_marks marks s }
{
    if usize::from(s) < SHEETS {
        marks | (1 << u32::from(s))
    } else {
        marks
    }
}

// Is sheet s marked?
#[tactic(auto, using(crate::proofs::Laws::tested))]
pub fn marked(marks: u32, s: u8) -> bool
    requires { s < sheets }
    ensures { result ≡ marked_of marks s }
{
    (marks >> u32::from(s)) & 1 == 1
}

// Marks the sheet that is named, if one is.
#[tactic(auto, unfolding(crate::specs::Marks::holder_marks))]
pub fn mark_holder(marks: u32, h: Option<u8>) -> u32
    ensures { result ≡ holder_marks marks h }
{
    match h {
        None => marks,
        Some(s) => mark(marks, s),
    }
}

// Marks what a worker under way has: its own sheet, and the one that it helps.
#[tactic(auto, unfolding(crate::specs::Marks::worker_marks))]
fn mark_worker(marks: u32, k: Worker) -> u32
    ensures { result ≡ worker_marks marks k }
{
    match k.state {
        State::UnderWay(p) => mark_holder(mark(marks, k.own), p.helped()),
        State::Idle | State::Finished(_) => marks,
    }
}

// The marks: a sheet is marked where a lock names it or a worker has it.
pub fn marks_of(locks: &[LockWord; LOCKS], workers: &[Worker; WORKERS]) -> u32
    ensures { result ≡ marks_of locks.now workers.now }
{
    let named = locks
        .iter()
        .fold(0, |marks, lock| mark_holder(marks, lock.holder));
    workers
        .iter()
        .fold(named, |marks, worker| mark_worker(marks, *worker))
}

// The lowest that is not marked; the last, marked or not, where the others are.
pub fn lowest_unmarked(marks: u32) -> u8
    ensures { result ≡ lowest_of (marked_of marks) 0 (sheets - 1) }
{
    marks.trailing_ones().min(LAST) as u8
}
