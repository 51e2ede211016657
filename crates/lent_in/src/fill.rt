// What an accepted setup does, and an accepted begin.
ghost use Rattle.std.specs.Prelude.{◌≡◌, ◌+◌, ◌*◌, ◌≤◌, ◌<◌, length};
ghost use Rattle.parts.specs.Numbers.{workers, sheets, instructions};
ghost use Rattle.records.specs.Inner.{Sized};
ghost use Rattle.steps.specs.Worker.{looking_of, begin_by_state};
ghost use Rattle.engine.specs.Calls.{begun_of};
ghost use Rattle.engine.specs.Inner.{Begins};
ghost use Rattle.engine.specs.State.{worker_at};
ghost use Rattle.cells.specs.Layout.{numbers, unpack};
ghost use Rattle.lent_in.specs.Calls.{filled_numbers, filled_of, copied_numbers, copied_of, begun_numbers};

use crate::laid;
use cells::piece::Piece;
use engine::Sheet;
use parts::INSTRUCTIONS;
use steps::{Point, State, Worker};

// L and W, the words and the locks of a record that was checked.
pub fn filled(s: &mut [u32], rec: &[u8])
    requires { (numbers ≤ length s.old) × Sized rec.now }
    ensures s_after { s.new ≡ filled_numbers s.old rec.now }
    ensures unpacked { unpack s.new ≡ filled_of (unpack s.old) rec.now }
{
    let n = usize::from(rec[5]);
    let values = 6 + n;
    let turns = 6 + 5 * n;
    cells::put_sizes(s, rec[4], rec[5]);
    laid::words(s, &rec[6..values], &rec[values..turns]);
    laid::locks(s, &rec[turns..]);
}

// A sheet has the job of a record, and an empty log.
fn copied(s: &mut [u32], rec: &[u8], sheet: usize)
    requires { (numbers ≤ length s.old) × (sheet < sheets) × (8 ≤ length rec.now) × (length rec.now ≤ 4 + 4 * instructions) }
    ensures s_after { s.new ≡ copied_numbers s.old rec.now sheet }
    ensures unpacked { unpack s.new ≡ copied_of (unpack s.old) rec.now sheet }
{
    let base = sheet * INSTRUCTIONS;
    laid::no_program(s, base);
    laid::program(s, base, &rec[4..]);
    laid::no_log(s, base);
}

// A worker that is to look at its lock.
fn looking(lock: u8, sheet: u8) -> Worker
    ensures { result ≡ looking_of lock sheet }
{
    Worker {
        state: State::UnderWay(Point::Look),
        lock,
        own: sheet,
        steps: 0,
        filled: 0,
    }
}

// The sheet has the job, an empty log and no mark; worker w, which may begin, is to look at its lock.
fn begun(s: &mut [u32], w: usize, lock: u8, rec: &[u8], sheet: u8)
    requires { (numbers ≤ length s.old) × (w < workers) × (sheet < sheets) × (8 ≤ length rec.now) × (length rec.now ≤ 4 + 4 * instructions) × (begin_by_state (worker_at (unpack s.old) w) ≡ Ok tt) }
    ensures s_after { s.new ≡ begun_numbers s.old w lock rec.now sheet }
    ensures unpacked { unpack s.new ≡ begun_of (unpack s.old) w lock rec.now sheet }
{
    let at = usize::from(sheet);
    copied(s, rec, at);
    let n = ((rec.len() - 4) / 4) as u8;
    let x = Sheet {
        length: n,
        done: false,
    };
    x.put(s, at);
    looking(lock, sheet).put(s, w);
}

// The same, for a begin that found all that it asks for.
pub fn taken(s: &mut [u32], w: u32, lock: u32, rec: &[u8], sheet: u8)
    requires { (numbers ≤ length s.old) × Begins (unpack s.old) w lock rec.now × (sheet < sheets) }
    ensures s_after { s.new ≡ begun_numbers s.old w lock rec.now sheet }
    ensures unpacked { unpack s.new ≡ begun_of (unpack s.old) w lock rec.now sheet }
{
    begun(s, w as usize, lock as u8, rec, sheet);
}
