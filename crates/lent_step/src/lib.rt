// Step, in place on numbers that a caller lends: by the worker's tag, straight to the numbers that the point looks at and changes.
#![tactic(auto)]

ghost use Rattle.std.specs.Prelude.{◌≡◌, ◌≤◌, length};
ghost use Rattle.engine.specs.Calls.{step_of};
ghost use Rattle.cells.specs.Layout.{numbers, unpack};
ghost use Rattle.lent_step.specs.Points.{step_numbers};

mod points;

use cells::worker::{
    COMMIT, GRAB, IDLE, LOOK, LOOK_AGAIN, MARK, READ, READ_MARK, RELEASE, SWAP, TAG,
};
use parts::{Refusal, WORKERS};

// One step of worker w's try. Refused: 1, 11, 4. Each point is written again on numbers, since it touches only the numbers that it changes: a
// step on a whole `View` took six times the instructions. A match on the tag, which a caller's numbers hold; no closure is there.
pub fn step(s: &mut [u32], w: u32) -> Result<(), Refusal>
    requires { numbers ≤ length s.old }
    ensures value { result ≡ (step_of (unpack s.old) w).told }
    ensures s_after { s.new ≡ step_numbers s.old w }
    ensures unpacked { unpack s.new ≡ (step_of (unpack s.old) w).engine }
{
    let i = w as usize;
    if WORKERS <= i {
        return Err(Refusal::NoWorker);
    }
    let tag = cells::get_number(s, i, TAG);
    match tag {
        IDLE => Err(Refusal::WorkerIdle),
        LOOK => points::look(s, i),
        GRAB => points::grab(s, i),
        LOOK_AGAIN => points::look_again(s, i),
        READ_MARK => points::read_mark(s, i),
        READ => points::read(s, i),
        COMMIT => points::commit(s, i),
        SWAP => points::swap(s, i),
        MARK => points::mark(s, i),
        RELEASE => points::release(s, i),
        _ => Err(Refusal::NotCollected),
    }
}
