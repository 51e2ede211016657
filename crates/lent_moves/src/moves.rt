// A worker's moves, straight on its numbers: only those that change are written. Each is the definition of specs/Moves.antt that it
// names. One for each move of a try, by its name; what they share is `step_to`, `pass` and `log`.
ghost use Rattle.std.specs.Prelude.{◌≡◌, ◌+◌, ◌%◌, ◌<◌, ◌≤◌, length};
ghost use Rattle.parts.specs.Numbers.{workers};
ghost use Rattle.cells.specs.Layout.{numbers};
ghost use Rattle.lent_moves.specs.Moves.{stepped_to, to_grab, to_look_again, to_read_mark, cleared, started, passed, went, to_mark, holding, place_after, logged, loaded, to_swap, finished, counted};

use cells::codes;
use cells::worker::{
    COUNT, FILLED, FINISHED, GRAB, LOOK_AGAIN, MARK, NEW, NEXT, PLACE, READ, READ_MARK, SHEET,
    STEPS, SWAP, TAG, VALUE, WON,
};
use parts::{Answer, LockWord, Reading};

// One accepted step more, and the tag that it leads to.
#[tactic(auto, unfolding(crate::specs::Moves::stepped_to))]
pub fn step_to(s: &mut [u32], w: usize, tag: u32)
    requires { (numbers ≤ length s.old) × (w < workers) }
    ensures { s.new ≡ stepped_to s.old w tag }
{
    let n = cells::get_number(s, w, STEPS);
    let steps = n.wrapping_add(1);
    cells::put_number(s, w, TAG, tag);
    cells::put_number(s, w, STEPS, steps);
}

// On to Grab, with the turn that Look saw.
#[tactic(auto, unfolding(crate::specs::Moves::to_grab))]
pub fn to_grab(s: &mut [u32], w: usize, turn: u32)
    requires { (numbers ≤ length s.old) × (w < workers) }
    ensures { s.new ≡ to_grab s.old w turn }
{
    step_to(s, w, GRAB);
    cells::put_number(s, w, WON, turn);
}

// On to Look again, with the turn under which the own sheet won if it did.
#[tactic(auto, unfolding(crate::specs::Moves::to_look_again))]
pub fn to_look_again(s: &mut [u32], w: usize, won: u32)
    requires { (numbers ≤ length s.old) × (w < workers) }
    ensures { s.new ≡ to_look_again s.old w won }
{
    step_to(s, w, LOOK_AGAIN);
    cells::put_number(s, w, WON, won);
}

// On to Read mark, with the lock word that was seen.
#[tactic(auto, unfolding(crate::specs::Moves::to_read_mark))]
pub fn to_read_mark(s: &mut [u32], w: usize, l: LockWord)
    requires { (numbers ≤ length s.old) × (w < workers) }
    ensures { s.new ≡ to_read_mark s.old w l }
{
    let holder = codes::holder_number(l.holder);
    step_to(s, w, READ_MARK);
    cells::put_number(s, w, SHEET, holder);
    cells::put_number(s, w, VALUE, l.turn);
}

// The four registers are 0.
#[tactic(auto, unfolding(crate::specs::Moves::cleared))]
fn clear(s: &mut [u32], w: usize)
    requires { (numbers ≤ length s.old) × (w < workers) }
    ensures { s.new ≡ cleared s.old w }
{
    cells::put_register(s, w, 0, 0);
    cells::put_register(s, w, 1, 0);
    cells::put_register(s, w, 2, 0);
    cells::put_register(s, w, 3, 0);
}

// Run a sheet, from instruction 0 with registers 0 and log place 0.
#[tactic(auto, unfolding(crate::specs::Moves::started))]
pub fn start(s: &mut [u32], w: usize, sheet: u8, won: u32)
    requires { (numbers ≤ length s.old) × (w < workers) }
    ensures { s.new ≡ started s.old w sheet won }
{
    step_to(s, w, READ);
    clear(s, w);
    cells::put_number(s, w, SHEET, u32::from(sheet));
    cells::put_number(s, w, WON, won);
    cells::put_number(s, w, NEXT, 0);
    cells::put_number(s, w, PLACE, 0);
}

// On to the next instruction, `over` passed over.
#[tactic(auto, unfolding(crate::specs::Moves::passed))]
pub fn pass(s: &mut [u32], w: usize, over: u8)
    requires { (numbers ≤ length s.old) × (w < workers) }
    ensures { s.new ≡ passed s.old w over }
{
    let run = cells::get_run(s, w);
    let next = (u32::from(run.next) + 1 + u32::from(over)) % 256;
    step_to(s, w, READ);
    cells::put_number(s, w, NEXT, next);
}

// The same with register a.
#[tactic(auto, unfolding(crate::specs::Moves::went))]
pub fn go(s: &mut [u32], w: usize, a: u8, x: u32)
    requires { (numbers ≤ length s.old) × (w < workers) }
    ensures { s.new ≡ went s.old w a x }
{
    pass(s, w, 0);
    cells::put_register(s, w, a, x);
}

// On to Mark, with the halt's answer.
#[tactic(auto, unfolding(crate::specs::Moves::to_mark))]
pub fn to_mark(s: &mut [u32], w: usize, said: bool)
    requires { (numbers ≤ length s.old) × (w < workers) }
    ensures { s.new ≡ to_mark s.old w said }
{
    let new = codes::flag_number(said);
    step_to(s, w, MARK);
    cells::put_number(s, w, NEW, new);
}

// A step to this tag, with a reading that the run goes by.
#[tactic(auto, unfolding(crate::specs::Moves::holding))]
pub fn hold(s: &mut [u32], w: usize, tag: u32, r: Reading)
    requires { (numbers ≤ length s.old) × (w < workers) }
    ensures { s.new ≡ holding s.old w tag r }
{
    step_to(s, w, tag);
    cells::put_number(s, w, VALUE, r.value);
    cells::put_number(s, w, COUNT, r.count);
}

// The log place after the run's.
fn place_after(s: &[u32], w: usize) -> u32
    requires { (numbers ≤ length s.now) × (w < workers) }
    ensures { result ≡ place_after s.now w }
{
    let run = cells::get_run(s, w);
    (u32::from(run.place) + 1) % 256
}

// A log entry passed, and on to the next instruction.
#[tactic(auto, unfolding(crate::specs::Moves::logged))]
pub fn log(s: &mut [u32], w: usize)
    requires { (numbers ≤ length s.old) × (w < workers) }
    ensures { s.new ≡ logged s.old w }
{
    let place = place_after(s, w);
    pass(s, w, 0);
    cells::put_number(s, w, PLACE, place);
}

// The same with register a.
#[tactic(auto, unfolding(crate::specs::Moves::loaded))]
pub fn load(s: &mut [u32], w: usize, a: u8, x: u32)
    requires { (numbers ≤ length s.old) × (w < workers) }
    ensures { s.new ≡ loaded s.old w a x }
{
    log(s, w);
    cells::put_register(s, w, a, x);
}

// A log entry passed, and on to Swap with what it holds and the word's new value.
#[tactic(auto, unfolding(crate::specs::Moves::to_swap))]
pub fn to_swap(s: &mut [u32], w: usize, held: Reading, new: u32)
    requires { (numbers ≤ length s.old) × (w < workers) }
    ensures { s.new ≡ to_swap s.old w held new }
{
    let place = place_after(s, w);
    hold(s, w, SWAP, held);
    cells::put_number(s, w, PLACE, place);
    cells::put_number(s, w, NEW, new);
}

// The end of the try, with its answer.
#[tactic(auto, unfolding(crate::specs::Moves::finished))]
pub fn finish(s: &mut [u32], w: usize, answer: Answer)
    requires { (numbers ≤ length s.old) × (w < workers) }
    ensures { s.new ≡ finished s.old w answer }
{
    let new = answer.number();
    step_to(s, w, FINISHED);
    cells::put_number(s, w, NEW, new);
}

// One entry more that the worker was first to fill.
#[tactic(auto, unfolding(crate::specs::Moves::counted))]
pub fn count(s: &mut [u32], w: usize)
    requires { (numbers ≤ length s.old) × (w < workers) }
    ensures { s.new ≡ counted s.old w }
{
    let n = cells::get_number(s, w, FILLED);
    let filled = n.wrapping_add(1);
    cells::put_number(s, w, FILLED, filled);
}
