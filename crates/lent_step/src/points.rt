// A step at each point, straight on the numbers: what the point looks at is read, and what it changes is written. Each is the
// definition of specs/Points.antt that it names; the nine points tell that the step was accepted.
ghost use Rattle.std.specs.Prelude.{◌≡◌, ◌<◌, ◌≤◌, length};
ghost use Rattle.parts.specs.Numbers.{workers, entries};
ghost use Rattle.cells.specs.Layout.{numbers};
ghost use Rattle.lent_step.specs.Points.{looked, look_numbers, grab_numbers, look_again_numbers, started_own, started_seen, mark_read, read_mark_numbers, first_numbers, read_numbers, follow_numbers, entry_filled, committed, commit_numbers, swap_numbers, mark_numbers, release_numbers};

use cells::piece::Piece;
use cells::worker::{COMMIT, NEW, RELEASE, WON};
use engine::Sheet;
use lent_moves::{looks, moves};
use parts::{Answer, Entry, Instr, LAST_TURN, LockWord, Reading, Refusal, Word};

// What Look does with the lock word that it finds.
#[tactic(auto, unfolding(crate::specs::Points::looked))]
fn look_at(s: &mut [u32], w: usize, l: LockWord)
    requires { (numbers ≤ length s.old) × (w < workers) }
    ensures { s.new ≡ looked s.old w l }
{
    match l.holder {
        Some(sheet) => moves::start(s, w, sheet, l.turn),
        None => {
            if l.turn == LAST_TURN {
                moves::finish(s, w, Answer::Worn);
                return;
            }
            moves::to_grab(s, w, l.turn)
        }
    }
}

#[tactic(auto, unfolding(crate::specs::Points::look_numbers))]
pub fn look(s: &mut [u32], w: usize) -> Result<(), Refusal>
    requires { (numbers ≤ length s.old) × (w < workers) }
    ensures value { result ≡ Ok tt }
    ensures s_after { s.new ≡ look_numbers s.old w }
{
    let j = looks::lock_place(s, w);
    let l = LockWord::get(s, j);
    look_at(s, w, l);
    Ok(())
}

#[tactic(auto, unfolding(crate::specs::Points::grab_numbers))]
pub fn grab(s: &mut [u32], w: usize) -> Result<(), Refusal>
    requires { (numbers ≤ length s.old) × (w < workers) }
    ensures value { result ≡ Ok tt }
    ensures s_after { s.new ≡ grab_numbers s.old w }
{
    let j = looks::lock_place(s, w);
    let l = LockWord::get(s, j);
    let seen = cells::get_number(s, w, WON);
    let own = looks::own(s, w);
    let won = seen.wrapping_add(1);
    moves::to_look_again(s, w, won);
    let next = l.grab(seen, own);
    next.put(s, j);
    Ok(())
}

#[tactic(auto, unfolding(crate::specs::Points::look_again_numbers))]
pub fn look_again(s: &mut [u32], w: usize) -> Result<(), Refusal>
    requires { (numbers ≤ length s.old) × (w < workers) }
    ensures value { result ≡ Ok tt }
    ensures s_after { s.new ≡ look_again_numbers s.old w }
{
    let j = looks::lock_place(s, w);
    let l = LockWord::get(s, j);
    moves::to_read_mark(s, w, l);
    Ok(())
}

#[tactic(auto, unfolding(crate::specs::Points::started_own))]
fn start_own(s: &mut [u32], w: usize)
    requires { (numbers ≤ length s.old) × (w < workers) }
    ensures { s.new ≡ started_own s.old w }
{
    let own = looks::own(s, w);
    let won = cells::get_number(s, w, WON);
    moves::start(s, w, own, won);
}

// What follows of the lock word that Look again saw, where the own sheet is not marked.
#[tactic(auto, unfolding(crate::specs::Points::started_seen))]
fn start_seen(s: &mut [u32], w: usize, l: LockWord, own: u8)
    requires { (numbers ≤ length s.old) × (w < workers) }
    ensures { s.new ≡ started_seen s.old w l own }
{
    match l.holder {
        None => moves::finish(s, w, Answer::NotTaken),
        Some(sheet) => {
            if sheet == own {
                start_own(s, w);
                return;
            }
            moves::start(s, w, sheet, l.turn)
        }
    }
}

#[tactic(auto, unfolding(crate::specs::Points::mark_read))]
fn mark_read(s: &mut [u32], w: usize, done: bool, l: LockWord)
    requires { (numbers ≤ length s.old) × (w < workers) }
    ensures { s.new ≡ mark_read s.old w done l }
{
    if done {
        start_own(s, w);
        return;
    }
    let own = looks::own(s, w);
    start_seen(s, w, l, own);
}

#[tactic(auto, unfolding(crate::specs::Points::read_mark_numbers))]
pub fn read_mark(s: &mut [u32], w: usize) -> Result<(), Refusal>
    requires { (numbers ≤ length s.old) × (w < workers) }
    ensures value { result ≡ Ok tt }
    ensures s_after { s.new ≡ read_mark_numbers s.old w }
{
    let own = looks::own(s, w);
    let j = looks::sheet_place(own);
    let sheet = Sheet::get(s, j);
    let l = cells::get_seen(s, w);
    mark_read(s, w, sheet.done, l);
    Ok(())
}

// The first step of instruction i.
#[tactic(auto, unfolding(crate::specs::Points::first_numbers))]
fn first(s: &mut [u32], w: usize, i: Instr)
    requires { (numbers ≤ length s.old) × (w < workers) }
    ensures { s.new ≡ first_numbers s.old w i }
{
    match i.op {
        0 => moves::to_mark(s, w, i.a == 1),
        1 => moves::go(s, w, i.a, looks::constant(i)),
        // Three arms, since `2 | 3 | 4` costs two instructions more at each Read.
        2 => {
            let r = looks::reading(s, i);
            moves::hold(s, w, COMMIT, r)
        }
        3 => {
            let r = looks::reading(s, i);
            moves::hold(s, w, COMMIT, r)
        }
        4 => {
            let r = looks::reading(s, i);
            moves::hold(s, w, COMMIT, r)
        }
        5 => {
            let x = looks::sum(s, w, i);
            moves::go(s, w, i.a, x)
        }
        6 => {
            let x = looks::difference(s, w, i);
            moves::go(s, w, i.a, x)
        }
        7 => {
            let n = looks::over(s, w, i);
            moves::pass(s, w, n)
        }
        8..=255 => moves::to_mark(s, w, false),
    }
}

#[tactic(auto, unfolding(crate::specs::Points::read_numbers))]
pub fn read(s: &mut [u32], w: usize) -> Result<(), Refusal>
    requires { (numbers ≤ length s.old) × (w < workers) }
    ensures value { result ≡ Ok tt }
    ensures s_after { s.new ≡ read_numbers s.old w }
{
    let i = looks::instr(s, w);
    first(s, w, i);
    Ok(())
}

// What follows of the value that the log entry holds.
#[tactic(auto, unfolding(crate::specs::Points::follow_numbers))]
fn follow(s: &mut [u32], w: usize, i: Instr, held: Reading)
    requires { (numbers ≤ length s.old) × (w < workers) }
    ensures { s.new ≡ follow_numbers s.old w i held }
{
    match i.op {
        2 => moves::load(s, w, i.a, held.value),
        3 => {
            let x = cells::get_register(s, w, i.a);
            moves::to_swap(s, w, held, x)
        }
        _ => {
            let x = cells::get_register(s, w, i.a);
            if x == held.value {
                let y = cells::get_register(s, w, i.b);
                moves::to_swap(s, w, held, y);
                return;
            }
            moves::log(s, w)
        }
    }
}

// An empty log entry takes what was read, and worker w counts it; a filled one stays.
#[tactic(auto, unfolding(crate::specs::Points::entry_filled))]
fn fill(s: &mut [u32], w: usize, j: usize, e: Entry, read: Reading)
    requires { (numbers ≤ length s.old) × (w < workers) × (j < entries) }
    ensures { s.new ≡ entry_filled s.old w j e read }
{
    if e.fill.is_none() {
        let filled = Entry { fill: Some(read) };
        moves::count(s, w);
        filled.put(s, j);
    }
}

// The commit of instruction i to the log entry at j, which is e.
#[tactic(auto, unfolding(crate::specs::Points::committed))]
fn commit_to(s: &mut [u32], w: usize, i: Instr, j: usize, e: Entry)
    requires { (numbers ≤ length s.old) × (w < workers) × (j < entries) }
    ensures { s.new ≡ committed s.old w i j e }
{
    let read = cells::get_reading(s, w);
    follow(s, w, i, e.holds(read));
    fill(s, w, j, e, read);
}

#[tactic(auto, unfolding(crate::specs::Points::commit_numbers))]
pub fn commit(s: &mut [u32], w: usize) -> Result<(), Refusal>
    requires { (numbers ≤ length s.old) × (w < workers) }
    ensures value { result ≡ Ok tt }
    ensures s_after { s.new ≡ commit_numbers s.old w }
{
    let i = looks::instr(s, w);
    let j = looks::entry_place(s, w);
    let e = Entry::get(s, j);
    commit_to(s, w, i, j, e);
    Ok(())
}

#[tactic(auto, unfolding(crate::specs::Points::swap_numbers))]
pub fn swap(s: &mut [u32], w: usize) -> Result<(), Refusal>
    requires { (numbers ≤ length s.old) × (w < workers) }
    ensures value { result ≡ Ok tt }
    ensures s_after { s.new ≡ swap_numbers s.old w }
{
    let i = looks::instr(s, w);
    let j = looks::word_place(i);
    let x = Word::get(s, j);
    let entry = cells::get_reading(s, w);
    let new = cells::get_number(s, w, NEW);
    moves::pass(s, w, 0);
    let swapped = x.swap(entry, new);
    swapped.put(s, j);
    Ok(())
}

#[tactic(auto, unfolding(crate::specs::Points::mark_numbers))]
pub fn mark(s: &mut [u32], w: usize) -> Result<(), Refusal>
    requires { (numbers ≤ length s.old) × (w < workers) }
    ensures value { result ≡ Ok tt }
    ensures s_after { s.new ≡ mark_numbers s.old w }
{
    let run = cells::get_run(s, w);
    let j = looks::sheet_place(run.sheet);
    let sheet = Sheet::get(s, j);
    let done = Sheet {
        length: sheet.length,
        done: true,
    };
    moves::step_to(s, w, RELEASE);
    done.put(s, j);
    Ok(())
}

#[tactic(auto, unfolding(crate::specs::Points::release_numbers))]
pub fn release(s: &mut [u32], w: usize) -> Result<(), Refusal>
    requires { (numbers ≤ length s.old) × (w < workers) }
    ensures value { result ≡ Ok tt }
    ensures s_after { s.new ≡ release_numbers s.old w }
{
    let j = looks::lock_place(s, w);
    let l = LockWord::get(s, j);
    let run = cells::get_run(s, w);
    let answer = looks::answer(s, w);
    moves::finish(s, w, answer);
    let next = l.release(run.won, run.sheet);
    next.put(s, j);
    Ok(())
}
