// A worker's 16 numbers, named as in specs/Codes.antt.
ghost use Rattle.std.specs.Prelude.{◌≡◌, ◌+◌, ◌≤◌, ◌<◌, length, get_or};
ghost use Rattle.cells.specs.Codes.{at_register, registers_in, run_in, reading_in, seen_in, state_in, worker_in, run_numbers, seen_numbers, stage_numbers, point_numbers, worker_numbers, TryFits, RunFits, PointFits};
ghost use Rattle.cells.specs.Layout.{worker_used};
ghost use Rattle.cells.specs.Pieces.{reads};

use super::codes;
use parts::{LockWord, Reading, Registers};
use steps::{Point, Run, Stage, State, Worker};

// How many numbers of a worker are used.
pub const WORKER_USED: usize = 16;

// Which is which; the four registers stand between PLACE and VALUE.
pub const TAG: usize = 0;

pub const LOCK: usize = 1;

pub const OWN: usize = 2;

pub const STEPS: usize = 3;

pub const SHEET: usize = 4;

pub const WON: usize = 5;

pub const NEXT: usize = 6;

pub const PLACE: usize = 7;

pub const VALUE: usize = 12;

pub const COUNT: usize = 13;

pub const NEW: usize = 14;

pub const FILLED: usize = 15;

// The tags: numbers, since a caller lends them and may lend any; a state that they say is an enum (`Row::state`).
pub const IDLE: u32 = 0;

pub const LOOK: u32 = 1;

pub const GRAB: u32 = 2;

pub const LOOK_AGAIN: u32 = 3;

pub const READ_MARK: u32 = 4;

pub const READ: u32 = 5;

pub const COMMIT: u32 = 6;

pub const SWAP: u32 = 7;

pub const MARK: u32 = 8;

pub const RELEASE: u32 = 9;

pub const FINISHED: u32 = 10;

// Where register i stands; any above 3 is the last.
#[tactic(auto, unfolding(crate::specs::Codes::at_register))]
pub fn at_register(i: u8) -> usize
    ensures { (result ≡ at_register i) × (result < worker_used) }
{
    match i {
        0 => 8,
        1 => 9,
        2 => 10,
        _ => 11,
    }
}

// The numbers of a worker that stands at this place.
#[derive(Clone, Copy)]
pub struct Row<'a> {
    pub s: &'a [u32],
    pub at: usize,
    ghost within: { at + worker_used ≤ length s.now },
}

impl<'a> Row<'a> {
    // Number j of them.
    fn number(self, j: usize) -> u32
        requires { j < worker_used }
        ensures { result ≡ get_or self.entry.s.now (self.entry.at + j) 0 }
    {
        self.s[self.at + j]
    }

    pub fn registers(self) -> Registers
        ensures { result ≡ registers_in (reads self.entry.s.now self.entry.at 0 worker_used) }
    {
        Registers {
            r0: self.number(8),
            r1: self.number(9),
            r2: self.number(10),
            r3: self.number(11),
        }
    }

    pub fn run(self) -> Run
        ensures { result ≡ run_in (reads self.entry.s.now self.entry.at 0 worker_used) }
    {
        Run {
            sheet: codes::byte(self.number(SHEET)),
            won: self.number(WON),
            next: codes::byte(self.number(NEXT)),
            place: codes::byte(self.number(PLACE)),
            registers: self.registers(),
        }
    }

    pub fn reading(self) -> Reading
        ensures { result ≡ reading_in (reads self.entry.s.now self.entry.at 0 worker_used) }
    {
        Reading {
            value: self.number(VALUE),
            count: self.number(COUNT),
        }
    }

    pub fn seen(self) -> LockWord
        ensures { result ≡ seen_in (reads self.entry.s.now self.entry.at 0 worker_used) }
    {
        codes::lock_of(self.number(VALUE), self.number(SHEET))
    }

    // By the tag.
    #[tactic(auto, unfolding(crate::specs::Codes::state_in))]
    pub fn state(self) -> State
        ensures { result ≡ state_in (reads self.entry.s.now self.entry.at 0 worker_used) }
    {
        let won = self.number(WON);
        let new = self.number(NEW);
        match self.number(TAG) {
            IDLE => State::Idle,
            LOOK => State::UnderWay(Point::Look),
            GRAB => State::UnderWay(Point::Grab(won)),
            LOOK_AGAIN => State::UnderWay(Point::LookAgain(won)),
            READ_MARK => State::UnderWay(Point::ReadMark(self.seen(), won)),
            READ => State::UnderWay(Point::Run(self.run(), Stage::Read)),
            COMMIT => State::UnderWay(Point::Run(self.run(), Stage::Commit(self.reading()))),
            SWAP => State::UnderWay(Point::Run(self.run(), Stage::Swap(self.reading(), new))),
            MARK => State::UnderWay(Point::Run(self.run(), Stage::Mark(codes::flag(new)))),
            RELEASE => State::UnderWay(Point::Run(self.run(), Stage::Release(codes::flag(new)))),
            _ => State::Finished(codes::answer_of(new)),
        }
    }

    pub fn worker(self) -> Worker
        ensures { result ≡ worker_in (reads self.entry.s.now self.entry.at 0 worker_used) }
    {
        Worker {
            state: self.state(),
            lock: codes::byte(self.number(LOCK)),
            own: codes::byte(self.number(OWN)),
            steps: self.number(STEPS),
            filled: self.number(FILLED),
        }
    }
}

pub fn run_numbers(
    k: Worker,
    tag: u32,
    run: Run,
    value: u32,
    count: u32,
    new: u32,
) -> [u32; WORKER_USED]
    ensures { (result ≡ run_numbers k tag run value count new) × TryFits k × RunFits run }
{
    let g = run.registers;
    [
        tag,
        u32::from(k.lock),
        u32::from(k.own),
        k.steps,
        u32::from(run.sheet),
        run.won,
        u32::from(run.next),
        u32::from(run.place),
        g.r0,
        g.r1,
        g.r2,
        g.r3,
        value,
        count,
        new,
        k.filled,
    ]
}

// Of a worker that is in no run.
pub fn seen_numbers(
    k: Worker,
    tag: u32,
    sheet: u32,
    won: u32,
    value: u32,
    new: u32,
) -> [u32; WORKER_USED]
    ensures { (result ≡ seen_numbers k tag sheet won value new) × TryFits k }
{
    [
        tag,
        u32::from(k.lock),
        u32::from(k.own),
        k.steps,
        sheet,
        won,
        0,
        0,
        0,
        0,
        0,
        0,
        value,
        0,
        new,
        k.filled,
    ]
}

pub fn stage_numbers(k: Worker, run: Run, at: Stage) -> [u32; WORKER_USED]
    ensures { (result ≡ stage_numbers at run k) × TryFits k × RunFits run }
{
    match at {
        Stage::Read => run_numbers(k, READ, run, 0, 0, 0),
        Stage::Commit(x) => run_numbers(k, COMMIT, run, x.value, x.count, 0),
        Stage::Swap(x, new) => run_numbers(k, SWAP, run, x.value, x.count, new),
        Stage::Mark(b) => run_numbers(k, MARK, run, 0, 0, codes::flag_number(b)),
        Stage::Release(b) => run_numbers(k, RELEASE, run, 0, 0, codes::flag_number(b)),
    }
}

pub fn point_numbers(k: Worker, p: Point) -> [u32; WORKER_USED]
    ensures { (result ≡ point_numbers p k) × TryFits k × PointFits p }
{
    match p {
        Point::Look => seen_numbers(k, LOOK, 0, 0, 0, 0),
        Point::Grab(seen) => seen_numbers(k, GRAB, 0, seen, 0, 0),
        Point::LookAgain(won) => seen_numbers(k, LOOK_AGAIN, 0, won, 0, 0),
        Point::ReadMark(l, won) => {
            let holder = codes::holder_number(l.holder);
            seen_numbers(k, READ_MARK, holder, won, l.turn, 0)
        }
        Point::Run(run, at) => stage_numbers(k, run, at),
    }
}

pub fn worker_numbers(k: Worker) -> [u32; WORKER_USED]
    ensures { (result ≡ worker_numbers k) × (worker_in (worker_numbers k) ≡ k) }
{
    match k.state {
        State::Idle => seen_numbers(k, IDLE, 0, 0, 0, 0),
        State::UnderWay(p) => point_numbers(k, p),
        State::Finished(a) => seen_numbers(k, FINISHED, 0, 0, 0, a.number()),
    }
}
