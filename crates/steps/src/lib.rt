// The worker, and one step of its try on the pieces that a step can touch: the worker, its lock word, one word, one log entry,
// one instruction, one done mark. Each contract gives the result whole, by a definition of specs/.
#![tactic(auto)]

ghost use Rattle.std.specs.Prelude.{◌≡◌};
ghost use Rattle.steps.specs.Places.{run_spot, spot_of, helped_of};
ghost use Rattle.steps.specs.Worker.{worker0, began_of, collected_of, dropped_of, begin_by_state, moved_of, counted_of};

pub mod trying;

use parts::{Answer, Entry, Instr, LockWord, Reading, Refusal, Registers, Word};

// A run of a sheet: the turn under which it won its lock, the next instruction, the log place, the registers.
#[derive(Clone, Copy)]
pub struct Run {
    pub sheet: u8,
    pub won: u32,
    pub next: u8,
    pub place: u8,
    pub registers: Registers,
}

// The points of a try, in document 01's order; each holds what the worker remembers there.
#[derive(Clone, Copy)]
pub enum Point {
    Look,
    // The turn at which Look found the lock free.
    Grab(u32),
    // The turn under which the own sheet won, if it did.
    LookAgain(u32),
    // What Look again saw, and that turn.
    ReadMark(LockWord, u32),
    // From line 5 on: a sheet's run, and where in it.
    Run(Run, Stage),
}

// Where a run stands.
#[derive(Clone, Copy)]
pub enum Stage {
    // The first step of the next instruction.
    Read,
    Commit(Reading),
    // What the entry holds, and the new value.
    Swap(Reading, u32),
    // The halt's answer.
    Mark(bool),
    Release(bool),
}

#[derive(Clone, Copy)]
pub enum State {
    Idle,
    UnderWay(Point),
    Finished(Answer),
}

// `lock`, `own` (the own sheet), `steps` (the accepted steps since begin) and `filled` (the log entries that it was first to fill)
// belong to the try; they are 0 where there is none.
#[derive(Clone, Copy)]
pub struct Worker {
    pub state: State,
    pub lock: u8,
    pub own: u8,
    pub steps: u32,
    pub filled: u32,
}

// Where a step of a worker is: the sheet whose instruction, log entry and done mark it can touch, the instruction's number and
// the log place.
#[derive(Clone, Copy)]
pub struct Spot {
    pub sheet: u8,
    pub next: u8,
    pub place: u8,
}

#[derive(Clone, Copy)]
pub struct View {
    pub worker: Worker,
    pub lock: LockWord,
    pub word: Word,
    pub entry: Entry,
    pub instr: Instr,
    pub done: bool,
}

impl Worker {
    pub fn idle() -> Worker
        ensures { result ≡ worker0 }
    {
        Worker {
            state: State::Idle,
            lock: 0,
            own: 0,
            steps: 0,
            filled: 0,
        }
    }

    // An idle worker is at the start of a try. Any other stays: it can't begin again until its answer is collected or it is dropped.
    #[tactic(auto, unfolding(crate::specs::Worker::began_of))]
    pub fn begin(self, lock: u8, sheet: u8) -> Worker
        ensures { result ≡ began_of self lock sheet }
    {
        match self.state {
            State::Idle => Worker {
                state: State::UnderWay(Point::Look),
                lock,
                own: sheet,
                steps: 0,
                filled: 0,
            },
            State::UnderWay(_) | State::Finished(_) => self,
        }
    }

    // A finished worker is idle again. Any other stays.
    #[tactic(auto, unfolding(crate::specs::Worker::collected_of))]
    pub fn collect(self) -> Worker
        ensures { result ≡ collected_of self }
    {
        match self.state {
            State::Idle | State::UnderWay(_) => self,
            State::Finished(_) => Worker::idle(),
        }
    }

    // A worker that isn't idle is idle, at whatever point it was.
    #[tactic(auto, unfolding(crate::specs::Worker::dropped_of))]
    pub fn drop(self) -> Worker
        ensures { result ≡ dropped_of self }
    {
        match self.state {
            State::Idle => self,
            State::UnderWay(_) | State::Finished(_) => Worker::idle(),
        }
    }

    #[tactic(auto, unfolding(crate::specs::Worker::begin_by_state))]
    pub fn begin_told(self) -> Result<(), Refusal>
        ensures { result ≡ begin_by_state self }
    {
        match self.state {
            State::Idle => Ok(()),
            State::UnderWay(_) => Err(Refusal::WorkerUnderWay),
            State::Finished(_) => Err(Refusal::NotCollected),
        }
    }

    // The worker after a step that leaves it in this state: one step more.
    #[tactic(auto, unfolding(crate::specs::Worker::moved_of))]
    pub fn moved(self, s: State) -> Worker
        ensures { result ≡ moved_of self s }
    {
        Worker {
            state: s,
            steps: self.steps.wrapping_add(1),
            ..self
        }
    }

    // The worker after a commit that says whether it was the first: one entry more that this worker filled, or not.
    #[tactic(auto, unfolding(crate::specs::Worker::counted_of))]
    pub fn counted(mut self, first: bool) -> Worker
        ensures { result ≡ counted_of self first }
    {
        if first {
            self.filled = self.filled.wrapping_add(1);
        }
        self
    }
}

impl Run {
    pub fn spot(self) -> Spot
        ensures { result ≡ run_spot self }
    {
        Spot {
            sheet: self.sheet,
            next: self.next,
            place: self.place,
        }
    }
}

impl Point {
    // A run's spot is the run's; before it, the worker's own sheet.
    #[tactic(auto, unfolding(crate::specs::Places::spot_of))]
    pub fn spot(self, own: u8) -> Spot
        ensures { result ≡ spot_of self own }
    {
        match self {
            Point::Look | Point::Grab(_) | Point::LookAgain(_) | Point::ReadMark(_, _) => Spot {
                sheet: own,
                next: 0,
                place: 0,
            },
            Point::Run(run, _) => run.spot(),
        }
    }

    // The sheet that is helped at this point, or run: the one that Look or Look again saw.
    #[tactic(auto, unfolding(crate::specs::Places::helped_of))]
    pub fn helped(self) -> Option<u8>
        ensures { result ≡ helped_of self }
    {
        match self {
            Point::Look | Point::Grab(_) | Point::LookAgain(_) => None,
            Point::ReadMark(seen, _) => seen.holder,
            Point::Run(run, _) => Some(run.sheet),
        }
    }
}
