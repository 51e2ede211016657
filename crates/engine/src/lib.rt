// The engine: its whole state, and the nine calls. Every call, with every number and every record, ends in an answer or a
// refusal; each contract gives the answer, the next state and the lent buffer whole, by a definition of specs/Calls.antt.
#![tactic(auto)]

ghost use Rattle.std.specs.Prelude.{◌≡◌};
ghost use Rattle.parts.specs.Numbers.{instructions, try_steps, help_steps};
ghost use Rattle.parts.specs.Pick.{pick};
ghost use Rattle.engine.specs.State.{blank_of};

pub mod begin;
mod fresh;
mod loops;
pub mod read;
pub mod reads;
pub mod step;
pub mod write;

use parts::{
    Answer, ENTRIES, Entry, INSTRUCTIONS, Instr, LAST_TURN, LOCKS, LockWord, REGISTERS, Refusal,
    SHEETS, WORDS, WORKERS, Word,
};
use steps::{State, Worker};

// Of a sheet: how many instructions its program has, and its done mark. Its program and its log stand in the engine's arrays.
#[derive(Clone, Copy)]
pub struct Sheet {
    pub length: u8,
    pub done: bool,
}

// Memory is fixed: each array has the most that there can be, `locks` and `words` say how many there are, and the programs and logs of all
// sheets stand in one array each, as the sheets' numbers and log places find them.
#[derive(Clone, Copy)]
pub struct Engine {
    pub locks: u8,
    pub words: u8,
    pub word: [Word; WORDS],
    pub lock: [LockWord; LOCKS],
    pub sheet: [Sheet; SHEETS],
    pub program: [Instr; ENTRIES],
    pub entry: [Entry; ENTRIES],
    pub worker: [Worker; WORKERS],
}

// Where the pieces of a step stand, each in its array.
#[derive(Clone, Copy)]
pub struct Places {
    pub worker: usize,
    pub lock: usize,
    pub word: usize,
    pub entry: usize,
    pub instr: usize,
    pub sheet: usize,
}

// What setup gives: a state, which is the blank one where the record was refused; so it is no `Result`.
#[derive(Clone, Copy)]
pub struct Outcome {
    pub engine: Engine,
    pub told: Result<(), Refusal>,
}

// What collect hands out: the answer, the accepted steps since begin, and the log entries that the worker was first to fill.
#[derive(Clone, Copy)]
pub struct Answered {
    pub answer: Answer,
    pub steps: u32,
    pub filled: u32,
}

impl Engine {
    pub const WORKERS: usize = WORKERS;

    pub const LOCKS: usize = LOCKS;

    pub const WORDS: usize = WORDS;

    pub const SHEETS: usize = SHEETS;

    pub const INSTRUCTIONS: usize = INSTRUCTIONS;

    pub const REGISTERS: usize = REGISTERS;

    pub const ENTRIES: usize = ENTRIES;

    pub const LAST_TURN: u32 = LAST_TURN;

    // The steps of the longest run, of any try, and of one that helps from its first step.
    pub const RUN_STEPS: usize = (INSTRUCTIONS - 1) * 3 + 1;

    pub const TRY_STEPS: usize = 4 + Self::RUN_STEPS + 2;

    pub const HELP_STEPS: usize = 1 + Self::RUN_STEPS + 2;

    // The most steps of a try, or of one that helps from its first step.
    pub fn most_steps(helping: bool) -> usize
        ensures { result ≡ pick helping (help_steps instructions) (try_steps instructions) }
    {
        if helping {
            Self::HELP_STEPS
        } else {
            Self::TRY_STEPS
        }
    }

    // No locks, no words, idle workers, free sheets. Written out: with calls of `Worker::idle` or `default` in the arrays the proof did not close.
    #[tactic(auto, unfolding(crate::specs::State::blank_of))]
    pub fn blank() -> Engine
        ensures { result ≡ blank_of }
    {
        Engine {
            locks: 0,
            words: 0,
            word: [Word {
                value: 0,
                count: 0,
                guard: 0,
            }; WORDS],
            lock: [LockWord {
                turn: 0,
                holder: None,
            }; LOCKS],
            sheet: [Sheet {
                length: 0,
                done: false,
            }; SHEETS],
            program: [Instr {
                op: 0,
                a: 0,
                b: 0,
                c: 0,
            }; ENTRIES],
            entry: [Entry { fill: None }; ENTRIES],
            worker: [Worker {
                state: State::Idle,
                lock: 0,
                own: 0,
                steps: 0,
                filled: 0,
            }; WORKERS],
        }
    }
}
