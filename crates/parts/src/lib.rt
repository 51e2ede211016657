// The numbers of the engine and its small values, with what is done to one of them alone.
// Each contract gives the result whole, by a definition of specs/ that has the function's name.
#![tactic(auto)]

ghost use Rattle.std.specs.Prelude.{◌≡◌};
ghost use Rattle.parts.specs.Told.{answer_number, refusal_number, refusal_place};
ghost use Rattle.parts.specs.Instr.{set_of, add_of, sub_of, over_of, word_of, asks_of, follows_of};
ghost use Rattle.parts.specs.Parts.{register_of, with_register, reading_of, swap_of, committed_of, holds_of, is_first, worn_of, grab_of, release_of};

pub const WORKERS: usize = 8;

pub const LOCKS: usize = 16;

pub const WORDS: usize = 64;

pub const SHEETS: usize = 32;

// In a job, and log entries on a sheet.
pub const INSTRUCTIONS: usize = 64;

pub const REGISTERS: usize = 4;

// All sheets' entries, and all sheets' instructions.
pub const ENTRIES: usize = SHEETS * INSTRUCTIONS;

pub const LAST_TURN: u32 = 67108864;

// What a finished try answers. Not taken says that its job was not run, no more; worn says that too, and that its Look found its lock
// free at the last turn.
#[derive(Clone, Copy, Debug, PartialEq, Eq)]
pub enum Answer {
    RanYes,
    RanNo,
    NotTaken,
    Worn,
}

// Why a call is refused, in the order of their numbers, of which 10 is none's; a case that has a place other than 0 holds it.
#[derive(Clone, Copy, Debug, PartialEq, Eq)]
pub enum Refusal {
    NoWorker,
    NoLock,
    WorkerUnderWay,
    NotCollected,
    Length,
    Kind,
    Instruction(usize),
    Guard(usize),
    LastTurn,
    WorkerIdle,
    Range(usize),
    Buffer,
    SheetFree,
    Held(usize),
    NoWord,
    CallRecord,
    Malformed(usize),
    NotThere,
    Present,
}

// One instruction of a job. `op` is its first byte, which decides among eight meanings; a record may hold any byte there.
#[derive(Clone, Copy)]
pub struct Instr {
    pub op: u8,
    pub a: u8,
    pub b: u8,
    pub c: u8,
}

// Four fields and no array: the definitions name them one by one, and lent numbers have a place for each.
#[derive(Clone, Copy)]
pub struct Registers {
    pub r0: u32,
    pub r1: u32,
    pub r2: u32,
    pub r3: u32,
}

// What the first step of an instruction finds: the job's answer; the registers after it and how many instructions are passed
// over; or the word that it reads.
#[derive(Clone, Copy)]
pub enum Asks {
    Halt(bool),
    Go(Registers, u8),
    Touch(u8),
}

// What follows for a load, a store or a cam once its word's value is known: the registers after it, or the word's new value.
#[derive(Clone, Copy)]
pub enum Follows {
    Done(Registers),
    Swap(u32),
}

// The value and the count that were read of a word.
#[derive(Clone, Copy, PartialEq, Eq)]
pub struct Reading {
    pub value: u32,
    pub count: u32,
}

#[derive(Clone, Copy)]
pub struct Word {
    pub value: u32,
    pub count: u32,
    pub guard: u8,
}

// A log entry: empty, or filled with what was read.
#[derive(Clone, Copy)]
pub struct Entry {
    pub fill: Option<Reading>,
}

// `holder` is the sheet that holds the lock; a free one has none.
#[derive(Clone, Copy)]
pub struct LockWord {
    pub turn: u32,
    pub holder: Option<u8>,
}

impl Answer {
    // A method, as a refusal's number is.
    #[tactic(auto, unfolding(crate::specs::Told::answer_number))]
    pub fn number(self) -> u32
        ensures { result ≡ answer_number self }
    {
        match self {
            Answer::RanYes => 1,
            Answer::RanNo => 2,
            Answer::NotTaken => 3,
            Answer::Worn => 4,
        }
    }
}

impl Refusal {
    // A method and no `From`: a refusal has a number and a place, and `u32::from` would not say which of the two it gives.
    #[tactic(auto, unfolding(crate::specs::Told::refusal_number))]
    pub fn number(self) -> u32
        ensures { result ≡ refusal_number self }
    {
        match self {
            Refusal::NoWorker => 1,
            Refusal::NoLock => 2,
            Refusal::WorkerUnderWay => 3,
            Refusal::NotCollected => 4,
            Refusal::Length => 5,
            Refusal::Kind => 6,
            Refusal::Instruction(_) => 7,
            Refusal::Guard(_) => 8,
            Refusal::LastTurn => 9,
            Refusal::WorkerIdle => 11,
            Refusal::Range(_) => 12,
            Refusal::Buffer => 13,
            Refusal::SheetFree => 14,
            Refusal::Held(_) => 15,
            Refusal::NoWord => 16,
            Refusal::CallRecord => 17,
            Refusal::Malformed(_) => 18,
            Refusal::NotThere => 19,
            Refusal::Present => 20,
        }
    }

    #[tactic(auto, unfolding(crate::specs::Told::refusal_place))]
    pub fn place(self) -> usize
        ensures { result ≡ refusal_place self }
    {
        match self {
            Refusal::Instruction(place)
            | Refusal::Guard(place)
            | Refusal::Range(place)
            | Refusal::Held(place)
            | Refusal::Malformed(place) => place,
            _ => 0,
        }
    }
}

impl Registers {
    #[tactic(auto, unfolding(crate::specs::Parts::register_of))]
    pub fn get(self, i: u8) -> u32
        ensures { result ≡ register_of self i }
    {
        match i {
            0 => self.r0,
            1 => self.r1,
            2 => self.r2,
            _ => self.r3,
        }
    }

    #[tactic(auto, unfolding(crate::specs::Parts::with_register))]
    pub fn with(mut self, i: u8, x: u32) -> Registers
        ensures { result ≡ with_register self i x }
    {
        match i {
            0 => self.r0 = x,
            1 => self.r1 = x,
            2 => self.r2 = x,
            _ => self.r3 = x,
        }
        self
    }
}

// What the instructions that touch no word do to the registers.
impl Registers {
    #[tactic(auto, unfolding(crate::specs::Instr::set_of))]
    pub fn set(self, i: Instr) -> Registers
        ensures { result ≡ set_of i self }
    {
        self.with(i.a, u32::from(u16::from_le_bytes([i.b, i.c])))
    }

    #[tactic(auto, unfolding(crate::specs::Instr::add_of))]
    pub fn add(self, i: Instr) -> Registers
        ensures { result ≡ add_of i self }
    {
        self.with(i.a, self.get(i.a).wrapping_add(self.get(i.b)))
    }

    #[tactic(auto, unfolding(crate::specs::Instr::sub_of))]
    pub fn sub(self, i: Instr) -> Registers
        ensures { result ≡ sub_of i self }
    {
        self.with(i.a, self.get(i.a).wrapping_sub(self.get(i.b)))
    }

    // How many instructions a skip passes over.
    #[tactic(auto, unfolding(crate::specs::Instr::over_of))]
    pub fn over(self, i: Instr) -> u8
        ensures { result ≡ over_of i self }
    {
        if self.get(i.a) == self.get(i.b) {
            i.c
        } else {
            0
        }
    }
}

// The eight meanings of an instruction, for a job alone and for a step of the engine. No job that was checked has another op.
impl Instr {
    // The word that a load, a store or a cam names.
    #[tactic(auto, unfolding(crate::specs::Instr::word_of))]
    pub fn word(self) -> u8
        ensures { result ≡ word_of self }
    {
        if self.op == 4 { self.c } else { self.b }
    }

    #[tactic(auto, unfolding(crate::specs::Instr::asks_of))]
    pub fn asks(self, r: Registers) -> Asks
        ensures { result ≡ asks_of self r }
    {
        match self.op {
            0 => Asks::Halt(self.a == 1),
            1 => Asks::Go(r.set(self), 0),
            2 | 3 => Asks::Touch(self.b),
            4 => Asks::Touch(self.c),
            5 => Asks::Go(r.add(self), 0),
            6 => Asks::Go(r.sub(self), 0),
            7 => Asks::Go(r, r.over(self)),
            8..=255 => Asks::Halt(false),
        }
    }

    #[tactic(auto, unfolding(crate::specs::Instr::follows_of))]
    pub fn follows(self, r: Registers, value: u32) -> Follows
        ensures { result ≡ follows_of self r value }
    {
        match self.op {
            2 => Follows::Done(r.with(self.a, value)),
            3 => Follows::Swap(r.get(self.a)),
            _ if r.get(self.a) == value => Follows::Swap(r.get(self.b)),
            _ => Follows::Done(r),
        }
    }
}

impl Word {
    pub fn reading(self) -> Reading
        ensures { result ≡ reading_of self }
    {
        Reading {
            value: self.value,
            count: self.count,
        }
    }

    // A word whose value and count are those of the entry takes the new value, and its count rises by one. Any other stays.
    #[tactic(auto, unfolding(crate::specs::Parts::swap_of))]
    pub fn swap(self, entry: Reading, new: u32) -> Word
        ensures { result ≡ swap_of self entry new }
    {
        if self.reading() == entry {
            return Word {
                value: new,
                count: self.count.wrapping_add(1),
                guard: self.guard,
            };
        }
        self
    }
}

impl Entry {
    // An empty entry takes what was read; a filled one stays.
    #[tactic(auto, unfolding(crate::specs::Parts::committed_of))]
    pub fn commit(self, read: Reading) -> Entry
        ensures { result ≡ committed_of self read }
    {
        Entry {
            fill: self.fill.or(Some(read)),
        }
    }

    // What the entry holds once `read` was committed to it.
    #[tactic(auto, unfolding(crate::specs::Parts::holds_of))]
    pub fn holds(self, read: Reading) -> Reading
        ensures { result ≡ holds_of self read }
    {
        self.fill.unwrap_or(read)
    }

    // Whether a commit to it is the first: the one that fills it.
    #[tactic(auto, unfolding(crate::specs::Parts::is_first))]
    pub fn is_first(self) -> bool
        ensures { result ≡ is_first self }
    {
        self.fill.is_none()
    }
}

impl LockWord {
    // Free at the last turn: it can't be won any more.
    #[tactic(auto, unfolding(crate::specs::Parts::worn_of))]
    pub fn worn(self) -> bool
        ensures { result ≡ worn_of self }
    {
        self.holder.is_none() && self.turn == LAST_TURN
    }

    // Still free at the turn that Look saw: the next turn, held by the sheet. Any other stays.
    #[tactic(auto, unfolding(crate::specs::Parts::grab_of))]
    pub fn grab(self, seen: u32, sheet: u8) -> LockWord
        ensures { result ≡ grab_of self seen sheet }
    {
        if self.holder.is_none() && self.turn == seen {
            return LockWord {
                turn: self.turn.wrapping_add(1),
                holder: Some(sheet),
            };
        }
        self
    }

    // Held by the sheet at the turn under which it won: free with the same turn. Any other stays.
    #[tactic(auto, unfolding(crate::specs::Parts::release_of))]
    pub fn release(self, won: u32, sheet: u8) -> LockWord
        ensures { result ≡ release_of self won sheet }
    {
        if self.holder == Some(sheet) && self.turn == won {
            return LockWord {
                turn: self.turn,
                holder: None,
            };
        }
        self
    }
}
