// A state that is only read, wherever it stands: an `Engine`, or numbers that a caller lends (`Lent` of crate lent_sheets). What reads a state
// and nothing more is written once, over this trait.
ghost use Rattle.std.specs.Prelude.{◌≡◌, ◌<◌, get_or};
ghost use Rattle.parts.specs.Numbers.{workers, most_locks, most_words, sheets, entries};
ghost use Rattle.parts.specs.Parts.{instr0};
ghost use Rattle.steps.specs.Worker.{begin_by_state};
ghost use Rattle.sheets.specs.Marks.{marks_of};
ghost use Rattle.engine.specs.State.{lock_count, word_count, worker_at, lock_at, word_at, program_length, in_use, free_sheet};
ghost use Rattle.engine.specs.Inner.{Walked};
ghost use Rattle.engine.specs.Calls.{read_word_of, read_lock_of};
ghost use Rattle.engine.specs.declared.Engine.{Engine};

use crate::write::instruction_count;
use crate::{Engine, read};
use parts::{Instr, LockWord, Refusal, Word};

// The length of an array is known of a value, and is no law that every `says` meets: so `walked` hands it on.
pub trait Reads {
    // The state that it says.
    ghost says: { Self → Engine };

    // How many locks there are, and how many words.
    fn lock_count(&self) -> usize
        ensures value { result ≡ lock_count (says self.now) }
        ensures walked { Walked (says self.now) };

    fn word_count(&self) -> usize
        ensures value { result ≡ word_count (says self.now) }
        ensures walked { Walked (says self.now) };

    // Lock i, and word i.
    fn lock(&self, i: usize) -> LockWord
        requires { i < most_locks }
        ensures { result ≡ lock_at (says self.now) i };

    fn word(&self, i: usize) -> Word
        requires { i < most_words }
        ensures { result ≡ word_at (says self.now) i };

    // Instruction i of all sheets', and how many stand on a sheet.
    fn instr(&self, i: usize) -> Instr
        requires { i < entries }
        ensures { result ≡ get_or (says self.now).program i instr0 };

    fn program_length(&self, sheet: usize) -> usize
        requires { sheet < sheets }
        ensures value { result ≡ program_length (says self.now) sheet }
        ensures walked { Walked (says self.now) };

    // The marks of the sheets that are in use.
    fn marks(&self) -> u32
        ensures { result ≡ marks_of (says self.now).lock (says self.now).worker };

    // May worker w begin? Refusals 3 and 4.
    fn may_begin(&self, w: usize) -> Result<(), Refusal>
        requires { w < workers }
        ensures { result ≡ begin_by_state (worker_at (says self.now) w) };
}

impl Reads for Engine {
    ghost says = { λ e. e };

    fn lock_count(&self) -> usize {
        read::lock_count(self.locks)
    }

    fn word_count(&self) -> usize {
        read::word_count(self.words)
    }

    fn lock(&self, i: usize) -> LockWord {
        self.lock[i]
    }

    fn word(&self, i: usize) -> Word {
        self.word[i]
    }

    fn instr(&self, i: usize) -> Instr {
        self.program[i]
    }

    fn program_length(&self, sheet: usize) -> usize {
        instruction_count(self.sheet[sheet].length)
    }

    fn marks(&self) -> u32 {
        sheets::marks_of(&self.lock, &self.worker)
    }

    fn may_begin(&self, w: usize) -> Result<(), Refusal> {
        self.worker[w].begin_told()
    }
}

// A word's value, count and guard. Refused: 16. This and the next differ in the count, the piece and the refusal: one over all three is longer.
#[tactic(auto, unfolding(crate::specs::Calls::read_word_of))]
pub fn read_word<S: Reads>(s: &S, word: u32) -> Result<Word, Refusal>
    ensures { result ≡ read_word_of (S.says s.now) word }
{
    let i = word as usize;
    if s.word_count() <= i {
        return Err(Refusal::NoWord);
    }
    Ok(s.word(i))
}

// A lock's turn and the sheet that holds it, if any. Refused: 2.
#[tactic(auto, unfolding(crate::specs::Calls::read_lock_of))]
pub fn read_lock<S: Reads>(s: &S, lock: u32) -> Result<LockWord, Refusal>
    ensures { result ≡ read_lock_of (S.says s.now) lock }
{
    let i = lock as usize;
    if s.lock_count() <= i {
        return Err(Refusal::NoLock);
    }
    Ok(s.lock(i))
}

// Is this sheet in use?
#[tactic(auto, using(sheets::proofs::Laws::marked_in_use))]
pub fn in_use<S: Reads>(s: &S, sheet: usize) -> bool
    requires { sheet < sheets }
    ensures { result ≡ in_use (S.says s.now) sheet }
{
    sheets::marked(s.marks(), sheet as u8)
}

// The free sheet with the lowest number, or the last where none is free.
#[tactic(auto, using(crate::proofs::Marks::lowest_by_marks))]
pub fn free_sheet<S: Reads>(s: &S) -> u8
    ensures { result ≡ free_sheet (S.says s.now) }
{
    sheets::lowest_unmarked(s.marks())
}
