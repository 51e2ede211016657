// The kinds of pieces: each is read off its numbers and written in place. A piece's numbers are counted from 0 on, as in specs/Codes.antt.
ghost use Rattle.std.specs.Prelude.{◌≡◌, ◌<◌, ◌≤◌, ℕ, List, length, get_or};
ghost use Rattle.parts.specs.Parts.{word0, lock0, instr0, entry0};
ghost use Rattle.steps.specs.Worker.{worker0};
ghost use Rattle.engine.specs.State.{sheet0, with_worker};
ghost use Rattle.engine.specs.declared.Engine.{Engine};
ghost use Rattle.cells.specs.Layout.{numbers, unpack, worker_part, lock_part, word_part, sheet_part, instr_part, entry_part};
ghost use Rattle.cells.specs.Pieces.{Part, put_piece};
ghost use Rattle.cells.specs.State.{with_lock, with_word, with_sheet, with_instr, with_entry};

use crate::{
    ENTRY_BASE, ENTRY_WIDTH, INSTR_BASE, INSTR_WIDTH, LOCK_BASE, LOCK_WIDTH, SHEET_BASE,
    SHEET_WIDTH, WORD_BASE, WORD_WIDTH, WORKER_BASE, WORKER_WIDTH, codes, worker,
};
use engine::Sheet;
use parts::{Entry, Instr, LockWord, Word};
use steps::Worker;

pub trait Piece: Copy {
    // Where the pieces of this kind stand in the numbers, and what they say.
    ghost part: { Part Self };

    // The array of the state that has them, what stands past its end, and the state with piece i anew.
    ghost array: { Engine → List Self };

    ghost zero: { Self };

    ghost with: { Engine → ℕ → Self → Engine };

    // Piece i.
    fn get(s: &[u32], i: usize) -> Self
        requires { (numbers ≤ length s.now) × (i < part.count) }
        ensures { result ≡ get_or (array (unpack s.now)) i zero };

    // Piece i anew.
    fn put(self, s: &mut [u32], i: usize)
        requires { (numbers ≤ length s.old) × (i < part.count) }
        ensures { (s.new ≡ put_piece part s.old i self) × (unpack s.new ≡ with (unpack s.old) i self) };
}

impl Piece for Worker {
    ghost part = { worker_part };

    ghost array = { λ e. e.worker };

    ghost zero = { worker0 };

    ghost with = { with_worker };

    #[tactic(auto, unfolding(crate::specs::Layout::unpack), using(crate::proofs::Pieces::pieces_get))]
    fn get(s: &[u32], i: usize) -> Worker {
        let at = WORKER_BASE + i * WORKER_WIDTH;
        worker::Row { s, at }.worker()
    }

    fn put(self, s: &mut [u32], i: usize) {
        let n = worker::worker_numbers(self);
        codes::write(s, WORKER_BASE + i * WORKER_WIDTH, &n);
    }
}

impl Piece for LockWord {
    ghost part = { lock_part };

    ghost array = { λ e. e.lock };

    ghost zero = { lock0 };

    ghost with = { with_lock };

    #[tactic(auto, unfolding(crate::specs::Layout::unpack), using(crate::proofs::Pieces::pieces_get))]
    fn get(s: &[u32], i: usize) -> LockWord {
        let at = LOCK_BASE + i * LOCK_WIDTH;
        codes::lock_of(s[at + 0], s[at + 1])
    }

    fn put(self, s: &mut [u32], i: usize) {
        let holder = codes::holder_number(self.holder);
        let n = [self.turn, holder];
        codes::write(s, LOCK_BASE + i * LOCK_WIDTH, &n);
    }
}

impl Piece for Word {
    ghost part = { word_part };

    ghost array = { λ e. e.word };

    ghost zero = { word0 };

    ghost with = { with_word };

    #[tactic(auto, unfolding(crate::specs::Layout::unpack), using(crate::proofs::Pieces::pieces_get))]
    fn get(s: &[u32], i: usize) -> Word {
        let at = WORD_BASE + i * WORD_WIDTH;
        let guard = codes::byte(s[at + 2]);
        Word {
            value: s[at + 0],
            count: s[at + 1],
            guard,
        }
    }

    fn put(self, s: &mut [u32], i: usize) {
        let n = [self.value, self.count, u32::from(self.guard)];
        codes::write(s, WORD_BASE + i * WORD_WIDTH, &n);
    }
}

impl Piece for Sheet {
    ghost part = { sheet_part };

    ghost array = { λ e. e.sheet };

    ghost zero = { sheet0 };

    ghost with = { with_sheet };

    #[tactic(auto, unfolding(crate::specs::Layout::unpack), using(crate::proofs::Pieces::pieces_get))]
    fn get(s: &[u32], i: usize) -> Sheet {
        let at = SHEET_BASE + i * SHEET_WIDTH;
        let length = codes::byte(s[at + 0]);
        let done = codes::flag(s[at + 1]);
        Sheet { length, done }
    }

    fn put(self, s: &mut [u32], i: usize) {
        let done = codes::flag_number(self.done);
        let n = [u32::from(self.length), done];
        codes::write(s, SHEET_BASE + i * SHEET_WIDTH, &n);
    }
}

impl Piece for Instr {
    ghost part = { instr_part };

    ghost array = { λ e. e.program };

    ghost zero = { instr0 };

    ghost with = { with_instr };

    #[tactic(auto, unfolding(crate::specs::Layout::unpack), using(crate::proofs::Pieces::pieces_get))]
    fn get(s: &[u32], i: usize) -> Instr {
        let at = INSTR_BASE + i * INSTR_WIDTH;
        codes::instr_in(s[at + 0])
    }

    fn put(self, s: &mut [u32], i: usize) {
        let n = [codes::instr_number(self)];
        codes::write(s, INSTR_BASE + i * INSTR_WIDTH, &n);
    }
}

impl Piece for Entry {
    ghost part = { entry_part };

    ghost array = { λ e. e.entry };

    ghost zero = { entry0 };

    ghost with = { with_entry };

    #[tactic(auto, unfolding(crate::specs::Layout::unpack), using(crate::proofs::Pieces::pieces_get))]
    fn get(s: &[u32], i: usize) -> Entry {
        let at = ENTRY_BASE + i * ENTRY_WIDTH;
        let fill = codes::fill_of(s[at + 0], s[at + 1], s[at + 2]);
        Entry { fill }
    }

    fn put(self, s: &mut [u32], i: usize) {
        let n = codes::fill_numbers(self.fill);
        codes::write(s, ENTRY_BASE + i * ENTRY_WIDTH, &n);
    }
}
