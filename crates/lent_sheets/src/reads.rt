// Numbers that a caller lends, to be read as the state that they say. The slice is shared: of one that is written through a struct around it,
// what it says then is not known once the struct is gone.
ghost use Rattle.std.specs.Prelude.{◌≤◌, length};
ghost use Rattle.cells.specs.Layout.{numbers, unpack};

use cells::piece::Piece;
use cells::worker::{IDLE, RELEASE, TAG};
use engine::Sheet;
use engine::reads::Reads;
use engine::write::instruction_count;
use parts::{Instr, LockWord, Refusal, Word};

#[derive(Clone, Copy)]
pub struct Lent<'a> {
    pub s: &'a [u32],
    ghost enough: { numbers ≤ length s.now },
}

impl<'a> Reads for Lent<'a> {
    ghost says = { λ e. unpack e.s.now };

    fn lock_count(&self) -> usize {
        cells::lock_count(self.s)
    }

    fn word_count(&self) -> usize {
        cells::word_count(self.s)
    }

    fn lock(&self, i: usize) -> LockWord {
        LockWord::get(self.s, i)
    }

    fn word(&self, i: usize) -> Word {
        Word::get(self.s, i)
    }

    fn instr(&self, i: usize) -> Instr {
        Instr::get(self.s, i)
    }

    fn program_length(&self, sheet: usize) -> usize {
        instruction_count(Sheet::get(self.s, sheet).length)
    }

    fn marks(&self) -> u32 {
        crate::marks_of(self.s)
    }

    // Of the worker only the tag is read.
    #[tactic(auto, using(cells::proofs::Tags::begin_idle, cells::proofs::Tags::begin_way, cells::proofs::Tags::begin_end))]
    fn may_begin(&self, w: usize) -> Result<(), Refusal> {
        let tag = cells::get_number(self.s, w, TAG);
        if tag == IDLE {
            return Ok(());
        }
        if tag <= RELEASE {
            return Err(Refusal::WorkerUnderWay);
        }
        Err(Refusal::NotCollected)
    }
}
