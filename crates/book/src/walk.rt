// A book walked from its first entry to its last: the check, and the place of a number.
// The loops walk `rest` by hand: an iterator over a good book's entries was measured, and costs a lookup from C three instructions more an entry
// (3 in 100); the check can't use it, since it trusts no length before it has looked at the entry.
ghost use Rattle.std.specs.Prelude.{◌≡◌, IfOk, Ok, Err};
ghost use Rattle.parts.specs.declared.Refusal.{Refusal};
ghost use Rattle.book.specs.Book.{book_told, place_of};

use crate::Place;
use crate::entry::{bad_entry, number_of};
use parts::Refusal;

// Is it a book? 18 at the first bad entry: `rest` is what is left from the entry at `at` on, and `low` the lowest number that may come.
// Not inlined: together with `checked` it takes two instructions more an entry.
#[inline(never)]
#[tactic(auto, using(crate::proofs::Turns::walk_end, crate::proofs::Turns::walk_bad, crate::proofs::Turns::walk_turn, crate::proofs::Turns::front_two, crate::proofs::Turns::front_six, crate::proofs::Turns::front_starts, crate::proofs::Turns::front_ends, crate::proofs::Turns::part_length))]
fn book_told(book: &[u8]) -> Result<(), Refusal>
    ensures { result ≡ book_told book.now }
{
    let mut at: usize = 0;
    let mut low: u32 = 0;
    let mut rest = book;
    while 0 < rest.len() {
        if bad_entry(low, rest) {
            return Err(Refusal::Malformed(at));
        }
        let size = records::length_of(rest);
        low = number_of(rest) + 1;
        rest = &rest[size..];
        at += size;
    }
    Ok(())
}

// A book that was checked: it is good.
#[derive(Clone, Copy)]
pub struct GoodBook<'a> {
    pub bytes: &'a [u8],
    ghost good: { book_told bytes.now ≡ Ok tt },
}

impl<'a> GoodBook<'a> {
    // Checked whole.
    pub fn checked(book: &'a [u8]) -> Result<GoodBook<'a>, Refusal>
        ensures good { IfOk result (λ g. g.bytes.now ≡ book.now) }
        ensures refused { (r : Refusal) → result ≡ Err r → book_told book.now ≡ Err r }
    {
        book_told(book)?;
        Ok(GoodBook { bytes: book })
    }

    // The place of a number, or where it would stand.
    #[tactic(auto, using(crate::proofs::Turns::left_six, crate::proofs::Turns::left_two, crate::proofs::Turns::left_starts, crate::proofs::Turns::left_ends, crate::proofs::Turns::place_end, crate::proofs::Turns::place_above, crate::proofs::Turns::place_here, crate::proofs::Turns::place_turn, crate::proofs::Turns::left_next, crate::proofs::Turns::part_length))]
    pub fn place_of(self, number: u32) -> Result<Place, usize>
        ensures { result ≡ place_of self.entry.bytes.now number }
    {
        let mut at: usize = 0;
        let mut rest = self.bytes;
        while 0 < rest.len() {
            let n = number_of(rest);
            let size = records::length_of(rest);
            if number < n {
                return Err(at);
            }
            if n == number {
                return Ok(Place { at, size });
            }
            rest = &rest[size..];
            at += size;
        }
        Err(at)
    }
}
