// The writer: its order of refusals, and the bytes that it writes.
ghost use Rattle.std.specs.Prelude.{◌≡◌, ltb, length, ◌+◌, ◌≤◌};
ghost use Rattle.parts.specs.Lay.{lay};
ghost use Rattle.parts.specs.Told.{first_of, refuse_if};
ghost use Rattle.parts.specs.declared.Refusal.TheVariants.{Buffer};
ghost use Rattle.book.specs.Book.{head_bytes, book_told, place_at};
ghost use Rattle.book.specs.Add.{last_number, entry_bytes, with_entry, place_order, job_order, add_told, added_bytes};
ghost use Rattle.book.specs.Inner.{job_bytes, Adds};

use crate::Place;
use crate::entry::{HEAD, KIND};
use crate::formed::formed_told;
use crate::walk::GoodBook;
use parts::Refusal;

// The highest job number.
const LAST: u32 = 65535;

// Refusal 13: the buffer is shorter than the book and an entry of so many bytes.
fn room_told(book: usize, entry: usize, room: usize) -> Result<(), Refusal>
    ensures { result ≡ refuse_if (ltb room (book + entry)) Buffer }
{
    if room < entry || room - entry < book {
        return Err(Refusal::Buffer);
    }
    Ok(())
}

// Refusals 20 and 13, of an entry of so many bytes.
#[tactic(auto, using(crate::proofs::Finds::is_there_by, crate::proofs::Finds::is_not_there))]
fn place_told(book: GoodBook, number: u32, entry: usize, room: usize) -> Result<(), Refusal>
    ensures { result ≡ first_of (place_order book.entry.bytes.now number entry room) }
{
    match book.place_of(number) {
        Ok(_) => Err(Refusal::Present),
        Err(_) => room_told(book.bytes.len(), entry, room),
    }
}

// Refusals 5, 6 and 7 of the new job, then 20 and 13.
fn job_told(book: GoodBook, number: u32, rec: &[u8], room: usize) -> Result<(), Refusal>
    ensures { result ≡ first_of (job_order book.entry.bytes.now number rec.now room) }
{
    formed_told(rec)?;
    place_told(book, number, HEAD + rec.len(), room)
}

// Every refusal of the writer after those of the book itself, in its order.
#[tactic(auto, unfolding(crate::specs::Add::add_told))]
pub fn add_told(book: GoodBook, number: u32, rec: &[u8], room: usize) -> Result<(), Refusal>
    ensures { result ≡ add_told book.entry.bytes.now number rec.now room }
{
    if LAST < number {
        return Err(Refusal::NotThere);
    }
    job_told(book, number, rec, room)
}

// An entry from byte `at` on.
#[tactic(auto, using(crate::proofs::Adds::entry_laid))]
fn put_entry(number: u32, rec: &[u8], buf: &mut [u8], at: usize)
    requires { (number ≤ last_number) × (length rec.now ≤ job_bytes) × (at + (head_bytes + length rec.now) ≤ length buf.old) }
    ensures { buf.new ≡ lay at (entry_bytes number rec.now) buf.old }
{
    let size = HEAD + rec.len();
    let [size_low, size_high, ..] = size.to_le_bytes();
    let [number_low, number_high, ..] = number.to_le_bytes();
    let head = [size_low, size_high, KIND, 0, number_low, number_high];
    records::put_bytes(&head, buf, at);
    records::put_bytes(rec, buf, at + HEAD);
}

// The book with the new entry before its byte `at`, from the first byte on.
#[tactic(auto, using(crate::proofs::Adds::front_length, crate::proofs::Adds::book_laid, crate::proofs::Adds::entry_room, crate::proofs::Adds::rest_room))]
fn laid(book: &[u8], at: usize, number: u32, rec: &[u8], buf: &mut [u8])
    requires { (at ≤ length book.now) × (number ≤ last_number) × (length rec.now ≤ job_bytes) × (length book.now + (head_bytes + length rec.now) ≤ length buf.old) }
    ensures { buf.new ≡ lay 0 (with_entry book.now at number rec.now) buf.old }
{
    records::put_bytes(&book[..at], buf, 0);
    put_entry(number, rec, buf, at);
    records::put_bytes(&book[at..], buf, at + (HEAD + rec.len()));
}

// Where an entry of the number begins, or would begin.
fn place_at(p: Result<Place, usize>) -> usize
    ensures { result ≡ place_at p }
{
    match p {
        Ok(p) => p.at,
        Err(at) => at,
    }
}

// The book with the new entry in its place, from the first byte on.
#[tactic(auto, using(crate::proofs::Adds::placed_by, crate::proofs::Adds::placed_in, crate::proofs::Theory::Entries::job_size))]
pub fn written(book: GoodBook, number: u32, rec: &[u8], buf: &mut [u8])
    requires { Adds book.bytes.now number rec.now (length buf.old) }
    ensures { buf.new ≡ lay 0 (added_bytes book.entry.bytes.now number rec.now) buf.old }
{
    let p = book.place_of(number);
    laid(book.bytes, place_at(p), number, rec, buf);
}
