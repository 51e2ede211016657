// The book of standard jobs (request 08): entries end to end, each a job number and a whole job record, with numbers that strictly rise. A
// lookup hands back the job record as it stands inside one of two lent books; the writer writes a book with one job more.
#![tactic(auto)]

ghost use Rattle.std.specs.Prelude.{◌≡◌, ◌≤◌, ◌<◌, ◌+◌, ◌^◌, length};
ghost use Rattle.book.specs.Book.{book_number, found_in, in_books, find_of, lookup_of, lookup_at};
ghost use Rattle.book.specs.Add.{add_of, add_left};

mod entry;
mod formed;
mod walk;
mod writer;

use parts::Refusal;
use walk::GoodBook;

// The two books of a search.
#[derive(Clone, Copy, PartialEq, Eq)]
pub enum Book {
    Line,
    Factory,
}

impl Book {
    // The number that C knows it by. A method, as `Refusal::number` is.
    pub fn number(self) -> u32
        ensures { result ≡ book_number self }
    {
        match self {
            Book::Line => 1,
            Book::Factory => 2,
        }
    }
}

// The entry of a number in a book: where it begins, and its length.
#[derive(Clone, Copy)]
pub struct Place {
    pub at: usize,
    pub size: usize,
}

// Where a search found the job record: in which book, where it begins there, and its length.
#[derive(Clone, Copy)]
pub struct Found {
    pub book: Book,
    pub from: usize,
    pub length: usize,
}

// Why a search found nothing, and, where a book is malformed, which one.
#[derive(Clone, Copy)]
pub struct NotFound {
    pub book: Option<Book>,
    pub refusal: Refusal,
}

// Found in this book, at this place.
fn found_in(book: Book, p: Place) -> Result<Found, NotFound>
    requires { (6 ≤ p.size) × (p.at + p.size < 2 ^ 64) }
    ensures { result ≡ found_in book p.at p.size }
{
    Ok(Found {
        book,
        from: p.at + entry::HEAD,
        length: p.size - entry::HEAD,
    })
}

// Two good books are searched, the line book first.
#[tactic(auto, using(crate::proofs::Finds::place_fits, crate::proofs::Finds::from_line, crate::proofs::Finds::from_factory, crate::proofs::Finds::from_none))]
fn in_books(line: GoodBook, factory: GoodBook, number: u32) -> Result<Found, NotFound>
    ensures { result ≡ in_books line.entry.bytes.now factory.entry.bytes.now number }
{
    if let Ok(p) = line.place_of(number) {
        return found_in(Book::Line, p);
    }
    if let Ok(q) = factory.place_of(number) {
        return found_in(Book::Factory, q);
    }
    Err(NotFound {
        book: None,
        refusal: Refusal::NotThere,
    })
}

// Both books are checked whole, the line book first; then the number is looked for. Refused: 18, 19.
#[tactic(auto, unfolding(crate::specs::Book::find_of))]
pub fn find(line: &[u8], factory: &[u8], number: u32) -> Result<Found, NotFound>
    ensures { result ≡ find_of line.now factory.now number }
{
    let line = GoodBook::checked(line).map_err(|refusal| NotFound {
        book: Some(Book::Line),
        refusal,
    })?;
    let factory = GoodBook::checked(factory).map_err(|refusal| NotFound {
        book: Some(Book::Factory),
        refusal,
    })?;
    in_books(line, factory, number)
}

// The job record as it stands inside the book that has it; an empty part where `find` refuses.
#[tactic(auto, using(crate::proofs::Finds::line_fits, crate::proofs::Finds::factory_fits, crate::proofs::Finds::line_part, crate::proofs::Finds::line_stands, crate::proofs::Finds::factory_part, crate::proofs::Finds::factory_stands, crate::proofs::Finds::empty_part, crate::proofs::Finds::empty_factory, crate::proofs::Finds::empty_line, crate::proofs::Finds::empty_none))]
pub fn lookup<'a>(line: &'a [u8], factory: &'a [u8], number: u32) -> &'a [u8]
    ensures bytes { result.now ≡ lookup_of line.now factory.now number }
    ensures stands { result.ref_ptr ≡ lookup_at line.now factory.now number line.entry.ref_ptr factory.entry.ref_ptr }
{
    match find(line, factory, number) {
        Ok(f) => match f.book {
            Book::Line => &line[f.from..f.from + f.length],
            Book::Factory => &factory[f.from..f.from + f.length],
        },
        Err(refused) => match refused.book {
            Some(Book::Factory) => &factory[0..0],
            Some(Book::Line) | None => &line[0..0],
        },
    }
}

// A book with one job more, in its place, written to the front of a lent buffer; the bytes after it stay. Tells the length of what was
// written. Refused: 18, 19, 5, 6, 5, 7, 20, 13, and nothing is written then.
#[tactic(auto, unfolding(crate::specs::Add::add_of, crate::specs::Add::add_left, crate::specs::Add::add_told), using(crate::proofs::Adds::adds_by))]
pub fn add(book: &[u8], number: u32, rec: &[u8], buf: &mut [u8]) -> Result<usize, Refusal>
    ensures value { result ≡ add_of book.now number rec.now (length buf.old) }
    ensures buf_after { buf.new ≡ add_left book.now number rec.now buf.old }
{
    let good = GoodBook::checked(book)?;
    writer::add_told(good, number, rec, buf.len())?;
    writer::written(good, number, rec, buf);
    Ok(book.len() + (entry::HEAD + rec.len()))
}
