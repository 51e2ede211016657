// What C can call: the nine calls on numbers that the caller lends, the writer of a call's record, the plain engine, which is lent
// the words, and the search and the writer of books of jobs. A reply's number 0 says accepted; any other is a refusal's, with its place. Fewer numbers than a state takes: 22, and nothing is changed.
// Each call on a state tests its length first, by itself: C may lend any length, and a helper that takes the rest of a call as a closure is longer.
#![tactic(auto)]

ghost use Rattle.std.specs.Prelude.{◌≡◌, ◌≤◌, length};
ghost use Rattle.engine.specs.Calls.{setup_of, begin_of, step_of, collect_of, drop_of};
ghost use Rattle.cells.specs.Layout.{numbers, unpack};
ghost use Rattle.door.specs.Calls.{setup_reply, setup_left, begin_reply, begin_left, step_reply, step_left, collect_reply, collect_left, drop_reply, drop_left, word_reply, lock_reply, show_reply, show_buffer, park_reply, park_buffer, record_reply, record_buffer, plain_reply, plain_values, book_find_reply, book_add_reply, book_add_buffer};

mod replies;

use cells::NUMBERS;

#[repr(C)]
#[derive(Clone, Copy)]
pub struct Reply {
    pub number: u32,
    pub place: u32,
}

#[repr(C)]
#[derive(Clone, Copy)]
pub struct Collected {
    pub number: u32,
    pub place: u32,
    pub answer: u32,
    pub steps: u32,
    pub filled: u32,
}

#[repr(C)]
#[derive(Clone, Copy)]
pub struct WordRead {
    pub number: u32,
    pub place: u32,
    pub value: u32,
    pub count: u32,
    pub guard: u32,
}

#[repr(C)]
#[derive(Clone, Copy)]
pub struct LockRead {
    pub number: u32,
    pub place: u32,
    pub turn: u32,
    pub held: u32,
    pub sheet: u32,
}

#[repr(C)]
#[derive(Clone, Copy)]
pub struct Wrote {
    pub number: u32,
    pub place: u32,
    pub length: u32,
}

#[repr(C)]
#[derive(Clone, Copy)]
pub struct BookFound {
    pub number: u32,
    pub place: u32,
    pub book: u32,
    pub offset: u32,
    pub length: u32,
}

#[repr(C)]
#[derive(Clone, Copy)]
pub struct Plain {
    pub number: u32,
    pub place: u32,
    pub answer: u32,
    pub executed: u32,
}

// A fresh state from a setup record; a refused one gives the blank state. Refused: 22, 5, 6, 12.
pub fn chant_setup(state: &mut [u32], rec: &[u8]) -> Reply
    ensures value { result ≡ setup_reply state.old rec.now }
    ensures state_after { state.new ≡ setup_left state.old rec.now }
    ensures unpacked { numbers ≤ length state.old → unpack state.new ≡ (setup_of rec.now).engine }
{
    if state.len() < NUMBERS {
        return replies::short();
    }
    Reply::from(lent_in::setup(state, rec))
}

// A worker takes a job for a lock. Refused: 22, 1, 3, 4, 2, 5, 6, 7, 8, 9, 10.
pub fn chant_begin(state: &mut [u32], worker: u32, lock: u32, rec: &[u8]) -> Reply
    ensures value { result ≡ begin_reply state.old worker lock rec.now }
    ensures state_after { state.new ≡ begin_left state.old worker lock rec.now }
    ensures unpacked { numbers ≤ length state.old → unpack state.new ≡ (begin_of (unpack state.old) worker lock rec.now).engine }
{
    if state.len() < NUMBERS {
        return replies::short();
    }
    Reply::from(lent_in::begin(state, worker, lock, rec))
}

// One step of a worker's try. Refused: 22, 1, 11, 4.
pub fn chant_step(state: &mut [u32], worker: u32) -> Reply
    ensures value { result ≡ step_reply state.old worker }
    ensures state_after { state.new ≡ step_left state.old worker }
    ensures unpacked { numbers ≤ length state.old → unpack state.new ≡ (step_of (unpack state.old) worker).engine }
{
    if state.len() < NUMBERS {
        return replies::short();
    }
    Reply::from(lent_step::step(state, worker))
}

// The answer of a finished worker, its steps and the entries that it was first to fill; the worker is idle. Refused: 22, 1, 11, 3.
pub fn chant_collect(state: &mut [u32], worker: u32) -> Collected
    ensures value { result ≡ collect_reply state.old worker }
    ensures state_after { state.new ≡ collect_left state.old worker }
    ensures unpacked { numbers ≤ length state.old → unpack state.new ≡ (collect_of (unpack state.old) worker).engine }
{
    if state.len() < NUMBERS {
        return Collected::from(replies::short());
    }
    Collected::from(lent::collect(state, worker))
}

// The worker is idle; a held lock stays held. Refused: 22, 1, 11.
pub fn chant_drop(state: &mut [u32], worker: u32) -> Reply
    ensures value { result ≡ drop_reply state.old worker }
    ensures state_after { state.new ≡ drop_left state.old worker }
    ensures unpacked { numbers ≤ length state.old → unpack state.new ≡ (drop_of (unpack state.old) worker).engine }
{
    if state.len() < NUMBERS {
        return replies::short();
    }
    Reply::from(lent::drop(state, worker))
}

// A word's value, count and guard. Refused: 22, 16.
pub fn chant_read_word(state: &[u32], word: u32) -> WordRead
    ensures { result ≡ word_reply state.now word }
{
    if state.len() < NUMBERS {
        return WordRead::from(replies::short());
    }
    WordRead::from(lent::read_word(state, word))
}

// A lock's turn and the sheet that holds it, if any. Refused: 22, 2.
pub fn chant_read_lock(state: &[u32], lock: u32) -> LockRead
    ensures { result ≡ lock_reply state.now lock }
{
    if state.len() < NUMBERS {
        return LockRead::from(replies::short());
    }
    LockRead::from(lent::read_lock(state, lock))
}

// The job record of a sheet in use. Refused: 22, 14, 13.
pub fn chant_show(state: &[u32], sheet: u32, buffer: &mut [u8]) -> Wrote
    ensures value { result ≡ show_reply state.now sheet buffer.old }
    ensures buffer_after { buffer.new ≡ show_buffer state.now sheet buffer.old }
{
    if state.len() < NUMBERS {
        return Wrote::from(replies::short());
    }
    Wrote::from(lent_out::show(state, sheet, buffer))
}

// The setup record of the present values and turns. Refused: 22, 12, 15, 13.
pub fn chant_park(state: &[u32], buffer: &mut [u8]) -> Wrote
    ensures value { result ≡ park_reply state.now buffer.old }
    ensures buffer_after { buffer.new ≡ park_buffer state.now buffer.old }
{
    if state.len() < NUMBERS {
        return Wrote::from(replies::short());
    }
    Wrote::from(lent_out::park(state, buffer))
}

// The record of a call; step, collect and drop have no lock and no job record. Refused: 17, 5, 6, 13.
pub fn chant_record(call: u32, worker: u32, lock: u32, rec: &[u8], buffer: &mut [u8]) -> Wrote
    ensures value { result ≡ record_reply call worker lock rec.now buffer.old }
    ensures buffer_after { buffer.new ≡ record_buffer call worker lock rec.now buffer.old }
{
    Wrote::from(calls::write::record(call, worker, lock, rec, buffer))
}

// A job record run at once on the words' values, with their guards, under any lock number. Refused: 16, 5, 6, 7, 8.
pub fn chant_plain(values: &mut [u32], guards: &[u8], lock: u32, rec: &[u8]) -> Plain
    ensures value { result ≡ plain_reply values.old guards.now lock rec.now }
    ensures values_after { values.new ≡ plain_values values.old guards.now lock rec.now }
    ensures guards_stay { guards.exit.now ≡ guards.entry.now }
{
    Plain::from(plain::run(values, guards, lock, rec))
}

// Where the job record of a number stands in the line book, or else in the factory book. Refused: 18, 19.
pub fn chant_book_find(line: &[u8], factory: &[u8], number: u32) -> BookFound
    ensures { result ≡ book_find_reply line.now factory.now number }
{
    BookFound::from(book::find(line, factory, number))
}

// A book with one job more, in its place. Refused: 18, 19, 5, 6, 5, 7, 20, 13.
pub fn chant_book_add(book: &[u8], number: u32, rec: &[u8], buffer: &mut [u8]) -> Wrote
    ensures value { result ≡ book_add_reply book.now number rec.now buffer.old }
    ensures buffer_after { buffer.new ≡ book_add_buffer book.now number rec.now buffer.old }
{
    Wrote::from(book::add(book, number, rec, buffer))
}
