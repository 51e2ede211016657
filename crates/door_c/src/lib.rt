// The archive for C: each of the calls of the crate `door`, under its name and with its clauses. A slice is passed as a pointer and a
// length.
#![tactic(auto)]

ghost use Rattle.std.specs.Prelude.{◌≡◌, ◌≤◌, length};
ghost use Rattle.engine.specs.Calls.{setup_of, begin_of, step_of, collect_of, drop_of};
ghost use Rattle.cells.specs.Layout.{numbers, unpack};
ghost use Rattle.door.specs.Calls.{setup_reply, setup_left, begin_reply, begin_left, step_reply, step_left, collect_reply, collect_left, drop_reply, drop_left, word_reply, lock_reply, show_reply, show_buffer, park_reply, park_buffer, record_reply, record_buffer, plain_reply, plain_values, book_find_reply, book_add_reply, book_add_buffer};

use door::{BookFound, Collected, LockRead, Plain, Reply, WordRead, Wrote};

#[unsafe(no_mangle)]
pub extern "C" fn chant_setup(state: &mut [u32], rec: &[u8]) -> Reply
    ensures value { result ≡ setup_reply state.old rec.now }
    ensures state_after { state.new ≡ setup_left state.old rec.now }
    ensures unpacked { numbers ≤ length state.old → unpack state.new ≡ (setup_of rec.now).engine }
{
    door::chant_setup(state, rec)
}

#[unsafe(no_mangle)]
pub extern "C" fn chant_begin(state: &mut [u32], worker: u32, lock: u32, rec: &[u8]) -> Reply
    ensures value { result ≡ begin_reply state.old worker lock rec.now }
    ensures state_after { state.new ≡ begin_left state.old worker lock rec.now }
    ensures unpacked { numbers ≤ length state.old → unpack state.new ≡ (begin_of (unpack state.old) worker lock rec.now).engine }
{
    door::chant_begin(state, worker, lock, rec)
}

#[unsafe(no_mangle)]
pub extern "C" fn chant_step(state: &mut [u32], worker: u32) -> Reply
    ensures value { result ≡ step_reply state.old worker }
    ensures state_after { state.new ≡ step_left state.old worker }
    ensures unpacked { numbers ≤ length state.old → unpack state.new ≡ (step_of (unpack state.old) worker).engine }
{
    door::chant_step(state, worker)
}

#[unsafe(no_mangle)]
pub extern "C" fn chant_collect(state: &mut [u32], worker: u32) -> Collected
    ensures value { result ≡ collect_reply state.old worker }
    ensures state_after { state.new ≡ collect_left state.old worker }
    ensures unpacked { numbers ≤ length state.old → unpack state.new ≡ (collect_of (unpack state.old) worker).engine }
{
    door::chant_collect(state, worker)
}

#[unsafe(no_mangle)]
pub extern "C" fn chant_drop(state: &mut [u32], worker: u32) -> Reply
    ensures value { result ≡ drop_reply state.old worker }
    ensures state_after { state.new ≡ drop_left state.old worker }
    ensures unpacked { numbers ≤ length state.old → unpack state.new ≡ (drop_of (unpack state.old) worker).engine }
{
    door::chant_drop(state, worker)
}

#[unsafe(no_mangle)]
pub extern "C" fn chant_read_word(state: &[u32], word: u32) -> WordRead
    ensures { result ≡ word_reply state.now word }
{
    door::chant_read_word(state, word)
}

#[unsafe(no_mangle)]
pub extern "C" fn chant_read_lock(state: &[u32], lock: u32) -> LockRead
    ensures { result ≡ lock_reply state.now lock }
{
    door::chant_read_lock(state, lock)
}

#[unsafe(no_mangle)]
pub extern "C" fn chant_show(state: &[u32], sheet: u32, buffer: &mut [u8]) -> Wrote
    ensures value { result ≡ show_reply state.now sheet buffer.old }
    ensures buffer_after { buffer.new ≡ show_buffer state.now sheet buffer.old }
{
    door::chant_show(state, sheet, buffer)
}

#[unsafe(no_mangle)]
pub extern "C" fn chant_park(state: &[u32], buffer: &mut [u8]) -> Wrote
    ensures value { result ≡ park_reply state.now buffer.old }
    ensures buffer_after { buffer.new ≡ park_buffer state.now buffer.old }
{
    door::chant_park(state, buffer)
}

#[unsafe(no_mangle)]
pub extern "C" fn chant_record(
    call: u32,
    worker: u32,
    lock: u32,
    rec: &[u8],
    buffer: &mut [u8],
) -> Wrote
    ensures value { result ≡ record_reply call worker lock rec.now buffer.old }
    ensures buffer_after { buffer.new ≡ record_buffer call worker lock rec.now buffer.old }
{
    door::chant_record(call, worker, lock, rec, buffer)
}

#[unsafe(no_mangle)]
pub extern "C" fn chant_plain(values: &mut [u32], guards: &[u8], lock: u32, rec: &[u8]) -> Plain
    ensures value { result ≡ plain_reply values.old guards.now lock rec.now }
    ensures values_after { values.new ≡ plain_values values.old guards.now lock rec.now }
    ensures guards_stay { guards.exit.now ≡ guards.entry.now }
{
    door::chant_plain(values, guards, lock, rec)
}

#[unsafe(no_mangle)]
pub extern "C" fn chant_book_find(line: &[u8], factory: &[u8], number: u32) -> BookFound
    ensures { result ≡ book_find_reply line.now factory.now number }
{
    door::chant_book_find(line, factory, number)
}

#[unsafe(no_mangle)]
pub extern "C" fn chant_book_add(book: &[u8], number: u32, rec: &[u8], buffer: &mut [u8]) -> Wrote
    ensures value { result ≡ book_add_reply book.now number rec.now buffer.old }
    ensures buffer_after { buffer.new ≡ book_add_buffer book.now number rec.now buffer.old }
{
    door::chant_book_add(book, number, rec, buffer)
}
