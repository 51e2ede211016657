// What is written of a call: one line, put into a lent buffer.
ghost use Rattle.std.specs.Prelude.{◌≡◌, ◌+◌, ◌≤◌, [], ◌∷◌, ◌++◌, length, take};
ghost use Rattle.text.specs.Text.{Puts, most_bytes, decimal_of, number_text, bytes_text, told_text};
ghost use Rattle.session.specs.ReplyText.{lent_of, most_tail, tail_text, most_reply, reply_text, bad_text};

use parts::Refusal;
use text::{put, put_bytes, put_decimal, put_lock, put_number, put_three, put_told, put_two};

// What a call tells after its refusal and place, as it is printed: what is proved of a line speaks of these numbers.
#[derive(Clone, Copy)]
pub enum Tail {
    Nothing,
    Steps(u32),
    Answer(u32, u32, u32),
    Word(u32, u32, u32),
    Lock(u32, Option<u8>),
    // How many bytes were written, and how many were lent.
    Bytes(usize, u32),
}

// How many bytes are lent where n are asked for: at most 512.
pub fn lent(n: u32) -> usize
    ensures { (result ≡ lent_of n) × (result ≤ most_bytes) }
{
    (n as usize).min(512)
}

// How many bytes a writer wrote, and all that it was lent.
fn put_lent(buf: &mut [u8], at: usize, written: u64, n: u32, bytes: [u8; 512]) -> usize
    requires { at + most_tail ≤ length buf.old }
    ensures { Puts at most_tail (number_text written ++ bytes_text (take (lent_of n) bytes)) buf.old buf.new result }
{
    let next = put_number(buf, at, written);
    put_bytes(buf, next, &bytes[..lent(n)])
}

// What is told after the refusal and its place.
#[tactic(auto, using(text::proofs::Written::puts_case_of), unfolding(crate::specs::ReplyText::tail_text))]
fn put_tail(buf: &mut [u8], at: usize, tail: Tail, bytes: [u8; 512]) -> usize
    requires { at + most_tail ≤ length buf.old }
    ensures { Puts at most_tail (tail_text tail bytes) buf.old buf.new result }
{
    match tail {
        Tail::Nothing => at,
        Tail::Steps(n) => put_number(buf, at, u64::from(n)),
        Tail::Answer(answer, steps, filled) => put_three(
            buf,
            at,
            u64::from(answer),
            u64::from(steps),
            u64::from(filled),
        ),
        Tail::Word(value, count, guard) => put_three(
            buf,
            at,
            u64::from(value),
            u64::from(count),
            u64::from(guard),
        ),
        Tail::Lock(turn, holder) => put_lock(buf, at, u64::from(turn), holder),
        Tail::Bytes(written, n) => put_lent(buf, at, written as u64, n, bytes),
    }
}

// The line's number, and what was told of its call.
fn put_head(buf: &mut [u8], line: u32, told: Result<(), Refusal>) -> usize
    requires { 62 ≤ length buf.old }
    ensures { Puts 0 62 (decimal_of line ++ told_text told) buf.old buf.new result }
{
    let next = put_decimal(buf, 0, u64::from(line));
    put_told(buf, next, told)
}

// The rest of a line, and its end.
fn put_rest(buf: &mut [u8], at: usize, tail: Tail, bytes: [u8; 512]) -> usize
    requires { at + most_tail + 1 ≤ length buf.old }
    ensures { Puts at (most_tail + 1) (tail_text tail bytes ++ (10 ∷ [])) buf.old buf.new result }
{
    let next = put_tail(buf, at, tail, bytes);
    put(buf, next, b'\n')
}

// `LINE refusal place ...`
pub fn put_reply(
    buf: &mut [u8],
    line: u32,
    told: Result<(), Refusal>,
    tail: Tail,
    bytes: [u8; 512],
) -> usize
    requires { most_reply ≤ length buf.old }
    ensures { Puts 0 most_reply (reply_text line told tail bytes) buf.old buf.new result }
{
    let next = put_head(buf, line, told);
    put_rest(buf, next, tail, bytes)
}

// A space, a question mark and the line's end.
fn put_mark(buf: &mut [u8], at: usize) -> usize
    requires { at + 3 ≤ length buf.old }
    ensures { Puts at 3 (32 ∷ 63 ∷ 10 ∷ []) buf.old buf.new result }
{
    let next = put(buf, at, b' ');
    put_two(buf, next, b'?', b'\n')
}

// `LINE ?`
pub fn put_bad(buf: &mut [u8], line: u32) -> usize
    requires { most_reply ≤ length buf.old }
    ensures { Puts 0 most_reply (bad_text line) buf.old buf.new result }
{
    let next = put_decimal(buf, 0, u64::from(line));
    put_mark(buf, next)
}
