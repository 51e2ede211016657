// Numbers in decimal, bytes in hexadecimal, and what a call told, as text. Each writer, here and in session and files, puts its text into a
// lent buffer from a place on and gives the place after it. The two are no struct: tried, each clause then names the old and the new buffer and place of
// `self`, and has to say that the buffer keeps its length, which is known of a lent slice. Nor are these `Display`: the library says what
// `write!` leaves of a `String` alone, which takes heap, and session's `turn` and files' `replay` fill a buffer that is lent and can't fail.
#![tactic(auto)]

ghost use Rattle.std.specs.Prelude.{◌≡◌, ◌+◌, ◌*◌, ◌≤◌, ◌<◌, [], ◌∷◌, ◌++◌, length};
ghost use Rattle.text.specs.Text.{Puts, most_bytes, decimal_of, number_text, pair_text, three_text, hex_text, bytes_text};
ghost use Rattle.text.specs.Text.{refusal_text, told_text, holder_text};

use hex::encode_to_slice;
use itoa::Buffer;
use parts::Refusal;

// One byte.
#[tactic(auto, using(crate::proofs::Written::puts_byte))]
pub fn put(buf: &mut [u8], at: usize, b: u8) -> usize
    requires { at < length buf.old }
    ensures { Puts at 1 (b ∷ []) buf.old buf.new result }
{
    buf[at] = b;
    at + 1
}

// Two bytes.
pub fn put_two(buf: &mut [u8], at: usize, x: u8, y: u8) -> usize
    requires { at + 2 ≤ length buf.old }
    ensures { Puts at 2 (x ∷ y ∷ []) buf.old buf.new result }
{
    let next = put(buf, at, x);
    put(buf, next, y)
}

// A text as it stands.
fn put_text(buf: &mut [u8], at: usize, text: &[u8]) -> usize
    requires { at + length text.now ≤ length buf.old }
    ensures { Puts at (length text.now) text.now buf.old buf.new result }
{
    let mut next = at;
    for &b in text {
        next = put(buf, next, b);
    }
    next
}

// A number, which has at most 20 digits.
pub fn put_decimal(buf: &mut [u8], at: usize, n: u64) -> usize
    requires { at + 20 ≤ length buf.old }
    ensures { Puts at 20 (decimal_of n) buf.old buf.new result }
{
    let mut digits = Buffer::new();
    put_text(buf, at, digits.format(n).as_bytes())
}

// A space and a number.
pub fn put_number(buf: &mut [u8], at: usize, n: u64) -> usize
    requires { at + 21 ≤ length buf.old }
    ensures { Puts at 21 (number_text n) buf.old buf.new result }
{
    let next = put(buf, at, b' ');
    put_decimal(buf, next, n)
}

// Two numbers.
pub fn put_pair(buf: &mut [u8], at: usize, m: u64, n: u64) -> usize
    requires { at + 42 ≤ length buf.old }
    ensures { Puts at 42 (pair_text m n) buf.old buf.new result }
{
    let next = put_number(buf, at, m);
    put_number(buf, next, n)
}

// Three numbers.
pub fn put_three(buf: &mut [u8], at: usize, l: u64, m: u64, n: u64) -> usize
    requires { at + 63 ≤ length buf.old }
    ensures { Puts at 63 (three_text l m n) buf.old buf.new result }
{
    let next = put_pair(buf, at, l, m);
    put_number(buf, next, n)
}

// Bytes in lower-case hexadecimal.
fn put_hex(buf: &mut [u8], at: usize, bytes: &[u8]) -> usize
    requires { at + 2 * length bytes.now ≤ length buf.old }
    ensures { Puts at (2 * length bytes.now) (hex_text bytes.now) buf.old buf.new result }
{
    let next = at + 2 * bytes.len();
    encode_to_slice(bytes, &mut buf[at..next]).unwrap();
    next
}

// A space, and the bytes, or `-` for none.
pub fn put_bytes(buf: &mut [u8], at: usize, bytes: &[u8]) -> usize
    requires { (length bytes.now ≤ most_bytes) × (at + 1 + 2 * most_bytes ≤ length buf.old) }
    ensures { Puts at (1 + 2 * most_bytes) (bytes_text bytes.now) buf.old buf.new result }
{
    let next = put(buf, at, b' ');
    if bytes.is_empty() {
        return put(buf, next, b'-');
    }
    put_hex(buf, next, bytes)
}

// A refusal's number and place, both by `as`: with `u64::from` of the number the proof did not close.
fn put_refusal(buf: &mut [u8], at: usize, r: Refusal) -> usize
    requires { at + 42 ≤ length buf.old }
    ensures { Puts at 42 (refusal_text r) buf.old buf.new result }
{
    put_pair(buf, at, r.number() as u64, r.place() as u64)
}

// `0 0` where the call was accepted, else its refusal.
#[tactic(auto, using(crate::proofs::Written::puts_case), unfolding(crate::specs::Text::told_text))]
pub fn put_told(buf: &mut [u8], at: usize, told: Result<(), Refusal>) -> usize
    requires { at + 42 ≤ length buf.old }
    ensures { Puts at 42 (told_text told) buf.old buf.new result }
{
    match told {
        Ok(()) => put_pair(buf, at, 0, 0),
        Err(r) => put_refusal(buf, at, r),
    }
}

// The sheet that holds a lock, or `-`.
#[tactic(auto, using(crate::proofs::Written::puts_case), unfolding(crate::specs::Text::holder_text))]
pub fn put_holder(buf: &mut [u8], at: usize, holder: Option<u8>) -> usize
    requires { at + 21 ≤ length buf.old }
    ensures { Puts at 21 (holder_text holder) buf.old buf.new result }
{
    match holder {
        None => put_two(buf, at, b' ', b'-'),
        Some(s) => put_number(buf, at, u64::from(s)),
    }
}

// A lock's turn, and the sheet that holds it.
pub fn put_lock(buf: &mut [u8], at: usize, turn: u64, holder: Option<u8>) -> usize
    requires { at + 42 ≤ length buf.old }
    ensures { Puts at 42 (number_text turn ++ holder_text holder) buf.old buf.new result }
{
    let next = put_number(buf, at, turn);
    put_holder(buf, next, holder)
}
