// What the numbers of a piece say, and the numbers that are written for it: each function is the definition of specs/Codes.antt
// that has its name.
// Functions and no `From`: the types are of other crates, where an impl would have to stand, and these codes are of lent numbers alone.
ghost use Rattle.std.specs.Prelude.{◌≡◌, ◌+◌, ◌≤◌, length};
ghost use Rattle.parts.specs.Lay.{lay};
ghost use Rattle.cells.specs.Codes.{byte_of, flag_of, flag_number, holder_of, holder_number, lock_word_of, packed_instr, instr_number, fill_of, fill_numbers, answer_in, HolderFits};

use parts::{Answer, Instr, LockWord, Reading};

// Numbers over those from `at` on. A loop, since `copy_from_slice` costs eight instructions more a piece, and a begin writes some eighty.
pub fn write(s: &mut [u32], at: usize, n: &[u32])
    requires { at + length n.now ≤ length s.old }
    ensures { s.new ≡ lay at n.now s.old }
{
    for j in 0..n.len() {
        s[at + j] = n[j];
    }
}

pub fn byte(x: u32) -> u8
    ensures { result ≡ byte_of x }
{
    (x % 256) as u8
}

pub fn flag(x: u32) -> bool
    ensures { result ≡ flag_of x }
{
    x != 0
}

pub fn flag_number(b: bool) -> u32
    ensures { result ≡ flag_number b }
{
    u32::from(b)
}

pub fn holder_of(x: u32) -> Option<u8>
    ensures { result ≡ holder_of x }
{
    if x == 0 {
        return None;
    }
    Some(byte(x - 1))
}

pub fn holder_number(h: Option<u8>) -> u32
    ensures { (result ≡ holder_number h) × HolderFits h }
{
    match h {
        None => 0,
        Some(s) => u32::from(s) + 1,
    }
}

pub fn lock_of(turn: u32, holder: u32) -> LockWord
    ensures { result ≡ lock_word_of turn holder }
{
    LockWord {
        turn,
        holder: holder_of(holder),
    }
}

pub fn instr_in(x: u32) -> Instr
    ensures { result ≡ packed_instr x }
{
    let [op, a, b, c] = x.to_le_bytes();
    Instr { op, a, b, c }
}

pub fn instr_number(x: Instr) -> u32
    ensures { (result ≡ instr_number x) × (packed_instr (instr_number x) ≡ x) }
{
    u32::from_le_bytes([x.op, x.a, x.b, x.c])
}

pub fn fill_of(filled: u32, value: u32, count: u32) -> Option<Reading>
    ensures { result ≡ fill_of filled value count }
{
    if filled == 0 {
        return None;
    }
    Some(Reading { value, count })
}

pub fn fill_numbers(x: Option<Reading>) -> [u32; 3]
    ensures { result ≡ fill_numbers x }
{
    match x {
        None => [0, 0, 0],
        Some(r) => [1, r.value, r.count],
    }
}

#[tactic(auto, unfolding(crate::specs::Codes::answer_in))]
pub fn answer_of(x: u32) -> Answer
    ensures { result ≡ answer_in x }
{
    match x {
        1 => Answer::RanYes,
        2 => Answer::RanNo,
        4 => Answer::Worn,
        _ => Answer::NotTaken,
    }
}
