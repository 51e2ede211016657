// Setup records: which are accepted, and how the others are refused.
ghost use Rattle.std.specs.Prelude.{◌≡◌, ◌+◌, ◌≤◌, length, take, drop};
ghost use Rattle.records.specs.Bytes.{u32s_of};
ghost use Rattle.records.specs.Setup.{setup_length, outside, guards_told, turns_told, bytes_told, sizes_told, setup_told};

use parts::{LAST_TURN, LOCKS, Refusal, WORDS};

// The lowest guard that is no lock; the first guard is byte 6 of the record.
pub fn guards_told(guards: &[u8], locks: u8) -> Result<(), Refusal>
    ensures { result ≡ guards_told guards.now locks 6 }
{
    match guards.iter().position(|guard| locks <= *guard) {
        Some(j) => Err(Refusal::Range(6 + j)),
        None => Ok(()),
    }
}

// The lowest turn that is past the last, which stand from byte `from` of the record on.
pub fn turns_told(turns: &[u8], from: usize) -> Result<(), Refusal>
    requires { from ≤ 65536 }
    ensures { result ≡ turns_told (u32s_of turns.now) from }
{
    for (j, four) in turns.chunks_exact(4).enumerate() {
        if LAST_TURN < crate::u32_at(four, 0) {
            return Err(Refusal::Range(from + 4 * j));
        }
    }
    Ok(())
}

// Not from 1 to `most`.
fn outside(most: usize, n: usize) -> bool
    ensures { result ≡ outside most n }
{
    n < 1 || most < n
}

// The guards of a record with w words.
fn guards_in(rec: &[u8], l: u8, w: usize) -> Result<(), Refusal>
    requires { (w ≤ 255) × (6 + w ≤ length rec.now) }
    ensures { result ≡ guards_told (take w (drop 6 rec.now)) l 6 }
{
    guards_told(&rec[6..6 + w], l)
}

// The turns of a record, which stand from byte `from` on.
fn turns_in(rec: &[u8], from: usize) -> Result<(), Refusal>
    requires { (from ≤ 65536) × (from ≤ length rec.now) }
    ensures { result ≡ turns_told (u32s_of (drop from rec.now)) from }
{
    turns_told(&rec[from..], from)
}

// "12 for the lowest faulty byte": of a record that has its length.
fn bytes_told(rec: &[u8], l: u8, w: u8) -> Result<(), Refusal>
    requires { length rec.now ≡ setup_length l w }
    ensures { result ≡ bytes_told rec.now l w }
{
    let words = usize::from(w);
    guards_in(rec, l, words)?;
    turns_in(rec, 6 + 5 * words)
}

// "12 for L then W, 5 for the total", and what follows.
fn sizes_told(rec: &[u8], l: u8, w: u8) -> Result<(), Refusal>
    ensures { result ≡ sizes_told rec.now l w }
{
    let locks = usize::from(l);
    let words = usize::from(w);
    if outside(LOCKS, locks) {
        return Err(Refusal::Range(4));
    }
    if outside(WORDS, words) {
        return Err(Refusal::Range(5));
    }
    if rec.len() == 6 + 5 * words + 4 * locks {
        return bytes_told(rec, l, w);
    }
    Err(Refusal::Length)
}

// A setup record: "5 as above, 6, 5 (fewer than 6 bytes), 12 for L then W, 5 for the total, 12 for the lowest faulty byte".
#[tactic(auto, unfolding(crate::specs::Setup::setup_told))]
pub fn setup_told(rec: &[u8]) -> Result<(), Refusal>
    ensures { result ≡ setup_told rec.now }
{
    crate::length_told(rec)?;
    let kind = crate::kind_of(rec);
    if kind != 2 {
        return Err(Refusal::Kind);
    }
    if rec.len() < 6 {
        return Err(Refusal::Length);
    }
    sizes_told(rec, rec[4], rec[5])
}
