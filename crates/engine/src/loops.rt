// What show and park write into a lent buffer, read out of a state element by element; and the lowest held lock. The loops go by number: a
// state gives a piece by its number, and each turn writes at a place that it computes.
ghost use Rattle.std.specs.Prelude.{◌≡◌, ◌+◌, ◌*◌, ◌≤◌, length, take, drop};
ghost use Rattle.parts.specs.Lay.{lay};
ghost use Rattle.parts.specs.Numbers.{entries, most_words, most_locks};
ghost use Rattle.records.specs.Bytes.{u32s_bytes};
ghost use Rattle.records.specs.Job.{code_bytes};
ghost use Rattle.arrays.specs.Fresh.{guards_of, values_of, turns_of};
ghost use Rattle.arrays.specs.Held.{held_told};
ghost use Rattle.engine.specs.Inner.{Walked};

use crate::reads::Reads;
use parts::Refusal;

// The n instructions from `base` on, from byte `at` of the buffer on.
pub fn put_code<S: Reads>(s: &S, base: usize, n: usize, buf: &mut [u8], at: usize)
    requires { Walked (S.says s.now) × (base + n ≤ entries) × (at + 4 * n ≤ length buf.old) }
    ensures { buf.new ≡ lay at (code_bytes (take n (drop base (S.says s.now).program))) buf.old }
{
    for j in 0..n {
        let i = s.instr(base + j);
        records::put_four(buf, at + 4 * j, i.op, i.a, i.b, i.c);
    }
}

// The guards of the first n words.
pub fn put_guards<S: Reads>(s: &S, n: usize, buf: &mut [u8], at: usize)
    requires { Walked (S.says s.now) × (n ≤ most_words) × (at + n ≤ length buf.old) }
    ensures { buf.new ≡ lay at (guards_of (take n (S.says s.now).word)) buf.old }
{
    for j in 0..n {
        buf[at + j] = s.word(j).guard;
    }
}

// The values of the first n words. These and the turns are two loops: over a closure, it would have to be promised that it may be called at
// each index below n, and what it gives there, which is longer than a loop.
pub fn put_values<S: Reads>(s: &S, n: usize, buf: &mut [u8], at: usize)
    requires { Walked (S.says s.now) × (n ≤ most_words) × (at + 4 * n ≤ length buf.old) }
    ensures { buf.new ≡ lay at (u32s_bytes (values_of (take n (S.says s.now).word))) buf.old }
{
    for j in 0..n {
        records::put_u32(buf, at + 4 * j, s.word(j).value);
    }
}

// The turns of the first n locks.
pub fn put_turns<S: Reads>(s: &S, n: usize, buf: &mut [u8], at: usize)
    requires { Walked (S.says s.now) × (n ≤ most_locks) × (at + 4 * n ≤ length buf.old) }
    ensures { buf.new ≡ lay at (u32s_bytes (turns_of (take n (S.says s.now).lock))) buf.old }
{
    for j in 0..n {
        records::put_u32(buf, at + 4 * j, s.lock(j).turn);
    }
}

// Refusal 15 with the lowest of the first n locks that is held.
pub fn held_told<S: Reads>(s: &S, n: usize) -> Result<(), Refusal>
    requires { Walked (S.says s.now) × (n ≤ most_locks) }
    ensures { result ≡ held_told (take n (S.says s.now).lock) 0 }
{
    for j in 0..n {
        if s.lock(j).holder.is_some() {
            return Err(Refusal::Held(j));
        }
    }
    Ok(())
}
