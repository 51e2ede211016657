// The loops of setup and begin: pieces written one after the other from a place on.
// A loop for each kind: one over any `Piece` would need a second trait, of how its array is laid in the state, longer than the loops.
// They go by number: each turn writes at a place that it computes.
ghost use Rattle.std.specs.Prelude.{◌≡◌, map, ◌+◌, ◌*◌, ◌≤◌, length, replicate};
ghost use Rattle.arrays.specs.Fresh.{words_from, free_at};
ghost use Rattle.parts.specs.Numbers.{instructions, entries, most_words, most_locks};
ghost use Rattle.parts.specs.Parts.{instr0, entry0};
ghost use Rattle.records.specs.Bytes.{u32s_of};
ghost use Rattle.records.specs.Job.{instrs_of};
ghost use Rattle.cells.specs.Layout.{numbers, word_part, lock_part, instr_part, entry_part};
ghost use Rattle.lent_in.specs.Laid.{Laid, lay_words, lay_locks, lay_program, lay_log};

use cells::piece::Piece;
use parts::{Entry, INSTRUCTIONS, Instr, LockWord, Word};

// The words of these guards and these values' bytes.
pub fn words(s: &mut [u32], guards: &[u8], values: &[u8])
    requires { (numbers ≤ length s.old) × (length guards.now ≤ most_words) × (length values.now ≡ 4 * length guards.now) }
    ensures { Laid word_part lay_words s.old s.new 0 (words_from guards.now (u32s_of values.now)) }
{
    for j in 0..guards.len() {
        let x = Word {
            value: records::u32_at(values, 4 * j),
            count: 0,
            guard: guards[j],
        };
        x.put(s, j);
    }
}

// The locks, free, at these turns' bytes.
pub fn locks(s: &mut [u32], turns: &[u8])
    requires { (numbers ≤ length s.old) × (length turns.now ≤ 4 * most_locks) }
    ensures { Laid lock_part lay_locks s.old s.new 0 (map free_at (u32s_of turns.now)) }
{
    for j in 0..turns.len() / 4 {
        let x = LockWord {
            turn: records::u32_at(turns, 4 * j),
            holder: None,
        };
        x.put(s, j);
    }
}

// A sheet's program is all zeros.
pub fn no_program(s: &mut [u32], base: usize)
    requires { (numbers ≤ length s.old) × (base + instructions ≤ entries) }
    ensures { Laid instr_part lay_program s.old s.new base (replicate instructions instr0) }
{
    for j in 0..INSTRUCTIONS {
        let x = Instr {
            op: 0,
            a: 0,
            b: 0,
            c: 0,
        };
        x.put(s, base + j);
    }
}

// A sheet has the job of these bytes.
pub fn program(s: &mut [u32], base: usize, code: &[u8])
    requires { (numbers ≤ length s.old) × (base + instructions ≤ entries) × (length code.now ≤ 4 * instructions) }
    ensures { Laid instr_part lay_program s.old s.new base (instrs_of code.now) }
{
    for j in 0..code.len() / 4 {
        let x = records::job::first_instr(&code[4 * j..]);
        x.put(s, base + j);
    }
}

// A sheet's log is empty.
pub fn no_log(s: &mut [u32], base: usize)
    requires { (numbers ≤ length s.old) × (base + instructions ≤ entries) }
    ensures { Laid entry_part lay_log s.old s.new base (replicate instructions entry0) }
{
    for j in 0..INSTRUCTIONS {
        let x = Entry { fill: None };
        x.put(s, base + j);
    }
}
