// What setup and begin lay into the arrays: words and lock words from a record's bytes, a job's instructions, an empty log.
ghost use Rattle.std.specs.Prelude.{◌≡◌, map, ◌+◌, ◌*◌, ◌≤◌, length, replicate};
ghost use Rattle.parts.specs.Lay.{lay};
ghost use Rattle.parts.specs.Numbers.{instructions, entries, most_words, most_locks};
ghost use Rattle.parts.specs.Parts.{word0, lock0, instr0, entry0};
ghost use Rattle.records.specs.Bytes.{u32s_of};
ghost use Rattle.records.specs.Job.{instrs_of};
ghost use Rattle.arrays.specs.Fresh.{words_from, free_at};

use parts::{ENTRIES, Entry, INSTRUCTIONS, Instr, LOCKS, LockWord, WORDS, Word};

// The words of these guards and these values' bytes.
pub fn words_from(guards: &[u8], values: &[u8]) -> [Word; WORDS]
    requires { (length guards.now ≤ most_words) × (length values.now ≡ 4 * length guards.now) }
    ensures { result ≡ lay 0 (words_from guards.now (u32s_of values.now)) (replicate most_words word0) }
{
    let mut out = [Word {
        value: 0,
        count: 0,
        guard: 0,
    }; WORDS];
    for (j, guard) in guards.iter().enumerate() {
        out[j] = Word {
            value: records::u32_at(values, 4 * j),
            count: 0,
            guard: *guard,
        };
    }
    out
}

// The locks, free, at these turns' bytes.
pub fn locks_from(turns: &[u8]) -> [LockWord; LOCKS]
    requires { length turns.now ≤ 4 * most_locks }
    ensures { result ≡ lay 0 (map free_at (u32s_of turns.now)) (replicate most_locks lock0) }
{
    let mut out = [LockWord {
        turn: 0,
        holder: None,
    }; LOCKS];
    for (j, turn) in turns.chunks_exact(4).enumerate() {
        out[j] = LockWord {
            turn: records::u32_at(turn, 0),
            holder: None,
        };
    }
    out
}

// A sheet's log is empty. This and the next are two: of `fill` at a type parameter it is known that it clones, and not that a clone is the value.
pub fn log_emptied(log: &mut [Entry; ENTRIES], base: usize)
    requires { base + instructions ≤ entries }
    ensures { log.new ≡ lay base (replicate instructions entry0) log.old }
{
    log[base..base + INSTRUCTIONS].fill(Entry { fill: None });
}

// A sheet's program is all zeros.
pub fn program_emptied(program: &mut [Instr; ENTRIES], base: usize)
    requires { base + instructions ≤ entries }
    ensures { program.new ≡ lay base (replicate instructions instr0) program.old }
{
    program[base..base + INSTRUCTIONS].fill(Instr {
        op: 0,
        a: 0,
        b: 0,
        c: 0,
    });
}

// A sheet has the job of these bytes.
pub fn program_laid(program: &mut [Instr; ENTRIES], base: usize, code: &[u8])
    requires { (base + instructions ≤ entries) × (length code.now ≤ 4 * instructions) }
    ensures { program.new ≡ lay base (instrs_of code.now) program.old }
{
    for (j, four) in code.chunks_exact(4).enumerate() {
        program[base + j] = records::job::first_instr(four);
    }
}
