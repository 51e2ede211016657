// A job alone: "the same program on the words' plain values, without log, change counts or helpers".
// It runs on the program's bytes. The eight meanings of an instruction are those of the crate parts.
#![tactic(auto)]

ghost use Rattle.std.specs.Prelude.{◌≡◌, zero, ◌+◌, ◌*◌, ◌^◌, ◌<◌, length, get_or, set, drop};
ghost use Rattle.records.specs.Job.{instrs_of};
ghost use Rattle.alone.specs.Alone.{touched_registers, touched_words, left_of, alone_from, alone_of};

use parts::{Asks, Follows, Instr, Registers};

// What a job alone answers, and how many instructions it executed: the halt counts, those passed over don't.
#[derive(Clone, Copy)]
pub struct Ran {
    pub yes: bool,
    pub executed: usize,
}

// A word's value. What is no word reads as 0: no job that was checked names one.
fn word(words: &[u32], w: u8) -> u32
    ensures { result ≡ get_or words.now w 0 }
{
    words.get(usize::from(w)).copied().unwrap_or(0)
}

// A word takes a value. What is no word takes none.
// By index: once a loan by `get_mut` is over, a proof knows no element.
fn put(words: &mut [u32], w: u8, new: u32)
    ensures { words.new ≡ set words.old w new }
{
    let at = usize::from(w);
    if at < words.len() {
        words[at] = new;
    }
}

// A load, a store or a cam on its word: the registers after it, and the word's new value in its place.
fn touch(i: Instr, r: Registers, w: u8, words: &mut [u32]) -> Registers
    ensures next { result ≡ touched_registers i r w words.old }
    ensures stored { words.new ≡ touched_words i r w words.old }
{
    let value = word(words, w);
    match i.follows(r, value) {
        Follows::Done(next) => next,
        Follows::Swap(new) => {
            put(words, w, new);
            r
        }
    }
}

// The program's bytes once n instructions more are passed over: none where it has no more than n.
fn past(code: &[u8], n: u8) -> &[u8]
    ensures { result.now ≡ drop (4 * n) code.now }
{
    code.get(4 * usize::from(n)..).unwrap_or(&[])
}

// The rest of a program, by its bytes, with the registers and the number executed so far. "A skip goes on with the rest of the
// program from the instruction reached, and the length of what is left falls." A program that ends with no halt answers no. The
// count has room: each instruction that it counts takes four bytes off what is left.
#[tactic(auto, using(crate::proofs::Laws::turns))]
fn go_on(code: &[u8], r: Registers, words: &mut [u32], k: usize) -> Ran
    requires { k + length code.now < 2 ^ 64 }
    ensures { left_of result.yes result.executed words.new ≡ alone_from zero (instrs_of code.now) r words.old k }
{
    if code.len() < 4 {
        return Ran {
            yes: false,
            executed: k,
        };
    }
    let i = records::job::first_instr(code);
    let rest = &code[4..];
    match i.asks(r) {
        Asks::Halt(yes) => Ran {
            yes,
            executed: k + 1,
        },
        Asks::Go(next, n) => go_on(past(rest, n), next, words, k + 1),
        Asks::Touch(w) => {
            let next = touch(i, r, w, words);
            go_on(rest, next, words, k + 1)
        }
    }
}

// A program's bytes, run from instruction 0 with registers 0 on the words' values, which it leaves as the job alone leaves them.
pub fn run(code: &[u8], words: &mut [u32]) -> Ran
    ensures answered { result.yes ≡ (alone_of (instrs_of code.now) words.old).yes }
    ensures counted { result.executed ≡ (alone_of (instrs_of code.now) words.old).executed }
    ensures stored { words.new ≡ (alone_of (instrs_of code.now) words.old).words }
{
    let r = Registers {
        r0: 0,
        r1: 0,
        r2: 0,
        r3: 0,
    };
    go_on(code, r, words, 0)
}
