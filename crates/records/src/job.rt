// Job records: which are accepted, and how the others are refused.
ghost use Rattle.std.specs.Prelude.{◌≡◌, ◌≤◌, length};
ghost use Rattle.parts.specs.Numbers.{instructions};
ghost use Rattle.parts.specs.Pick.{◌or◌};
ghost use Rattle.parts.specs.Told.{first_of};
ghost use Rattle.records.specs.Inner.{Lowest};
ghost use Rattle.records.specs.Job.{first_instr, instrs_of, no_register, badly_formed, ends_otherwise, strays, strays_at, instr_told, code_told, forms, kind_for, no_job_length, no_job_kind, outside_kind, form_order, job_told};

use parts::{INSTRUCTIONS, Instr, Refusal};

// The most instructions in a record of kind 1; kind 4 carries more.
const SHORT: usize = 32;

// The longest job record.
pub const JOB_BYTES: usize = 4 + 4 * INSTRUCTIONS;

// "Register fields are 0 to 3."
fn no_register(r: u8) -> bool
    ensures { result ≡ no_register r }
{
    3 < r
}

// "The first byte of an instruction decides among eight meanings, and 8 to 255 are bad." A field that has no meaning is 0; a halt's
// first is no or yes; a skip passes over at least one instruction and lands on one of the `left` that follow it.
#[tactic(auto, unfolding(crate::specs::Job::badly_formed))]
pub fn badly_formed(i: Instr, left: usize) -> bool
    ensures { result ≡ badly_formed i left }
{
    match i.op {
        0 => 1 < i.a || 0 < i.b || 0 < i.c,
        1 => no_register(i.a),
        2 | 3 => no_register(i.a) || 0 < i.c,
        4 => no_register(i.a) || no_register(i.b),
        5 | 6 => no_register(i.a) || no_register(i.b) || 0 < i.c,
        7 => no_register(i.a) || no_register(i.b) || i.c < 1 || left <= usize::from(i.c),
        8..=255 => true,
    }
}

// "The last instruction is a halt."
fn ends_otherwise(i: Instr, left: usize) -> bool
    ensures { result ≡ ends_otherwise i left }
{
    left == 0 && 0 < i.op
}

// "Instruction badly formed, or the last is no halt."
#[tactic(auto, unfolding(crate::specs::Job::badly_formed))]
pub fn faulty(i: Instr, left: usize) -> bool
    ensures { result ≡ (badly_formed i left or ends_otherwise i left) }
{
    badly_formed(i, left) || ends_otherwise(i, left)
}

// Word w is guarded by another lock, or is no word.
fn strays(w: u8, lock: u32, guards: &[u8]) -> bool
    ensures { result ≡ strays w lock guards.now }
{
    let at = usize::from(w);
    guards.len() <= at || u32::from(guards[at]) != lock
}

// "A load, store or cam names a word this lock doesn't guard, or no word."
#[tactic(auto, unfolding(crate::specs::Job::strays_at))]
pub fn strays_at(i: Instr, lock: u32, guards: &[u8]) -> bool
    ensures { result ≡ strays_at i lock guards.now }
{
    match i.op {
        2 | 3 => strays(i.b, lock, guards),
        4 => strays(i.c, lock, guards),
        0 | 1 | 5 | 6 | 7 | 8..=255 => false,
    }
}

// One instruction, which `left` others follow: "7 before 8 there".
#[tactic(auto, unfolding(crate::specs::Job::instr_told))]
pub fn instr_told(
    i: Instr,
    place: usize,
    left: usize,
    lock: u32,
    guards: &[u8],
) -> Result<(), Refusal>
    ensures { result ≡ instr_told i place left lock guards.now }
{
    if faulty(i, left) {
        return Err(Refusal::Instruction(place));
    }
    if strays_at(i, lock, guards) {
        return Err(Refusal::Guard(place));
    }
    Ok(())
}

// The instruction of the first four bytes.
pub fn first_instr(s: &[u8]) -> Instr
    requires { 4 ≤ length s.now }
    ensures { result ≡ first_instr s.now }
{
    Instr {
        op: s[0],
        a: s[1],
        b: s[2],
        c: s[3],
    }
}

// The lowest refusal that `told` tells of an instruction, its place, and how many others follow it.
pub fn lowest<F: Fn(Instr, usize, usize) -> Result<(), Refusal>>(
    code: &[u8],
    told: F,
) -> Result<(), Refusal>
    requires { F.IsAlwaysCallable told }
    ensures { Lowest (F.post told) (instrs_of code.now) 0 result }
{
    let count = code.len() / 4;
    for (place, four) in code.chunks_exact(4).enumerate() {
        told(first_instr(four), place, count - 1 - place)?;
    }
    Ok(())
}

// "Then the lowest faulty instruction."
pub fn code_told(code: &[u8], lock: u32, guards: &[u8]) -> Result<(), Refusal>
    ensures { result ≡ code_told (instrs_of code.now) 0 lock guards.now }
{
    lowest(
        code,
        |i, place, left| instr_told(i, place, left, lock, guards),
    )
}

// The kind of a record with n instructions. Kinds stay numbers, not an enum: what reads and writes them promises the number itself.
pub fn kind_for(n: usize) -> u8
    ensures { result ≡ kind_for n }
{
    if SHORT < n { 4 } else { 1 }
}

// No 4 + 4n with n from `fewest` to `most`.
pub fn no_job_length(fewest: usize, most: usize, bytes: usize) -> bool
    requires { (fewest ≤ instructions) × (most ≤ instructions) }
    ensures { result ≡ no_job_length fewest most bytes }
{
    bytes % 4 != 0 || bytes < 4 + 4 * fewest || 4 + 4 * most < bytes
}

// "6 for a kind neither 1 nor 4".
fn no_job_kind(kind: usize) -> bool
    ensures { result ≡ no_job_kind forms kind }
{
    !matches!(kind, 1 | 4)
}

// "5 for a count outside the kind's own range", or for a length that is no 4 + 4n.
fn outside_kind(kind: usize, bytes: usize) -> bool
    ensures { result ≡ outside_kind forms kind bytes }
{
    match kind {
        1 => no_job_length(1, SHORT, bytes),
        4 => no_job_length(SHORT + 1, INSTRUCTIONS, bytes),
        _ => false,
    }
}

// Is it a job record at all? "5 (fewer than 4 bytes, or length field other than the slice's length), 6, 5 (not 4 + 4n)".
pub fn form_told(rec: &[u8]) -> Result<(), Refusal>
    ensures { result ≡ first_of (form_order forms rec.now) }
{
    crate::length_told(rec)?;
    let kind = crate::kind_of(rec);
    if no_job_kind(kind) {
        return Err(Refusal::Kind);
    }
    if outside_kind(kind, rec.len()) {
        return Err(Refusal::Length);
    }
    Ok(())
}

// A job record for a lock, with the guards of the words: then the lowest faulty instruction.
#[tactic(auto, unfolding(crate::specs::Job::told_by), using(crate::proofs::Form::form_four))]
pub fn job_told(rec: &[u8], lock: u32, guards: &[u8]) -> Result<(), Refusal>
    ensures { result ≡ job_told rec.now lock guards.now }
{
    form_told(rec)?;
    code_told(&rec[4..], lock, guards)
}
