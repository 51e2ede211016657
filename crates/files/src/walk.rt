// The walk over a file, and the text of its lines.
ghost use Rattle.std.specs.Prelude.{◌≡◌, ◌+◌, ◌≤◌, [], ◌∷◌, ◌++◌, length, drop};
ghost use Rattle.text.specs.Text.{Puts, newline, number_text, three_text};
ghost use Rattle.files.specs.File.{most_file, walk_from, told_of, most_line, line_text, lines_text, number_line, no_setup, setup_text, setup_state, printed_of, replayed_state, most_text};
ghost use Rattle.engine.specs.State.{blank_of};

use crate::make::{Line, make, refused_line};
use calls::reader::reader_at;
use calls::record::CallRecord;
use engine::{Engine, Outcome};
use parts::Refusal;

// An accepted collect's 0 and its three numbers.
fn put_answer(out: &mut [u8], at: usize, answer: u32, steps: u32, filled: u32) -> usize
    requires { at + 84 ≤ length out.old }
    ensures { Puts at 84 (number_text 0 ++ three_text answer steps filled) out.old out.new result }
{
    let next = text::put_number(out, at, 0);
    text::put_three(
        out,
        next,
        u64::from(answer),
        u64::from(steps),
        u64::from(filled),
    )
}

// What a line says after its index.
#[tactic(auto, using(text::proofs::Written::puts_case), unfolding(crate::specs::File::told_of))]
fn put_told(out: &mut [u8], at: usize, line: Line) -> usize
    requires { at + 84 ≤ length out.old }
    ensures { Puts at 84 (told_of line) out.old out.new result }
{
    match line {
        Line::Number(number) => text::put_three(out, at, u64::from(number), 0, 0),
        Line::Answer(answer, steps, filled) => put_answer(out, at, answer, steps, filled),
    }
}

// The same, and the line's end.
fn put_end(out: &mut [u8], at: usize, line: Line) -> usize
    requires { at + 85 ≤ length out.old }
    ensures { Puts at 85 (told_of line ++ (newline ∷ [])) out.old out.new result }
{
    let next = put_told(out, at, line);
    text::put(out, next, b'\n')
}

fn put_line(out: &mut [u8], at: usize, index: usize, line: Line) -> usize
    requires { at + most_line ≤ length out.old }
    ensures { Puts at most_line (line_text index line) out.old out.new result }
{
    let next = text::put_decimal(out, at, index as u64);
    put_end(out, next, line)
}

// What a walk leaves: the state after its last call, and how many bytes of text were put.
#[derive(Clone, Copy)]
pub struct Replayed {
    pub engine: Engine,
    pub length: usize,
}

// The call records from byte `from` on, on a state: how many bytes of text were put.
#[tactic(auto, using(crate::proofs::Walks::line_room))]
fn walk(file: &[u8], from: usize, engine: &mut Engine, out: &mut [u8]) -> usize
    requires { (from ≤ length file.now) × (length file.now ≤ most_file) × (most_text ≤ length out.old) }
    ensures puts { Puts 0 most_text (lines_text 0 (walk_from 0 engine.old (drop from file.now)).lines) out.old out.new result }
    ensures engine_value { engine.new ≡ (walk_from 0 engine.old (drop from file.now)).engine }
{
    let mut at: usize = 0;
    for (index, item) in reader_at(file, from).enumerate() {
        match item {
            Err(r) => return put_line(out, at, index, refused_line(r)),
            Ok((here, _)) => {
                // The reader hands out accepted records alone: none is checked again.
                let call = CallRecord {
                    bytes: &file[here..],
                };
                let line = make(engine, call);
                at = put_line(out, at, index, line);
            }
        }
    }
    at
}

// A number alone on a line.
fn put_alone(out: &mut [u8], r: Refusal) -> usize
    requires { 21 ≤ length out.old }
    ensures { Puts 0 21 (number_line r) out.old out.new result }
{
    let next = text::put_decimal(out, 0, u64::from(r.number()));
    text::put(out, next, b'\n')
}

// Nothing is walked: a number, and the blank state.
fn stopped(r: Refusal, out: &mut [u8]) -> Replayed
    requires { 21 ≤ length out.old }
    ensures puts { Puts 0 21 (number_line r) out.old out.new result.length }
    ensures engine_value { result.engine ≡ blank_of }
{
    Replayed {
        engine: Engine::blank(),
        length: put_alone(out, r),
    }
}

// "Standard input above 65,536 bytes, or else a setup cut short"
fn no_setup(file: &[u8]) -> bool
    ensures { result ≡ no_setup file.now }
{
    65536 < file.len() || file.len() < 2 || file.len() < records::length_of(file)
}

// The file's first n bytes are its setup record; the rest is walked where that is accepted.
#[tactic(auto, using(crate::proofs::Walks::state_refused, crate::proofs::Walks::state_walk))]
fn on_setup(file: &[u8], n: usize, out: &mut [u8]) -> Replayed
    requires { (n ≤ length file.now) × (length file.now ≤ most_file) × (most_text ≤ length out.old) }
    ensures puts { Puts 0 most_text (setup_text file.now n) out.old out.new result.length }
    ensures engine_value { result.engine ≡ setup_state file.now n }
{
    let Outcome { mut engine, told } = Engine::setup(&file[..n]);
    match told {
        Err(r) => stopped(r, out),
        Ok(()) => {
            let length = walk(file, n, &mut engine, out);
            Replayed { engine, length }
        }
    }
}

// What the program `replay` prints of a file, at the front of the buffer, and the state that the file's calls leave.
#[tactic(auto, using(crate::proofs::Walks::state_five, crate::proofs::Walks::state_rest))]
pub fn replay(file: &[u8], out: &mut [u8; 860160]) -> Replayed
    ensures puts { Puts 0 most_text (printed_of file.now) out.old out.new result.length }
    ensures engine_value { result.engine ≡ replayed_state file.now }
{
    if no_setup(file) {
        return stopped(Refusal::Length, out);
    }
    on_setup(file, records::length_of(file), out)
}
