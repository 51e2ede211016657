// The walk over the script, a line at a time.
ghost use Rattle.script.specs.Line.{line_of};
ghost use Rattle.session.specs.Walk.{LineTells, line_at};

use crate::obey::obey;
use crate::reply_text::{put_bad, put_reply};
use engine::Engine;
use script::{Call, Line, before, line_of};

// What a line gave: how many bytes of text, and whether it ended the run. A line that ends it has a text too, which `turn`
// promises, so that neither of the two stands for the other.
#[derive(Clone, Copy)]
pub struct Said {
    pub length: usize,
    pub ended: bool,
}

// A line that makes a call.
fn tell_call(
    call: Call,
    number: u32,
    engine: &mut Engine,
    text: &[u8],
    out: &mut [u8; 2048],
) -> Said
    ensures { LineTells (Line.Makes call) number engine.old engine.new text.now out.old out.new result }
{
    let reply = obey(call, engine, text);
    Said {
        length: put_reply(out, number, reply.told, reply.tail, reply.bytes),
        ended: false,
    }
}

// A line of any form, with these bytes.
fn tell(line: Line, number: u32, engine: &mut Engine, text: &[u8], out: &mut [u8; 2048]) -> Said
    ensures { LineTells line number engine.old engine.new text.now out.old out.new result }
{
    match line {
        Line::Passed => Said {
            length: 0,
            ended: false,
        },
        Line::Makes(call) => tell_call(call, number, engine, text, out),
        Line::Bad => Said {
            length: put_bad(out, number),
            ended: true,
        },
    }
}

// The first line of what is left of the script, whose number this is: the call that it names is made, and its text is put.
pub fn turn(engine: &mut Engine, number: u32, rest: &[u8], out: &mut [u8; 2048]) -> Said
    ensures { LineTells (line_of (line_at rest.now)) number engine.old engine.new (line_at rest.now) out.old out.new result }
{
    let text = before(rest, b'\n');
    tell(line_of(text), number, engine, text, out)
}
