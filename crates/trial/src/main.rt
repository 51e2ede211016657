// Reads a script on standard input, makes its calls on the engine one a line, and writes what each tells.
#![tactic(auto)]

use engine::Engine;
use session::reply_text::put_bad;
use session::walk::turn;
use standard_input::read_full;
use std::io;
use std::io::Write;

// One line after another, to the script's end or to a line that ends the run. Before the first setup the state is the blank one.
fn run<W: Write>(to: &mut W, script: &[u8]) -> io::Result<()> {
    let mut text = [0u8; 2048];
    let mut engine = Engine::blank();
    for (number, line) in (1..=u32::MAX).zip(script.split(|&b| b == b'\n')) {
        let said = turn(&mut engine, number, line, &mut text);
        to.write_all(&text[..said.length])?;
        if said.ended {
            break;
        }
    }
    Ok(())
}

// A script above 65,536 bytes is not run.
fn refuse<W: Write>(to: &mut W) -> io::Result<()> {
    let mut text = [0u8; 2048];
    let n = put_bad(&mut text, 0);
    to.write_all(&text[..n])
}

fn main(rt: HostRuntime) -> io::Result<()> {
    let mut script = [0u8; 65537];
    let n = read_full(&mut rt.stdin(), &mut script)?;
    if 65536 < n {
        return refuse(&mut rt.stdout());
    }
    run(&mut rt.stdout(), &script[..n])
}
