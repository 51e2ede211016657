// Reads a file of recorded calls on standard input, makes its calls again, and writes a line for each.
#![tactic(auto)]

use files::walk::replay;
use standard_input::read_full;
use std::io;
use std::io::Write;

fn main(rt: HostRuntime) -> io::Result<()> {
    let mut file = [0u8; 65537];
    let mut text = [0u8; 860160];
    let n = read_full(&mut rt.stdin(), &mut file)?;
    let done = replay(&file[..n], &mut text);
    rt.stdout().write_all(&text[..done.length])
}
