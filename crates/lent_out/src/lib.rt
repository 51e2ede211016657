// Show and park of a state that the caller lends as numbers: they read it, and fill the first bytes of a lent buffer as the
// by-value calls do.
#![tactic(auto)]

ghost use Rattle.std.specs.Prelude.{◌≡◌, ◌≤◌, length};
ghost use Rattle.engine.specs.Calls.{show_of, shown_of, park_of, parked_of};
ghost use Rattle.cells.specs.Layout.{numbers, unpack};

use engine::write;
use lent_sheets::reads::Lent;
use parts::Refusal;

// The job record of a sheet in use. Refused: 14, 13.
pub fn show(s: &[u32], sheet: u32, buf: &mut [u8]) -> Result<usize, Refusal>
    requires { numbers ≤ length s.now }
    ensures value { result ≡ show_of (unpack s.now) sheet (length buf.old) }
    ensures buf_after { buf.new ≡ shown_of (unpack s.now) sheet buf.old }
{
    write::show(&Lent { s }, sheet, buf)
}

// The setup record of the present values and turns. Refused: 12 on the blank state, 15 with the lowest held lock, 13.
pub fn park(s: &[u32], buf: &mut [u8]) -> Result<usize, Refusal>
    requires { numbers ≤ length s.now }
    ensures value { result ≡ park_of (unpack s.now) (length buf.old) }
    ensures buf_after { buf.new ≡ parked_of (unpack s.now) buf.old }
{
    write::park(&Lent { s }, buf)
}
