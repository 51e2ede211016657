// Setup and begin on numbers that a caller lends. Each contract gives what is told, the numbers exactly, and the state that they
// say: what is told and the state are the by-value call's, on the state that the numbers said.
#![tactic(auto)]

ghost use Rattle.std.specs.Prelude.{◌≡◌, ◌≤◌, length};
ghost use Rattle.engine.specs.Calls.{setup_of, begin_of};
ghost use Rattle.cells.specs.Layout.{numbers, unpack};
ghost use Rattle.lent_in.specs.Calls.{setup_numbers, begin_numbers};

mod fill;
mod laid;

use engine::reads;
use lent_sheets::reads::Lent;
use parts::Refusal;

// A fresh state; a refused setup gives the blank one. Refused: 5, 6, 5, 12 for L then W, 5, 12 for the lowest faulty byte.
#[tactic(auto, using(crate::proofs::Filled::fresh_is), unfolding(engine::specs::Calls::setup_of, crate::specs::Calls::setup_numbers))]
pub fn setup(s: &mut [u32], rec: &[u8]) -> Result<(), Refusal>
    requires { numbers ≤ length s.old }
    ensures value { result ≡ (setup_of rec.now).told }
    ensures s_after { s.new ≡ setup_numbers s.old rec.now }
    ensures unpacked { unpack s.new ≡ (setup_of rec.now).engine }
{
    cells::blank(s);
    records::setup::setup_told(rec)?;
    fill::filled(s, rec);
    Ok(())
}

// Worker w is under way with this job on this lock. Refused: 1, 3 or 4, 2, 5, 6, 5, the lowest faulty instruction, 9.
#[tactic(auto, using(engine::proofs::Begins::begins_by, crate::proofs::Begins::one_found), unfolding(engine::specs::Calls::begin_of, crate::specs::Calls::begin_numbers))]
pub fn begin(s: &mut [u32], w: u32, lock: u32, rec: &[u8]) -> Result<(), Refusal>
    requires { numbers ≤ length s.old }
    ensures value { result ≡ (begin_of (unpack s.old) w lock rec.now).told }
    ensures s_after { s.new ≡ begin_numbers s.old w lock rec.now }
    ensures unpacked { unpack s.new ≡ (begin_of (unpack s.old) w lock rec.now).engine }
{
    engine::begin::begin_told(&Lent { s }, w, lock, rec)?;
    let sheet = reads::free_sheet(&Lent { s });
    fill::taken(s, w, lock, rec, sheet);
    Ok(())
}
