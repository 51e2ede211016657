// The engine by value, for the benchmark: a state that lives inside one call, since an exported function may hold no enum.
#![tactic(auto)]

ghost use Rattle.std.specs.Prelude.{◌≡◌};
ghost use Rattle.engine.specs.Calls.{setup_of};
ghost use Rattle.by_value.specs.Timed.{begun_from, counted_of, accepted_from};

use engine::Engine;
use parts::Refusal;

// The job is begun under lock 0 by each of the first so many workers. Whether a begin was accepted is let go here by name: none was under way before,
// so where one is refused no step of that worker is accepted, and `accepted` counts those alone.
fn begun(engine: &mut Engine, job: &[u8], workers: u32)
    ensures { engine.new ≡ begun_from workers engine.old job.now 0 }
{
    for w in 0..workers {
        let _told = engine.begin(w, 0, job);
    }
}

// One step for each byte of the order, of the worker that it names: how many were accepted.
fn accepted(engine: &mut Engine, order: &[u8]) -> u32
    ensures { result ≡ accepted_from engine.old order.now 0 }
{
    let mut n: u32 = 0;
    for w in order {
        n = counted(n, engine.step(u32::from(*w)));
    }
    n
}

#[tactic(auto, unfolding(crate::specs::Timed::counted_of))]
fn counted(n: u32, told: Result<(), Refusal>) -> u32
    ensures { result ≡ counted_of told n }
{
    match told {
        Ok(()) => n.wrapping_add(1),
        Err(_) => n,
    }
}

// A setup, the begins, and the steps of the order: how many of these were accepted. After a refused setup none is, since the blank state has no lock.
#[unsafe(no_mangle)]
pub extern "C" fn by_value_steps(setup: &[u8], job: &[u8], workers: u32, order: &[u8]) -> u32
    ensures { result ≡ accepted_from (begun_from workers (setup_of setup.now).engine job.now 0) order.now 0 }
{
    let mut engine = Engine::setup(setup).engine;
    begun(&mut engine, job, workers);
    accepted(&mut engine, order)
}
