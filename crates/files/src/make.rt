// The call that a record makes, made on the engine, and the numbers of its line.
ghost use Rattle.std.specs.Prelude.{◌≡◌, ◌≤◌, length, take};
ghost use Rattle.past.specs.Past.{Begin, Step, Collect, Drop};
ghost use Rattle.calls.specs.Record.{call_field, worker_field, lock_field, job_in, call_in};
ghost use Rattle.files.specs.File.{refused_line, told_line, collect_line};
ghost use Rattle.files.specs.Made.{made_of};

use calls::kind::CallKind;
use calls::record::CallRecord;
use engine::{Answered, Engine};
use parts::Refusal;
use records::job::JOB_BYTES;

// What a line says after its index: the refusal number (0 if accepted), or the answer, the steps and the entries filled of a
// collect that is accepted. The numbers that are printed, and no `Result`: what is proved of a file speaks of these.
#[derive(Clone, Copy)]
pub enum Line {
    Number(u32),
    Answer(u32, u32, u32),
}

pub fn refused_line(r: Refusal) -> Line
    ensures { result ≡ refused_line r }
{
    Line::Number(r.number())
}

fn told_line(told: Result<(), Refusal>) -> Line
    ensures { result ≡ told_line told }
{
    match told {
        Ok(()) => Line::Number(0),
        Err(r) => refused_line(r),
    }
}

fn collect_line(told: Result<Answered, Refusal>) -> Line
    ensures { result ≡ collect_line told }
{
    match told {
        Ok(x) => Line::Answer(x.answer.number(), x.steps, x.filled),
        Err(r) => refused_line(r),
    }
}

// The job record of a begin: the record's instructions, with a job record's length and kind in front.
#[tactic(auto, using(crate::proofs::Makes::code_room, crate::proofs::Makes::job_room, crate::proofs::Makes::job_laid))]
fn put_job(call: CallRecord, job: &mut [u8; JOB_BYTES]) -> usize
    requires { call_field call.bytes.now ≡ 0 }
    ensures job_after { take result job.new ≡ job_in call.entry.bytes.now }
    ensures upper_bound { result ≤ length job.new }
{
    let size = call.size();
    records::put_header(job, size - 4, records::job::kind_for((size - 8) / 4));
    records::put_bytes(&call.bytes[8..size], job, 4);
    size - 4
}

#[tactic(auto, unfolding(crate::specs::Made::made_of, crate::specs::File::call_line, past::specs::Past::after))]
fn on_begin(engine: &mut Engine, w: u8, lock: u8, call: CallRecord) -> Line
    requires { call_field call.bytes.now ≡ 0 }
    ensures value { result ≡ (made_of engine.old (Begin w lock (job_in call.entry.bytes.now))).line }
    ensures after { engine.new ≡ (made_of engine.old (Begin w lock (job_in call.entry.bytes.now))).engine }
{
    let mut job = [0u8; JOB_BYTES];
    let n = put_job(call, &mut job);
    told_line(engine.begin(u32::from(w), u32::from(lock), &job[..n]))
}

#[tactic(auto, unfolding(crate::specs::Made::made_of, crate::specs::File::call_line, past::specs::Past::after))]
fn on_step(engine: &mut Engine, w: u8) -> Line
    ensures value { result ≡ (made_of engine.old (Step w)).line }
    ensures after { engine.new ≡ (made_of engine.old (Step w)).engine }
{
    told_line(engine.step(u32::from(w)))
}

#[tactic(auto, unfolding(crate::specs::Made::made_of, crate::specs::File::call_line, past::specs::Past::after))]
fn on_collect(engine: &mut Engine, w: u8) -> Line
    ensures value { result ≡ (made_of engine.old (Collect w)).line }
    ensures after { engine.new ≡ (made_of engine.old (Collect w)).engine }
{
    collect_line(engine.collect(u32::from(w)))
}

#[tactic(auto, unfolding(crate::specs::Made::made_of, crate::specs::File::call_line, past::specs::Past::after))]
fn on_drop(engine: &mut Engine, w: u8) -> Line
    ensures value { result ≡ (made_of engine.old (Drop w)).line }
    ensures after { engine.new ≡ (made_of engine.old (Drop w)).engine }
{
    told_line(engine.drop(u32::from(w)))
}

// The call of an accepted record: a match over the kinds of call, since what is read from a record is a kind and can be no closure.
#[tactic(auto, using(crate::proofs::Makes::makes, crate::proofs::Makes::has_bytes))]
pub fn make(engine: &mut Engine, call: CallRecord) -> Line
    ensures value { result ≡ (made_of engine.old (call_in call.entry.bytes.now)).line }
    ensures after { engine.new ≡ (made_of engine.old (call_in call.entry.bytes.now)).engine }
{
    let w = call.bytes[5];
    match call.call() {
        CallKind::Begin => on_begin(engine, w, call.bytes[6], call),
        CallKind::Step => on_step(engine, w),
        CallKind::Collect => on_collect(engine, w),
        CallKind::Drop => on_drop(engine, w),
    }
}
