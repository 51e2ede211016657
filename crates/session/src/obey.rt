// The call that a line names, made on the engine, and what is told of it.
ghost use Rattle.std.specs.Prelude.{◌≡◌};
ghost use Rattle.engine.specs.Calls.{setup_of, begin_of, collect_of, drop_of, read_word_of, read_lock_of};
ghost use Rattle.session.specs.Reply.{quiet_of, steps_from, script_collect, script_word, script_lock, script_show, script_park};
ghost use Rattle.session.specs.Reply.{filled_with, plain_reply, write_reply, setup_record_in, fourth_word, begin_record_in, reply_of};

use crate::reply_text::{Tail, lent};
use engine::{Engine, Outcome};
use parts::Refusal;
use script::{Call, after, record_of};

// What a call told: whether it was accepted, what else, and the bytes that a writer was lent, all 512: `obey` promises those past
// the lent ones too. A refused call has a tail beside its refusal, which is printed.
#[derive(Clone, Copy)]
pub struct Reply {
    pub told: Result<(), Refusal>,
    pub tail: Tail,
    pub bytes: [u8; 512],
}

// 512 bytes x. A function of its own, so that a proof above knows them by a name and doesn't compute them.
#[tactic(auto, unfolding(crate::specs::Reply::filled_with))]
fn filled(x: u8) -> [u8; 512]
    ensures { result ≡ filled_with x }
{
    [x; 512]
}

// A reply of a call that was lent no bytes.
#[tactic(auto, unfolding(crate::specs::Reply::plain_reply))]
fn plain(told: Result<(), Refusal>, tail: Tail) -> Reply
    ensures { result ≡ plain_reply told tail }
{
    Reply {
        told,
        tail,
        bytes: filled(0),
    }
}

#[tactic(auto, unfolding(crate::specs::Reply::quiet_of, crate::specs::Reply::plain_of))]
fn on_setup(engine: &mut Engine, text: &[u8]) -> Reply
    ensures value { result ≡ (quiet_of (setup_of (setup_record_in text.now))).reply }
    ensures after { engine.new ≡ (quiet_of (setup_of (setup_record_in text.now))).engine }
{
    let bytes = record_of(after(text, b' '));
    let Outcome {
        engine: fresh,
        told,
    } = Engine::setup(bytes.as_slice());
    *engine = fresh;
    plain(told, Tail::Nothing)
}

// The words from the fourth on.
fn fourth_word(text: &[u8]) -> &[u8]
    ensures { result.now ≡ fourth_word text.now }
{
    after(after(after(text, b' '), b' '), b' ')
}

#[tactic(auto, unfolding(crate::specs::Reply::quiet_of, crate::specs::Reply::plain_of))]
fn on_begin(engine: &mut Engine, w: u32, lock: u32, text: &[u8]) -> Reply
    ensures value { result ≡ (quiet_of (begin_of engine.old w lock (begin_record_in text.now))).reply }
    ensures after { engine.new ≡ (quiet_of (begin_of engine.old w lock (begin_record_in text.now))).engine }
{
    let bytes = record_of(fourth_word(text));
    plain(engine.begin(w, lock, bytes.as_slice()), Tail::Nothing)
}

// Up to n steps of worker w, until one is refused.
fn on_step(engine: &mut Engine, w: u32, n: u32) -> Reply
    ensures value { result ≡ (steps_from n engine.old w 0).reply }
    ensures after { engine.new ≡ (steps_from n engine.old w 0).engine }
{
    for done in 0..n {
        if let Err(r) = engine.step(w) {
            return plain(Err(r), Tail::Steps(done));
        }
    }
    plain(Ok(()), Tail::Steps(n))
}

#[tactic(auto, unfolding(crate::specs::Reply::script_collect, crate::specs::Reply::collect_reply))]
fn on_collect(engine: &mut Engine, w: u32) -> Reply
    ensures value { result ≡ (script_collect (collect_of engine.old w).told (collect_of engine.old w).engine).reply }
    ensures after { engine.new ≡ (script_collect (collect_of engine.old w).told (collect_of engine.old w).engine).engine }
{
    match engine.collect(w) {
        Ok(x) => plain(Ok(()), Tail::Answer(x.answer.number(), x.steps, x.filled)),
        Err(r) => plain(Err(r), Tail::Answer(0, 0, 0)),
    }
}

#[tactic(auto, unfolding(crate::specs::Reply::quiet_of, crate::specs::Reply::plain_of))]
fn on_drop(engine: &mut Engine, w: u32) -> Reply
    ensures value { result ≡ (quiet_of (drop_of engine.old w)).reply }
    ensures after { engine.new ≡ (quiet_of (drop_of engine.old w)).engine }
{
    plain(engine.drop(w), Tail::Nothing)
}

#[tactic(auto, unfolding(crate::specs::Reply::script_word, crate::specs::Reply::word_reply))]
fn on_word(engine: &Engine, i: u32) -> Reply
    ensures { result ≡ (script_word (read_word_of engine.now i) engine.now).reply }
{
    match engine.read_word(i) {
        Ok(w) => plain(Ok(()), Tail::Word(w.value, w.count, u32::from(w.guard))),
        Err(r) => plain(Err(r), Tail::Word(0, 0, 0)),
    }
}

#[tactic(auto, unfolding(crate::specs::Reply::script_lock, crate::specs::Reply::lock_reply))]
fn on_lock(engine: &Engine, l: u32) -> Reply
    ensures { result ≡ (script_lock (read_lock_of engine.now l) engine.now).reply }
{
    match engine.read_lock(l) {
        Ok(l) => plain(Ok(()), Tail::Lock(l.turn, l.holder)),
        Err(r) => plain(Err(r), Tail::Lock(0, None)),
    }
}

// What a writer told that was lent n bytes, the first of these.
#[tactic(auto, unfolding(crate::specs::Reply::write_reply))]
fn written(told: Result<usize, Refusal>, n: u32, bytes: [u8; 512]) -> Reply
    ensures { result ≡ write_reply told n bytes }
{
    Reply {
        told: told.map(|_| ()),
        tail: Tail::Bytes(told.unwrap_or(0), n),
        bytes,
    }
}

#[tactic(auto, using(crate::proofs::Replies::shown_by))]
fn on_show(engine: &Engine, sheet: u32, n: u32) -> Reply
    ensures { result ≡ (script_show engine.now sheet n).reply }
{
    let mut bytes = filled(165);
    let told = engine.show(sheet, &mut bytes[..lent(n)]);
    written(told, n, bytes)
}

#[tactic(auto, using(crate::proofs::Replies::parked_by))]
fn on_park(engine: &Engine, n: u32) -> Reply
    ensures { result ≡ (script_park engine.now n).reply }
{
    let mut bytes = filled(165);
    let told = engine.park(&mut bytes[..lent(n)]);
    written(told, n, bytes)
}

// The call of the line with these bytes. A match: a call is read from a line, so it is an enum and can be no closure.
#[tactic(auto, unfolding(crate::specs::Reply::reply_of, crate::specs::Reply::script_word, crate::specs::Reply::script_lock, crate::specs::Reply::script_show, crate::specs::Reply::script_park, crate::specs::Reply::script_write))]
pub fn obey(call: Call, engine: &mut Engine, text: &[u8]) -> Reply
    ensures value { result ≡ (reply_of call engine.old text.now).reply }
    ensures after { engine.new ≡ (reply_of call engine.old text.now).engine }
{
    match call {
        Call::Setup => on_setup(engine, text),
        Call::Begin(w, l) => on_begin(engine, w, l, text),
        Call::Step(w, n) => on_step(engine, w, n),
        Call::Collect(w) => on_collect(engine, w),
        Call::Drop(w) => on_drop(engine, w),
        Call::Word(i) => on_word(engine, i),
        Call::Lock(l) => on_lock(engine, l),
        Call::Show(s, n) => on_show(engine, s, n),
        Call::Park(n) => on_park(engine, n),
    }
}
