// The record of a call, to the front of a lent buffer.
ghost use Rattle.std.specs.Prelude.{◌≡◌, ◌+◌, ◌≤◌, eqb, ltb, length};
ghost use Rattle.parts.specs.Lay.{lay};
ghost use Rattle.parts.specs.Pick.{pick};
ghost use Rattle.parts.specs.Told.{first_of, refuse_if};
ghost use Rattle.parts.specs.declared.Refusal.TheVariants.{Buffer};
ghost use Rattle.records.specs.Job.{forms, form_order};
ghost use Rattle.calls.specs.Kind.{kind_number};
ghost use Rattle.calls.specs.Record.{capped_of, record_with, call_with, call_record, record_length, write_told, recorded_of, recorded_in};

use crate::kind::CallKind;
use parts::Refusal;

// A worker or lock above 255 is written as 255.
fn byte_of(n: u32) -> u8
    ensures { result ≡ capped_of n }
{
    n.min(255) as u8
}

// A record's header and its bytes call, worker and lock; then its instructions.
#[tactic(auto, using(crate::proofs::Laws::record_size, crate::proofs::Laws::record_laid))]
fn put_record(kind: CallKind, w: u32, lock: u32, code: &[u8], buf: &mut [u8]) -> usize
    requires { 8 + length code.now ≤ length buf.old }
    ensures value { result ≡ length (record_with (kind_number kind) w lock code.now) }
    ensures buf_after { buf.new ≡ lay 0 (record_with (kind_number kind) w lock code.now) buf.old }
{
    let size = 8 + code.len();
    records::put_header(buf, size, 3);
    records::put_four(buf, 4, kind.number(), byte_of(w), byte_of(lock), 0);
    records::put_bytes(code, buf, 8);
    size
}

// For begin, 5 and 6: is it a job record?
fn form_of(kind: CallKind, rec: &[u8]) -> Result<(), Refusal>
    ensures { result ≡ pick (eqb (kind_number kind) 0) (first_of (form_order forms rec.now)) (Ok tt) }
{
    match kind {
        CallKind::Begin => records::job::form_told(rec),
        CallKind::Step | CallKind::Collect | CallKind::Drop => Ok(()),
    }
}

// How long the record is.
fn record_length(kind: CallKind, rec: &[u8]) -> u64
    ensures { result ≡ record_length (kind_number kind) rec.now }
{
    match kind {
        CallKind::Begin => 4 + (rec.len() as u64),
        CallKind::Step | CallKind::Collect | CallKind::Drop => 8,
    }
}

// 13 where the buffer is shorter.
fn room_told(kind: CallKind, rec: &[u8], room: usize) -> Result<(), Refusal>
    ensures { result ≡ refuse_if (ltb room (record_length (kind_number kind) rec.now)) Buffer }
{
    let size = record_length(kind, rec);
    if (room as u64) < size {
        return Err(Refusal::Buffer);
    }
    Ok(())
}

// The writer's order where the call is one: 5 and 6, 13.
#[tactic(auto, using(parts::proofs::Laws::order, parts::proofs::Laws::calls), unfolding(crate::specs::Record::write_told))]
fn write_told(kind: CallKind, rec: &[u8], room: usize) -> Result<(), Refusal>
    ensures { result ≡ write_told (kind_number kind) rec.now room }
{
    form_of(kind, rec)?;
    room_told(kind, rec, room)
}

#[tactic(auto, using(crate::proofs::Laws::writes))]
fn put_call(kind: CallKind, w: u32, lock: u32, rec: &[u8], buf: &mut [u8]) -> usize
    requires { write_told (kind_number kind) rec.now (length buf.old) ≡ Ok tt }
    ensures value { result ≡ length (call_record (call_with (kind_number kind) w lock rec.now)) }
    ensures buf_after { buf.new ≡ lay 0 (call_record (call_with (kind_number kind) w lock rec.now)) buf.old }
{
    match kind {
        CallKind::Begin => put_record(kind, w, lock, &rec[4..], buf),
        CallKind::Step | CallKind::Collect | CallKind::Drop => put_record(
            kind,
            w,
            0,
            &rec[..0],
            buf,
        ),
    }
}

// The record of one of the four calls.
#[tactic(auto, using(engine::proofs::Laws::told_pass, engine::proofs::Laws::told_stop), unfolding(crate::specs::Record::recorded_of, crate::specs::Record::recorded_in))]
fn put_told(
    kind: CallKind,
    worker: u32,
    lock: u32,
    rec: &[u8],
    buf: &mut [u8],
) -> Result<usize, Refusal>
    ensures value { result ≡ recorded_of (kind_number kind) worker lock rec.now (length buf.old) }
    ensures buf_after { buf.new ≡ recorded_in (kind_number kind) worker lock rec.now buf.old }
{
    write_told(kind, rec, buf.len())?;
    Ok(put_call(kind, worker, lock, rec, buf))
}

// The record of a call: 0 begin, with its lock and its job record; 1 step, 2 collect, 3 drop, to which these are nothing. Refused: 17, 5,
// 6, 13. C gives the call as a number.
#[tactic(auto, unfolding(crate::specs::Record::write_told, crate::specs::Record::recorded_of, crate::specs::Record::recorded_in))]
pub fn record(
    call: u32,
    worker: u32,
    lock: u32,
    rec: &[u8],
    buf: &mut [u8],
) -> Result<usize, Refusal>
    ensures value { result ≡ recorded_of call worker lock rec.now (length buf.old) }
    ensures buf_after { buf.new ≡ recorded_in call worker lock rec.now buf.old }
{
    match CallKind::try_from(call) {
        Ok(kind) => put_told(kind, worker, lock, rec, buf),
        Err(r) => Err(r),
    }
}
