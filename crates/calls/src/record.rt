// The record at the front of a slice: is it a call record?
ghost use Rattle.std.specs.Prelude.{◌≡◌, ◌≤◌, length, IfOk, Ok, Err};
ghost use Rattle.parts.specs.declared.Refusal.{Refusal};
ghost use Rattle.records.specs.Bytes.{length_field};
ghost use Rattle.calls.specs.Kind.{kind_number};
ghost use Rattle.calls.specs.Record.{call_field, no_call_length, lock_unused, cut_short, bad_head, no_call, record_told};

use crate::kind::CallKind;
use parts::{INSTRUCTIONS, Refusal};

// The length of a call's record. Here and below the call is a byte: whether it is one of the four is what is asked.
fn no_call_length(call: u8, n: usize) -> bool
    requires { 8 ≤ n }
    ensures { result ≡ no_call_length call n }
{
    if call == 0 {
        return records::job::no_job_length(1, INSTRUCTIONS, n - 4);
    }
    n != 8
}

// Only begin names a lock.
fn unused_lock(call: u8, lock: u8) -> bool
    ensures { result ≡ lock_unused call lock }
{
    call != 0 && 0 < lock
}

// "a record cut short or a length field below 4"
fn cut_short(s: &[u8]) -> bool
    ensures { result ≡ cut_short s.now }
{
    if s.len() < 2 {
        return true;
    }
    let n = records::length_of(s);
    n < 4 || s.len() < n
}

// "a call above 3, a last head byte or unused lock not 0, or a length not 8 (begin: 8 + 4n)"
#[tactic(auto, unfolding(crate::specs::Record::bad_head))]
fn bad_head(call: u8, lock: u8, last: u8, n: usize) -> bool
    requires { 8 ≤ n }
    ensures { result ≡ bad_head call lock last n }
{
    3 < call || 0 < last || unused_lock(call, lock) || no_call_length(call, n)
}

// A record of fewer than 8 bytes does not have them all.
fn no_call(s: &[u8]) -> bool
    requires { (4 ≤ length s.now) × (length_field s.now ≤ length s.now) }
    ensures { result ≡ no_call s.now }
{
    let n = records::length_of(s);
    n < 8 || bad_head(s[4], s[6], s[7], n)
}

// Its refusals: 5, then 6, then 17.
#[tactic(auto, using(crate::proofs::Laws::whole_four, crate::proofs::Laws::whole_size), unfolding(crate::specs::Record::record_told))]
pub fn record_told(s: &[u8]) -> Result<(), Refusal>
    ensures { result ≡ record_told s.now }
{
    if cut_short(s) {
        return Err(Refusal::Length);
    }
    if records::kind_of(s) != 3 {
        return Err(Refusal::Kind);
    }
    if no_call(s) {
        return Err(Refusal::CallRecord);
    }
    Ok(())
}

// A record that is accepted, at the front of its bytes.
#[derive(Clone, Copy)]
pub struct CallRecord<'a> {
    pub bytes: &'a [u8],
    ghost accepted: { record_told bytes.now ≡ Ok tt },
}

impl<'a> CallRecord<'a> {
    // 5, 6 or 17 where there is none.
    pub fn checked(s: &'a [u8]) -> Result<CallRecord<'a>, Refusal>
        ensures accepted { IfOk result (λ call. call.bytes.now ≡ s.now) }
        ensures refused { (r : Refusal) → result ≡ Err r → record_told s.now ≡ Err r }
    {
        record_told(s)?;
        Ok(CallRecord { bytes: s })
    }

    // How long it is.
    #[tactic(auto, using(crate::proofs::Laws::holds_least, crate::proofs::Laws::holds_whole))]
    pub fn size(self) -> usize
        ensures { (result ≡ length_field self.entry.bytes.now) × (8 ≤ result) × (result ≤ length self.entry.bytes.now) }
    {
        records::length_of(self.bytes)
    }

    // Which call it makes.
    #[tactic(auto, using(crate::proofs::Laws::holds_eight, crate::proofs::Laws::holds_call))]
    pub fn call(self) -> CallKind
        ensures { kind_number result ≡ call_field self.entry.bytes.now }
    {
        CallKind::try_from(u32::from(self.bytes[4])).unwrap()
    }
}
