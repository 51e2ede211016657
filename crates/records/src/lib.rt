// Records: the refusal and place of every byte string, and the bytes of what is written.
// Each contract gives the result whole, by a definition of specs/.
#![tactic(auto)]

ghost use Rattle.std.specs.Prelude.{◌≡◌, ◌+◌, ◌<◌, ◌≤◌, [], ◌∷◌, length};
ghost use Rattle.parts.specs.Lay.{lay};
ghost use Rattle.records.specs.Bytes.{u32_at, length_field, length_told, kind_field, header, u32s_bytes};

pub mod job;
pub mod setup;

use parts::Refusal;

// The number whose first byte is s[at].
pub fn u32_at(s: &[u8], at: usize) -> u32
    requires { at + 3 < length s.now }
    ensures { result ≡ u32_at s.now at }
{
    u32::from_le_bytes([s[at], s[at + 1], s[at + 2], s[at + 3]])
}

// The length field, which is bytes 0 and 1.
pub fn length_of(rec: &[u8]) -> usize
    requires { 2 ≤ length rec.now }
    ensures { result ≡ length_field rec.now }
{
    usize::from(u16::from_le_bytes([rec[0], rec[1]]))
}

// Refusal 5 where there are fewer than 4 bytes, or the length field is not their number.
pub fn length_told(rec: &[u8]) -> Result<(), Refusal>
    ensures { result ≡ length_told rec.now }
{
    if rec.len() < 4 || length_of(rec) != rec.len() {
        return Err(Refusal::Length);
    }
    Ok(())
}

// The kind, which stands in bytes 2 and 3.
pub fn kind_of(rec: &[u8]) -> usize
    requires { 4 ≤ length rec.now }
    ensures { result ≡ kind_field rec.now }
{
    usize::from(u16::from_le_bytes([rec[2], rec[3]]))
}

// Four bytes from `at` on.
pub fn put_four(buf: &mut [u8], at: usize, a: u8, b: u8, c: u8, d: u8)
    requires { at + 3 < length buf.old }
    ensures { buf.new ≡ lay at (a ∷ b ∷ c ∷ d ∷ []) buf.old }
{
    put_bytes(&[a, b, c, d], buf, at);
}

// The four bytes of a number from `at` on.
#[tactic(auto, unfolding(crate::specs::Bytes::u32s_bytes))]
pub fn put_u32(buf: &mut [u8], at: usize, x: u32)
    requires { at + 3 < length buf.old }
    ensures { buf.new ≡ lay at (u32s_bytes (x ∷ [])) buf.old }
{
    put_bytes(&x.to_le_bytes(), buf, at);
}

// Bytes from `at` on. A loop: `copy_from_slice` of a number of bytes that is not known here asks the C library for `memmove`.
pub fn put_bytes(bytes: &[u8], buf: &mut [u8], at: usize)
    requires { at + length bytes.now ≤ length buf.old }
    ensures { buf.new ≡ lay at bytes.now buf.old }
{
    for j in 0..bytes.len() {
        buf[at + j] = bytes[j];
    }
}

// The four bytes before a record's body.
pub fn put_header(buf: &mut [u8], size: usize, kind: u8)
    requires { 4 ≤ length buf.old }
    ensures { buf.new ≡ lay 0 (header size kind []) buf.old }
{
    let [lo, hi, ..] = size.to_le_bytes();
    put_four(buf, 0, lo, hi, kind, 0);
}
