// The entry at the front of what is left of a book.
ghost use Rattle.std.specs.Prelude.{◌≡◌, ◌≤◌, length};
ghost use Rattle.book.specs.Book.{number_field, bad_head, bad_entry};

use crate::formed::formed_told;

// The bytes of an entry before its job record.
pub const HEAD: usize = 6;

// The kind of an entry.
pub const KIND: u8 = 5;

// The entry's number, which is bytes 4 and 5.
pub fn number_of(s: &[u8]) -> u32
    requires { 6 ≤ length s.now }
    ensures { (result ≡ number_field s.now) × (result ≤ 65535) }
{
    u32::from(u16::from_le_bytes([s[4], s[5]]))
}

// Its length, kind or number is wrong; `low` is the lowest number that may come.
fn bad_head(low: u32, s: &[u8]) -> bool
    ensures { result ≡ bad_head low s.now }
{
    if s.len() < HEAD {
        return true;
    }
    let size = records::length_of(s);
    size < HEAD || s.len() < size || records::kind_of(s) != usize::from(KIND) || number_of(s) < low
}

// Its head is bad, or its job has a 5, 6 or 7.
#[tactic(auto, using(crate::proofs::Laws::parts, crate::proofs::Laws::entry_head, crate::proofs::Laws::entry_fine, crate::proofs::Laws::entry_bad))]
pub fn bad_entry(low: u32, s: &[u8]) -> bool
    ensures { result ≡ bad_entry low s.now }
{
    if bad_head(low, s) {
        return true;
    }
    let size = records::length_of(s);
    formed_told(&s[HEAD..size]).is_err()
}
