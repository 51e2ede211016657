// A reader over call records, one after the other: a struct that holds the recorded bytes and its place, and hands them out as an
// iterator.
ghost use Rattle.std.specs.Prelude.{◌≡◌, ◌-◌, length};
ghost use Rattle.std.specs.Iterator.{at_most};
ghost use Rattle.calls.specs.Reader.{item_at, past_item, Hands};

use crate::record::CallRecord;
use parts::Refusal;

// What stands at a place of the recorded bytes (two places and no `Range`, which can't be copied freely): a call record, from its first byte up to the byte past it, or why it is refused; nothing
// at their end.
#[tactic(auto, using(crate::proofs::Items::items))]
pub fn item_at(bytes: &[u8], place: usize) -> Option<Result<(usize, usize), Refusal>>
    ensures { result ≡ item_at bytes.now place }
{
    if bytes.len() <= place {
        return None;
    }
    match CallRecord::checked(&bytes[place..]) {
        Err(r) => Some(Err(r)),
        Ok(call) => Some(Ok((place, place + call.size()))),
    }
}

// Where reading goes on after an item: past a record; a refused one is the last.
fn past_item(item: Option<Result<(usize, usize), Refusal>>, end: usize, place: usize) -> usize
    ensures { result ≡ past_item item end place }
{
    match item {
        Some(Ok((_, to))) => to,
        Some(Err(_)) => end,
        None => place,
    }
}

#[derive(Clone, Copy)]
pub struct Reader<'a> {
    pub bytes: &'a [u8],
    pub place: usize,
}

pub fn reader_at<'a>(bytes: &'a [u8], place: usize) -> Reader<'a>
    ensures { (result.bytes ≡ bytes.entry) × (result.place ≡ place) }
{
    Reader { bytes, place }
}

impl<'a> Iterator for Reader<'a> {
    type Item = Result<(usize, usize), Refusal>;

    // The item that stands at its place, and the reader past it.
    ghost next_gives = { Hands };

    ghost remaining = { λ r. at_most (length r.bytes.now - r.place) };

    fn next(&mut self) -> Option<Result<(usize, usize), Refusal>> {
        let item = item_at(self.bytes, self.place);
        self.place = past_item(item, self.bytes.len(), self.place);
        item
    }
}
