// The calls that have a record, by their numbers.
ghost use Rattle.std.specs.Prelude.{◌≡◌};
ghost use Rattle.calls.specs.Kind.{kind_number, IsKind};

use parts::Refusal;

#[derive(Clone, Copy, PartialEq, Eq)]
pub enum CallKind {
    Begin,
    Step,
    Collect,
    Drop,
}

impl CallKind {
    // A method, as `Refusal::number` is.
    pub fn number(self) -> u8
        ensures { result ≡ kind_number self }
    {
        match self {
            CallKind::Begin => 0,
            CallKind::Step => 1,
            CallKind::Collect => 2,
            CallKind::Drop => 3,
        }
    }
}

// Refusal 17 for a number above 3.
impl TryFrom<u32> for CallKind {
    type Error = Refusal;

    ghost try_from_gives = { IsKind };

    fn try_from(number: u32) -> Result<CallKind, Refusal> {
        match number {
            0 => Ok(CallKind::Begin),
            1 => Ok(CallKind::Step),
            2 => Ok(CallKind::Collect),
            3 => Ok(CallKind::Drop),
            _ => Err(Refusal::CallRecord),
        }
    }
}
