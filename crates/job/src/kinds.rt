// The kinds of a record, by the number in its first byte. All other numbers are of no kind.
ghost use Rattle.std.specs.Prelude.{◌≡◌, Some, None, MatchResult};
ghost use Rattle.job.specs.Kinds.{kind_of};

#[derive(Clone, Copy, Debug, PartialEq, Eq)]
pub enum Kind {
    Reset = 0,
    On = 1,
    Off = 2,
    Read = 3,
    Write = 4,
    Pass = 5,
    Wait = 6,
    Fetch = 7,
}

#[derive(Clone, Copy, Debug, PartialEq, Eq)]
pub struct UnknownKind;

impl TryFrom<u32> for Kind {
    type Error = UnknownKind;

    ghost try_from_gives = { λ number r. MatchResult r (λ kind. kind_of number ≡ Some kind) (λ _. kind_of number ≡ None) };

    fn try_from(number: u32) -> Result<Self, UnknownKind> {
        match number {
            0 => Ok(Kind::Reset),
            1 => Ok(Kind::On),
            2 => Ok(Kind::Off),
            3 => Ok(Kind::Read),
            4 => Ok(Kind::Write),
            5 => Ok(Kind::Pass),
            6 => Ok(Kind::Wait),
            7 => Ok(Kind::Fetch),
            _ => Err(UnknownKind),
        }
    }
}
