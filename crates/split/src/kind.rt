// The kinds of pension that a case line can have.
ghost use Rattle.std.specs.Prelude.{◌≡◌};
ghost use Rattle.split.specs.Kind.{kind_number, GivesKind};

use refusals::Refusal;

// A 1987 pension paid straight from service; a 1987 pension after a break; a 2015 pension from active service.
#[derive(Clone, Copy, Debug, PartialEq, Eq)]
pub enum Kind {
    Service1987,
    AfterBreak1987,
    Service2015,
}

impl Kind {
    // The byte that stands for it in a case line.
    pub fn number(self) -> u8
        ensures { result ≡ kind_number self }
    {
        match self {
            Kind::Service1987 => 1,
            Kind::AfterBreak1987 => 2,
            Kind::Service2015 => 3,
        }
    }
}

impl TryFrom<u8> for Kind {
    type Error = Refusal;

    ghost try_from_gives = { GivesKind };

    fn try_from(number: u8) -> Result<Kind, Refusal> {
        match number {
            1 => Ok(Kind::Service1987),
            2 => Ok(Kind::AfterBreak1987),
            3 => Ok(Kind::Service2015),
            _ => Err(Refusal::UnknownKind),
        }
    }
}
