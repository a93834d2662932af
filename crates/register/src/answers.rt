// What the calls answer where nothing is refused, and what the check finds bad.
ghost use Rattle.std.specs.Prelude.{◌≡◌};
ghost use Rattle.refusals.specs.declared.Refusal.TheVariants.{BadRegister};

use refusals::Refusal;

// What the check finds bad in a register: the first of it, by its offset.
#[derive(Clone, Copy, Debug, PartialEq, Eq)]
pub struct Fault {
    pub offset: usize,
}

impl From<Fault> for Refusal {
    ghost from_gives = { λ _ refusal. refusal ≡ BadRegister };

    fn from(_fault: Fault) -> Refusal {
        Refusal::BadRegister
    }
}

// What filing the lines of a text answers: the used length from then on, and how many lines there were.
#[derive(Clone, Copy, Debug, PartialEq, Eq)]
pub struct FiledLines {
    pub used: usize,
    pub lines: usize,
}

// Where a line stands in the register.
#[derive(Clone, Copy, Debug, PartialEq, Eq)]
pub struct Extent {
    pub offset: usize,
    pub length: usize,
}

// What finding a member's newest line gives: where it is, or the refusal, and how many lines were compared, from the newest back:
// 0 in a bad register, and all lines where the member is absent.
#[derive(Clone, Copy, Debug, PartialEq, Eq)]
pub struct FoundMember {
    pub line: Result<Extent, Refusal>,
    pub compared: usize,
}
