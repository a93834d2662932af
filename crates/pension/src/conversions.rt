// How the engine's answers become those that C has: the same figures, and where there is a refusal its number and zeros.
ghost use Rattle.std.specs.Prelude.{◌≡◌};
ghost use Rattle.split.specs.Quote.{answered};
ghost use Rattle.register.specs.Answers.{checked_as, filed_as, located_as, located_member_as};
ghost use Rattle.trivial_commutation.specs.Answers.{commuted_as};
ghost use Rattle.joining.specs.Answers.{written_as};
ghost use Rattle.pension.specs.Interface.{quote_for_c, checked_for_c, filed_for_c, found_for_c, found_member_for_c, commuted_for_c, written_for_c};

use crate::answers::{
    PensionChecked, PensionCommuted, PensionFiled, PensionFiledLines, PensionFound,
    PensionFoundMember, PensionQuote, PensionWritten,
};
use factors::money::LumpPence;
use refusals::{Refusal, number_of};
use register::answers::{Extent, Fault, FiledLines, FoundMember};
use split::answers::Granted;

impl From<Result<Granted, Refusal>> for PensionQuote {
    ghost from_gives = { λ answer quote. quote ≡ quote_for_c (answered answer) };

    // The figures of a grant's four shares side by side, in the width that C has them; zeros under a refusal.
    fn from(answer: Result<Granted, Refusal>) -> PensionQuote {
        match answer {
            Ok(granted) => PensionQuote {
                refusal: 0,
                member: granted.member,
                total: granted.total.0 as u64,
                lump: granted.shares.map(|share| share.lump.0 as u64),
                remaining: granted.shares.map(|share| share.remaining.0 as u64),
                second: granted.shares.map(|share| share.second.0 as u64),
            },
            Err(refusal) => PensionQuote {
                refusal: refusal.number() as u32,
                member: 0,
                total: 0,
                lump: [0; 4],
                remaining: [0; 4],
                second: [0; 4],
            },
        }
    }
}

impl From<Result<(), Fault>> for PensionChecked {
    ghost from_gives = { λ checked given. given ≡ checked_for_c (checked_as checked) };

    fn from(checked: Result<(), Fault>) -> PensionChecked {
        match checked {
            Ok(()) => PensionChecked {
                refusal: 0,
                offset: 0,
            },
            Err(fault) => PensionChecked {
                refusal: Refusal::from(fault).number() as u32,
                offset: fault.offset,
            },
        }
    }
}

impl From<Result<usize, Refusal>> for PensionFiled {
    ghost from_gives = { λ filed given. given ≡ filed_for_c (filed_as filed) };

    fn from(filed: Result<usize, Refusal>) -> PensionFiled {
        PensionFiled {
            refusal: number_of(&filed) as u32,
            used: filed.unwrap_or(0),
        }
    }
}

impl From<FiledLines> for PensionFiledLines {
    ghost from_gives = { λ filed given. (given.used ≡ filed.used) × (given.lines ≡ filed.lines) };

    fn from(filed: FiledLines) -> PensionFiledLines {
        PensionFiledLines {
            used: filed.used,
            lines: filed.lines,
        }
    }
}

impl From<Result<Extent, Refusal>> for PensionFound {
    ghost from_gives = { λ line given. given ≡ found_for_c (located_as line) };

    fn from(line: Result<Extent, Refusal>) -> PensionFound {
        match line {
            Ok(at) => PensionFound {
                refusal: 0,
                offset: at.offset,
                length: at.length,
            },
            Err(refusal) => PensionFound {
                refusal: refusal.number() as u32,
                offset: 0,
                length: 0,
            },
        }
    }
}

impl From<FoundMember> for PensionFoundMember {
    ghost from_gives = { λ found given. given ≡ found_member_for_c (located_member_as found) };

    fn from(found: FoundMember) -> PensionFoundMember {
        let line = PensionFound::from(found.line);
        PensionFoundMember {
            refusal: line.refusal,
            offset: line.offset,
            length: line.length,
            compared: found.compared,
        }
    }
}

// The struct of a join is another than that of a filing in C.
impl From<Result<usize, Refusal>> for PensionWritten {
    ghost from_gives = { λ written given. given ≡ written_for_c (written_as written) };

    fn from(written: Result<usize, Refusal>) -> PensionWritten {
        PensionWritten {
            refusal: number_of(&written) as u32,
            used: written.unwrap_or(0),
        }
    }
}

impl From<Result<LumpPence, Refusal>> for PensionCommuted {
    ghost from_gives = { λ commuted given. given ≡ commuted_for_c (commuted_as commuted) };

    #[tactic(auto, unfolding(crate::specs::Interface::commuted_for_c))]
    fn from(commuted: Result<LumpPence, Refusal>) -> PensionCommuted {
        match commuted {
            Ok(lump) => PensionCommuted {
                refusal: 0,
                lump: lump.0 as u64,
            },
            Err(refusal) => PensionCommuted {
                refusal: refusal.number() as u32,
                lump: 0,
            },
        }
    }
}
