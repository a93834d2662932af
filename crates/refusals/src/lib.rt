// The refusals of every call, as one list: what a call that is refused answers in place of its figures.
#![tactic(auto)]

ghost use Rattle.std.specs.Prelude.{◌≡◌};
ghost use Rattle.refusals.specs.Numbers.{number, refusal_number};

// Refusals in the order of their numbers, of which the lowest that applies is given: 1 to 10 come from a case, 11 to 17 from what
// stands in a buffer or from the other arguments.
#[derive(Clone, Copy, Debug, PartialEq, Eq)]
pub enum Refusal {
    BadCharacter,
    BadLength,
    DateOutsideCalendar,
    DatesOutOfOrder,
    AgeOutsideRange,
    UnknownKind,
    TermOutsideList,
    KindNotForAge,
    NoFactorForAge,
    PensionOutsideRange,
    BadRegister,
    RegisterFull,
    NumbersUsedUp,
    NotFound,
    CommutationOutsideRange,
    NotJoinable,
    TargetTooShort,
}

impl Refusal {
    // The number by which callers know it.
    pub fn number(self) -> u8
        ensures { result ≡ number self }
    {
        match self {
            Refusal::BadCharacter => 1,
            Refusal::BadLength => 2,
            Refusal::DateOutsideCalendar => 3,
            Refusal::DatesOutOfOrder => 4,
            Refusal::AgeOutsideRange => 5,
            Refusal::UnknownKind => 6,
            Refusal::TermOutsideList => 7,
            Refusal::KindNotForAge => 8,
            Refusal::NoFactorForAge => 9,
            Refusal::PensionOutsideRange => 10,
            Refusal::BadRegister => 11,
            Refusal::RegisterFull => 12,
            Refusal::NumbersUsedUp => 13,
            Refusal::NotFound => 14,
            Refusal::CommutationOutsideRange => 15,
            Refusal::NotJoinable => 16,
            Refusal::TargetTooShort => 17,
        }
    }
}

// The number of an answer that may be a refusal; 0 where nothing is refused, as the documents and the C interface have it.
pub fn number_of<T>(answer: &Result<T, Refusal>) -> u8
    ensures { result ≡ refusal_number answer.now }
{
    match answer {
        Ok(_) => 0,
        Err(refusal) => refusal.number(),
    }
}
