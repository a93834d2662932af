// A case as its line has it: the head, a pension and the amount used, each read where a cursor stands.
ghost use Rattle.std.specs.Prelude.{◌≡◌, ◌+◌, ◌≤◌, ◌<◌, eqb};
ghost use Rattle.split.specs.Case.{head_at, service_at, terms_at, pension_at, allowance_used_at, head_length, pension_length, allowance_used_length, longest_line};
ghost use Rattle.split.specs.Bytes.{FieldOf, Taken};
ghost use Rattle.split.specs.Kind.{kind_number};

use crate::frame::{Cursor, Field, LONGEST};
use crate::kind::Kind;
use calendar::Date;
use factors::effective::FactorTerms;
use factors::money::{LumpPence, YearlyPence};

// A head as its line has it. The count is the line's byte, of any value: the definition bad_length is of that byte.
#[derive(Clone, Copy)]
pub struct Head {
    pub member: u32,
    pub birth: Date,
    pub commencement: Date,
    pub count: u8,
}

#[derive(Clone, Copy)]
pub struct Service {
    pub start: Date,
    pub end: Date,
}

// A pension as its line has it. Kind and lift flag are the line's bytes, since a byte that stands for none is refused only after the
// conditions that come first: the definitions, as unknown_kind and unlisted, are of those bytes.
#[derive(Clone, Copy)]
pub struct Pension {
    pub kind: u8,
    pub stated: YearlyPence,
    pub service: Service,
    pub lift: u8,
    pub terms: FactorTerms,
}

impl Pension {
    // Whether it is of a kind.
    pub fn is_of(self, kind: Kind) -> bool
        ensures { result ≡ eqb self.kind (kind_number kind) }
    {
        self.kind == kind.number()
    }
}

// The head, which a line begins with.
pub fn read_head(bytes: &[u8; LONGEST], at: Cursor) -> Field<Head>
    requires { at.at + head_length ≤ longest_line }
    ensures { Taken bytes.now at.at head_at head_length result.value result.next.at }
{
    let member = at.number(bytes);
    let birth = member.next.date(bytes);
    let commencement = birth.next.date(bytes);
    let count = commencement.next.byte(bytes);
    Field {
        value: Head {
            member: member.value,
            birth: birth.value,
            commencement: commencement.value,
            count: count.value,
        },
        next: count.next,
    }
}

fn read_service(bytes: &[u8; LONGEST], at: Cursor) -> Field<Service>
    requires { at.at + 16 ≤ longest_line }
    ensures { Taken bytes.now at.at service_at 16 result.value result.next.at }
{
    let start = at.date(bytes);
    let end = start.next.date(bytes);
    Field {
        value: Service {
            start: start.value,
            end: end.value,
        },
        next: end.next,
    }
}

fn read_terms(bytes: &[u8; LONGEST], at: Cursor) -> Field<FactorTerms>
    requires { at.at + 16 ≤ longest_line }
    ensures { Taken bytes.now at.at terms_at 16 result.value result.next.at }
{
    let f1 = at.short(bytes);
    let f2 = f1.next.short(bytes);
    let f3 = f2.next.short(bytes);
    let increase = f3.next.short(bytes);
    Field {
        value: FactorTerms {
            f1: f1.value,
            f2: f2.value,
            f3: f3.value,
            increase: increase.value,
        },
        next: increase.next,
    }
}

pub fn read_pension(bytes: &[u8; LONGEST], at: Cursor) -> Field<Pension>
    requires { at.at + pension_length ≤ longest_line }
    ensures { Taken bytes.now at.at pension_at pension_length result.value result.next.at }
{
    let kind = at.byte(bytes);
    let stated = kind.next.number(bytes);
    let service = read_service(bytes, stated.next);
    let lift = service.next.byte(bytes);
    let terms = read_terms(bytes, lift.next);
    Field {
        value: Pension {
            kind: kind.value,
            stated: YearlyPence(stated.value),
            service: service.value,
            lift: lift.value,
            terms: terms.value,
        },
        next: terms.next,
    }
}

// The pence of allowance already used, where a line of so many characters goes on; nothing where it ends.
pub fn read_allowance_used(bytes: &[u8; LONGEST], at: Cursor, characters: usize) -> LumpPence
    requires { (at.at < characters → at.at + allowance_used_length ≤ characters) × (characters ≤ longest_line) }
    ensures { FieldOf bytes.now characters result.0 (λ s. allowance_used_at s at.at characters) }
{
    if at.at < characters {
        LumpPence(at.number(bytes).value)
    } else {
        LumpPence(0)
    }
}
