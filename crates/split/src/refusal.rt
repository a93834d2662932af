// Refusals 2 to 10: the length of a line, and the lowest condition that holds of its case.
ghost use Rattle.std.specs.Prelude.{◌≡◌, true, false, not, ◌||◌, cond, [], eqb};
ghost use Rattle.split.specs.Refusal.{bad_length, undated, disordered, bad_age, unknown_kind, unlisted, wrong_age, no_factor, unstated, conditions_with};
ghost use Rattle.calendar.specs.Calendar.{in_calendar};
ghost use Rattle.calendar.specs.Tests.{lowest, within};
ghost use Rattle.refusals.specs.Numbers.{refusal_number};
ghost use Rattle.split.specs.Conditions.{lower, later_conditions, pension_conditions};

use crate::basis::Basis;
use crate::case::{Pension, Service};
use crate::frame;
use crate::kind::Kind;
use calendar::Date;
use refusals::Refusal;

fn is_within(low: u32, high: u32, x: u32) -> bool
    ensures { result ≡ within low high x }
{
    (low <= x) & (x <= high)
}

pub fn has_bad_length(characters: usize, n: u8) -> bool
    ensures { result ≡ bad_length characters n }
{
    let counted = is_within(1, 4, n as u32);
    let wanted = frame::HEAD_LENGTH + frame::PENSION_LENGTH * (n as usize);
    !(counted & ((characters == wanted) | (characters == wanted + frame::ALLOWANCE_USED_LENGTH)))
}

// Whether one of two dates is not in the calendar. Inlined, since calls of it cost a refused quote 5 %.
#[inline(always)]
fn is_undated(first: Date, second: Date) -> bool
    ensures { result ≡ not (in_calendar first) || not (in_calendar second) }
{
    !calendar::in_calendar(first) | !calendar::in_calendar(second)
}

fn is_bad_age(age: u32) -> bool
    ensures { result ≡ bad_age age }
{
    !is_within(216, 1199, age)
}

fn is_unknown_kind(p: Pension) -> bool
    ensures { result ≡ unknown_kind p }
{
    Kind::try_from(p.kind).is_err()
}

// A bound where it applies, and 0 where it does not. The flag chooses between ready values, as the definition's cond does: a branch by
// the kind would often be mispredicted.
fn bound(applies: bool, bound: u32) -> u32
    ensures { result ≡ cond applies bound 0 }
{
    if applies { bound } else { 0 }
}

// Whether x is within a list that applies, or 0 where it does not, by the flag as in bound.
fn is_listed(applies: bool, low: u32, high: u32, x: u32) -> bool
    ensures { result ≡ cond applies (within low high x) (eqb x 0) }
{
    is_within(bound(applies, low), bound(applies, high), x)
}

// Kinds 1 and 2 have a lift flag and F1, kind 2 the other terms too; what a kind does not have is 0. The kind chooses the
// bounds, since a branch by it would often be mispredicted.
fn is_unlisted(p: Pension) -> bool
    ensures { result ≡ unlisted p }
{
    let t = p.terms;
    let second = p.is_of(Kind::AfterBreak1987);
    let first_or_second = second | p.is_of(Kind::Service1987);
    let lift = p.lift as u32 <= bound(first_or_second, 1);
    let f1 = (t.f1 == 0) | (first_or_second & is_within(500, 4000, t.f1 as u32));
    let f2 = is_listed(second, 500, 4000, t.f2 as u32);
    let f3 = is_listed(second, 1, 1000, t.f3 as u32);
    let increase = is_listed(second, 1, 10000, t.increase as u32);
    !(lift & (f1 & (f2 & (f3 & increase))))
}

fn is_unstated(p: Pension) -> bool
    ensures { result ≡ unstated p }
{
    p.stated.0 == 0
}

impl Basis {
    // The lowest refusal that the head alone gives.
    pub fn head_refusal(self) -> Result<(), Refusal>
        ensures { refusal_number result ≡ lowest 3 (conditions_with false self.head []) }
    {
        if is_undated(self.head.birth, self.head.commencement) {
            return Err(Refusal::DateOutsideCalendar);
        }
        if is_bad_age(self.age) {
            return Err(Refusal::AgeOutsideRange);
        }
        Ok(())
    }

    fn is_disordered(self, p: Pension) -> bool
        ensures { result ≡ disordered self.head p }
    {
        let Service { start, end } = p.service;
        let born = calendar::is_earlier(self.head.birth, start);
        let ended = calendar::is_earlier(end, start);
        let commenced = calendar::is_earlier(self.head.commencement, end);
        !born | (ended | commenced)
    }

    fn is_wrong_age(self, p: Pension) -> bool
        ensures { result ≡ wrong_age self.age p }
    {
        let second = p.is_of(Kind::AfterBreak1987);
        let third = p.is_of(Kind::Service2015);
        second & (660 <= self.age) | third & (self.age < 660)
    }

    fn has_no_factor(self, p: Pension) -> bool
        ensures { result ≡ no_factor self.age p }
    {
        let first = p.is_of(Kind::Service1987);
        let second = p.is_of(Kind::AfterBreak1987);
        let zero = p.terms.f1 == 0;
        (first | second) & (zero & !is_within(636, 875, self.age))
    }

    // The lowest refusal that a pension gives by the conditions after the kind.
    fn terms_refusal(self, p: Pension) -> Result<(), Refusal>
        ensures { refusal_number result ≡ lowest 7 (later_conditions self.age p) }
    {
        if is_unlisted(p) {
            return Err(Refusal::TermOutsideList);
        }
        if self.is_wrong_age(p) {
            return Err(Refusal::KindNotForAge);
        }
        if self.has_no_factor(p) {
            return Err(Refusal::NoFactorForAge);
        }
        if is_unstated(p) {
            return Err(Refusal::PensionOutsideRange);
        }
        Ok(())
    }

    // The lowest refusal that a pension gives, rule by rule.
    fn lowest_refusal(self, p: Pension) -> Result<(), Refusal>
        ensures { refusal_number result ≡ lowest 3 (pension_conditions self.head p) }
    {
        if is_undated(p.service.start, p.service.end) {
            return Err(Refusal::DateOutsideCalendar);
        }
        if self.is_disordered(p) {
            return Err(Refusal::DatesOutOfOrder);
        }
        if is_unknown_kind(p) {
            return Err(Refusal::UnknownKind);
        }
        self.terms_refusal(p)
    }

    // Whether the dates of a service are in order, and none of them is a 29 February.
    fn is_plain_service(self, p: Pension) -> bool
        ensures { result ≡ true → (undated p ≡ false) × (disordered self.head p ≡ false) }
    {
        if !calendar::is_common_date(p.service.start) {
            return false;
        }
        if !calendar::is_common_date(p.service.end) {
            return false;
        }
        !self.is_disordered(p)
    }

    // Whether kind, terms, age and amount of a pension break no rule.
    fn has_plain_terms(self, p: Pension) -> bool
        ensures { result ≡ true → (unknown_kind p ≡ false) × (lowest 7 (later_conditions self.age p) ≡ 0) }
    {
        !is_unknown_kind(p) && self.terms_refusal(p).is_ok()
    }

    // The lowest refusal that a pension gives. Most pensions give none, which is told without a look at leap years; only the
    // others are held to the rules one by one.
    pub fn pension_refusal(self, p: Pension) -> Result<(), Refusal>
        ensures { refusal_number result ≡ lowest 3 (pension_conditions self.head p) }
    {
        if self.is_plain_service(p) && self.has_plain_terms(p) {
            return Ok(());
        }
        self.lowest_refusal(p)
    }
}

// The lower of two refusals, of which Ok is none. The second is looked at first: most pensions have none, and the first then
// stays as it is, so that the loop over them writes nothing (3 % of a filing).
pub fn lower_of(a: Result<(), Refusal>, b: Result<(), Refusal>) -> Result<(), Refusal>
    ensures { refusal_number result ≡ lower (refusal_number a) (refusal_number b) }
{
    let Err(second) = b else {
        return a;
    };
    let Err(first) = a else {
        return b;
    };
    if first.number() <= second.number() {
        a
    } else {
        b
    }
}
