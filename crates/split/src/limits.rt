// The limits of a split: worked-down pensions, caps and prices, and the row that they make of a pension.
ghost use Rattle.std.specs.Prelude.{◌≡◌, cond, ℕ, ◌+◌, ◌*◌, ◌/◌, ◌≤◌, ◌<◌, eqb};
ghost use Rattle.factors.specs.Effective.{FactorRange};
ghost use Rattle.split.specs.Refusal.{age_of};
ghost use Rattle.split.specs.Benefits.{worked_pension, worked_terms, limited_lump, quarter_lump, cap_of};
ghost use Rattle.split.specs.Limits.{rounded_up, price_of};
ghost use Rattle.split.specs.Working.{AcceptedIn, multiple_factor, increase_of, no_row, row_of};

use crate::basis::Basis;
use crate::case::Pension;
use crate::kind::Kind;
use factors::effective::{Factor, FactorTerms};
use factors::money::{LumpPence, YearlyPence};

// A pension of a case as the limits see it: P, E and the cap.
#[derive(Clone, Copy)]
pub struct Benefit {
    pub pension: YearlyPence,
    pub factor: Factor,
    pub cap: LumpPence,
}

// The row of a pension: the pension as the limits see it, the price of one penny of lump, the lump it has been given, the
// increase that gives a second instalment, and whether its turn in the grant is still to come. Lump and turn stand side by side as in the
// definition Row.
#[derive(Clone, Copy)]
pub struct PensionRow {
    pub benefit: Benefit,
    pub price: u64,
    pub lump: LumpPence,
    pub increase: u16,
    pub waiting: bool,
}

// The exchange of a pension for a lump: what is paid of the pension, and E. Their ranges are kept here and not by Factor, since
// effective_factor gives one for any terms.
#[derive(Clone, Copy)]
struct Exchange {
    pension: YearlyPence,
    factor: Factor,
    ghost small: { pension.0 ≤ 50000000 },
    ghost ranged: { FactorRange factor },
}

// Whether the two-and-a-quarter cap applies.
fn is_limited(p: Pension) -> bool
    ensures { result ≡ limited_lump p }
{
    let months = calendar::months_between(p.service.start, p.service.end);
    let first = p.is_of(Kind::Service1987);
    let second = p.is_of(Kind::AfterBreak1987);
    (first | second) & (((300 <= months) & (months <= 359)) & (p.lift == 0))
}

// A quotient rounded up to a whole number. The library's div_ceil was tried: its equality with the definition stayed open.
fn rounded_up(x: u64, y: u64) -> u64
    requires { (0 < y) × (x + y < 18446744073709551616) }
    ensures { result ≡ rounded_up x y }
{
    (x + (y - 1)) / y
}

impl Exchange {
    // A quarter of the pension, as a lump.
    fn quarter_lump(self) -> LumpPence
        ensures { (result.0 ≡ quarter_lump self.pension.0 self.factor) × (result.0 ≤ 1000000000) }
    {
        let e = self.factor;
        LumpPence((self.pension.0 as u64 * e.top / (4 * e.bottom)) as u32)
    }

    // The cap. Ready values are chosen: a branch on whether the second cap applies can't be foreseen.
    fn cap(self, limited: bool) -> LumpPence
        ensures { result.0 ≡ cap_of limited self.pension.0 self.factor }
    {
        let quarter = self.quarter_lump();
        let lower = quarter.0.min(9 * self.pension.0 / 4);
        LumpPence(if limited { lower } else { quarter.0 })
    }

    // The price of one penny of lump, in billionths.
    fn price(self) -> u64
        ensures { result ≡ price_of self.factor }
    {
        let e = self.factor;
        3000000000 + rounded_up(20000000000 * e.bottom, e.top)
    }
}

// The increase that gives a second instalment, which only kind 2 has.
fn increase_of(p: Pension) -> u16
    ensures { result ≡ increase_of p }
{
    if p.is_of(Kind::AfterBreak1987) {
        p.terms.increase
    } else {
        0
    }
}

// The part of a stated pension that is paid, down to the penny. reduced_pension of the factors takes months, and would look up again what
// the head gives once.
fn paid_part(stated: YearlyPence, thousandths: u16) -> YearlyPence
    requires { thousandths ≤ 1000 }
    ensures { result.0 ≡ stated.0 * thousandths / 1000 }
{
    let whole = stated.0 as u64;
    let part = thousandths as u64;
    YearlyPence((whole * part / 1000) as u32)
}

impl Basis {
    // The thousandths of a pension that are paid: any but a 2015 pension is kept whole.
    fn thousandths_of(self, p: Pension) -> u16
        ensures { result ≡ cond (eqb p.kind 3) self.paid 1000 }
    {
        if p.is_of(Kind::Service2015) {
            self.paid
        } else {
            1000
        }
    }

    // P: what is paid of the stated pension.
    fn worked_pension(self, p: Pension) -> YearlyPence
        ensures { result.0 ≡ worked_pension self.head p }
    {
        paid_part(p.stated, self.thousandths_of(p))
    }

    // The terms with F1 as given, or as it was looked up at the age.
    fn worked_terms(self, t: FactorTerms) -> FactorTerms
        ensures { result ≡ worked_terms (age_of self.head) t }
    {
        let f1 = if t.f1 == 0 { self.found } else { t.f1 };
        FactorTerms { f1, ..t }
    }

    // What is paid of an accepted pension, and E as one top over one bottom whatever the kind.
    fn exchange_of(self, p: Pension) -> Exchange
        requires { AcceptedIn self.head p }
        ensures { (result.pension.0 ≡ worked_pension self.head p) × (result.factor ≡ multiple_factor self.head p) }
    {
        let pension = self.worked_pension(p);
        let factor = factors::effective::effective_factor(p.kind, self.worked_terms(p.terms));
        Exchange { pension, factor }
    }

    // The row of an accepted pension before its turn.
    pub fn row_of(self, p: Pension) -> PensionRow
        requires { AcceptedIn self.head p }
        ensures { result ≡ row_of self.head p }
    {
        let exchange = self.exchange_of(p);
        let cap = exchange.cap(is_limited(p));
        PensionRow {
            benefit: Benefit {
                pension: exchange.pension,
                factor: exchange.factor,
                cap,
            },
            price: exchange.price(),
            lump: LumpPence(0),
            increase: increase_of(p),
            waiting: true,
        }
    }
}

// The row that stands for none, in a place without a pension: the memory is fixed.
pub fn no_row() -> PensionRow
    ensures { result ≡ no_row }
{
    PensionRow {
        benefit: Benefit {
            pension: YearlyPence(0),
            factor: Factor { top: 0, bottom: 0 },
            cap: LumpPence(0),
        },
        price: 0,
        lump: LumpPence(0),
        increase: 0,
        waiting: false,
    }
}
