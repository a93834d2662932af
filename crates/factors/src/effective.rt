// The effective factor E: the lump sum for one penny a year of pension, as a top over a bottom.
ghost use Rattle.std.specs.Prelude.{◌≡◌, ◌*◌, ◌<◌};
ghost use Rattle.factors.specs.Effective.{effective_factor, lump_top, lump_bottom, multiplier, multiple};

#[derive(Clone, Copy, Debug, PartialEq, Eq)]
pub struct Factor {
    pub top: u64,
    pub bottom: u64,
}

// F1, F2, F3 and PI of a pension: hundredths, hundredths, thousandths, hundredths of a percent.
#[derive(Clone, Copy, Debug, PartialEq, Eq)]
pub struct FactorTerms {
    pub f1: u16,
    pub f2: u16,
    pub f3: u16,
    pub increase: u16,
}

// The whole product of two terms.
fn product(a: u16, b: u16) -> u64
    ensures { (result ≡ a * b) × (result < 4294967296) }
{
    a as u64 * b as u64
}

// N of document 01, within 33 bits.
#[tactic(auto, unfolding(crate::specs::Effective::lump_top))]
fn lump_top(t: FactorTerms) -> u64
    ensures { (result ≡ lump_top t) × (result < 8589934592) }
{
    10000 * t.f1 as u64 + product(t.increase, t.f2)
}

// D of document 01.
#[tactic(auto, unfolding(crate::specs::Effective::lump_bottom))]
fn lump_bottom(t: FactorTerms) -> u64
    ensures { result ≡ lump_bottom t }
{
    10000000 + product(t.increase, t.f3)
}

// E of a pension as 10N/D, whatever its kind: kind 3, as which any number that is no kind counts, has 1,200 for F1, and PI counts
// for kind 2 alone. One formula, since kinds come in any order and a branch by them is mispredicted; its tops and bottoms
// are of one size, so that a division by them does not branch either. The kind is a number, since the definition answers for any.
#[tactic(auto, using(crate::proofs::EffectiveLaws::multiple_made))]
pub fn effective_factor(kind: u8, t: FactorTerms) -> Factor
    ensures { result ≡ multiple (multiplier kind) (effective_factor kind t) }
{
    let second = kind == 2;
    let f1 = if (kind == 1) | second { t.f1 } else { 1200 };
    let increase = if second { t.increase } else { 0 };
    let terms = FactorTerms { f1, increase, ..t };
    Factor {
        top: 10 * lump_top(terms),
        bottom: lump_bottom(terms),
    }
}
