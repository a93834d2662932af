// Trivial commutation: one lump sum for the whole of a former officer's small pension in payment and of the survivor's pension that
// goes with it.
#![tactic(auto)]

mod tables;

ghost use Rattle.std.specs.Prelude.{◌≡◌, ◌*◌, ◌≤◌};
ghost use Rattle.trivial_commutation.specs.Answers.{commuted_as};
ghost use Rattle.trivial_commutation.specs.TrivialCommutation.{lump_sum, refused, trivial_commutation};

use factors::money::{LumpPence, YearlyPence};
use refusals::Refusal;
use tables::Factors;

// Yearly money as the caller gives it, in pence and of any size, so that an amount that is too large is refused and never cut.
#[derive(Clone, Copy, Debug, PartialEq, Eq)]
pub struct YearlyAmount(pub u64);

// Whether an age, a scheme or a pension is outside its bounds or its list.
#[tactic(auto, unfolding(crate::specs::TrivialCommutation::refused, crate::specs::TrivialCommutation::bad_age, crate::specs::TrivialCommutation::bad_scheme, crate::specs::TrivialCommutation::bad_pension))]
fn is_refused(scheme: u32, age: u32, member: YearlyAmount, survivor: YearlyAmount) -> bool
    ensures { result ≡ refused scheme age member.0 survivor.0 }
{
    let age_listed = (60 <= age) & (age <= 99);
    let scheme_listed = tables::table_of(scheme).is_some();
    let pensions_listed = ((1 <= member.0) & (member.0 <= 50000000)) & (survivor.0 <= 50000000);
    !age_listed | (!scheme_listed | !pensions_listed)
}

// What a pension comes to by a factor, in tenths of a penny.
fn lump_tenths(pension: YearlyPence, factor: u8) -> u64
    requires { pension.0 ≤ 50000000 }
    ensures { (result ≡ pension.0 * factor) × (result ≤ 12750000000) }
{
    (pension.0 as u64) * (factor as u64)
}

// The lump sum for both pensions: their sum is taken down to the penny, not each of them.
#[tactic(auto, unfolding(crate::specs::TrivialCommutation::lump_sum))]
fn lump_sum(factors: Factors, member: YearlyPence, survivor: YearlyPence) -> LumpPence
    requires { (member.0 ≤ 50000000) × (survivor.0 ≤ 50000000) }
    ensures { result.0 ≡ lump_sum factors member.0 survivor.0 }
{
    let for_member = lump_tenths(member, factors.member);
    let for_survivor = lump_tenths(survivor, factors.survivor);
    LumpPence(((for_member + for_survivor) / 10) as u32)
}

// Commutes the pension of a scheme (1987, 2006 or 2015) in payment to a former officer of an age in completed years, and the
// survivor's pension with it. The scheme is a number, since any may come and each but these is refused.
// The two pensions are two amounts of one call: a struct for them would be no plainer.
pub fn commute(
    scheme: u32,
    age: u32,
    member: YearlyAmount,
    survivor: YearlyAmount,
) -> Result<LumpPence, Refusal>
    ensures { commuted_as result ≡ trivial_commutation scheme age member.0 survivor.0 }
{
    if is_refused(scheme, age, member, survivor) {
        return Err(Refusal::CommutationOutsideRange);
    }
    let factors = tables::factors_of(scheme, age);
    let for_member = YearlyPence(member.0 as u32);
    let for_survivor = YearlyPence(survivor.0 as u32);
    Ok(lump_sum(factors, for_member, for_survivor))
}
