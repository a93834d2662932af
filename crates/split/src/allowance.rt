// The lump sum allowance: what is left of it, where it applies to a commencement.
ghost use Rattle.std.specs.Prelude.{◌≡◌, ◌-◌};
ghost use Rattle.split.specs.Allowance.{allowance_of, allowed, after_lump};
ghost use Rattle.split.specs.Working.{allowance_by};

use calendar::Date;
use factors::money::LumpPence;

// The whole allowance, in pence.
const WHOLE: u32 = 26827500;

// What is left of an amount, 0 where more than it is taken.
fn left_of(amount: LumpPence, taken: LumpPence) -> LumpPence
    ensures { result.0 ≡ amount.0 - taken.0 }
{
    LumpPence(amount.0.saturating_sub(taken.0))
}

// The allowance of a commencement: it applies from 6 April 2024 on, and what the amount used leaves of the whole is left. The
// date chooses between ready values, since a branch by it could not be foreseen.
pub fn allowance_of(commencement: Date, used: LumpPence) -> Option<LumpPence>
    ensures { allowance_by result ≡ allowance_of commencement used.0 }
{
    let start = Date {
        year: 2024,
        month: 4,
        day: 6,
    };
    let early = calendar::is_earlier(commencement, start);
    let left = left_of(LumpPence(WHOLE), used);
    if early { None } else { Some(left) }
}

// As much of a lump as the allowance allows.
pub fn allowed_lump(allowance: Option<LumpPence>, lump: LumpPence) -> LumpPence
    ensures { result.0 ≡ allowed (allowance_by allowance) lump.0 }
{
    match allowance {
        Some(left) => LumpPence(lump.0.min(left.0)),
        None => lump,
    }
}

// The allowance when a lump has been granted.
pub fn after_lump(allowance: Option<LumpPence>, lump: LumpPence) -> Option<LumpPence>
    ensures { allowance_by result ≡ after_lump (allowance_by allowance) lump.0 }
{
    allowance.map(|left| left_of(left, lump))
}
