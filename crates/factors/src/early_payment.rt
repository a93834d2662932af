// Table A of document 003 and the reduction of a 2015 pension that is paid early.
ghost use Rattle.std.specs.Prelude.{◌≡◌};
ghost use Rattle.factors.specs.EarlyPayment.{early_payment_factor, reduced_pension};

use crate::money::YearlyPence;

// Months to the 60th birthday 0 to 60, in thousandths.
const TABLE_A: [u16; 61] = [
    998, 994, 989, 985, 981, 977, 972, 968, 964, 959, 955, 951, 947, 943, 939, 935, 931, 927, 923,
    919, 915, 911, 907, 903, 899, 896, 892, 888, 885, 881, 877, 873, 870, 866, 862, 859, 855, 852,
    848, 845, 841, 838, 834, 831, 827, 824, 821, 817, 814, 811, 807, 804, 801, 798, 794, 791, 788,
    785, 781, 778, 775,
];

// The factor at a number of months to the 60th birthday; 0 above 60, and no Option, as the definition early_payment_factor answers for
// every number.
#[tactic(auto, unfolding(crate::specs::EarlyPayment::early_payment_factor, crate::specs::EarlyPayment::table_a))]
pub fn early_payment_factor(months: u32) -> u16
    ensures { result ≡ early_payment_factor months }
{
    TABLE_A.get(months as usize).copied().unwrap_or(0)
}

// A stated 2015 pension as it is paid this many months early, down to the penny.
#[tactic(auto, using(crate::proofs::EarlyPaymentLaws::reduced_at_most), unfolding(crate::specs::EarlyPayment::reduced_pension))]
pub fn reduced_pension(stated: YearlyPence, months: u32) -> YearlyPence
    ensures { result.0 ≡ reduced_pension stated.0 months }
{
    let whole = stated.0 as u64;
    let factor = early_payment_factor(months) as u64;
    YearlyPence((whole * factor / 1000) as u32)
}
