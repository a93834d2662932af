// Factors of the source documents: Table 1 and Table A, the reduced 2015 pension, and the effective factor E.
#![tactic(auto)]

pub mod commutation;
pub mod early_payment;
pub mod effective;
pub mod money;
