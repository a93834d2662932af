// The figures of a quote.
use factors::money::{LumpPence, YearlyPence};

// The figures of one pension.
#[derive(Clone, Copy)]
pub struct Share {
    pub lump: LumpPence,
    pub remaining: YearlyPence,
    pub second: LumpPence,
}

// What is granted to an accepted case. The memory is fixed, so that there are four places; one without a pension has zeros.
#[derive(Clone, Copy)]
pub struct Granted {
    pub member: u32,
    pub total: LumpPence,
    pub shares: [Share; 4],
}
