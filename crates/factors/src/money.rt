// The two units of money, in whole pence: a type each, as the rules ask, so that they never mix. They meet only where a factor is applied.

// Money paid once.
#[derive(Clone, Copy, Debug, PartialEq, Eq, PartialOrd, Ord)]
pub struct LumpPence(pub u32);

// Money paid each year.
#[derive(Clone, Copy, Debug, PartialEq, Eq, PartialOrd, Ord)]
pub struct YearlyPence(pub u32);
