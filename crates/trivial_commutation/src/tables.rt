// Tables 1 and 2 of document 004: factors for the commutation of a small pension, in tenths. A table has ages 60 to 99, a row an age.
ghost use Rattle.std.specs.Prelude.{◌≡◌, ◌||◌, is_some, Some, map};
ghost use Rattle.trivial_commutation.specs.TrivialCommutation.{uses_table_1, uses_table_2, table_of, row_of};
ghost use Rattle.trivial_commutation.specs.Tables.{Row, rows_of};

// The two factors of a row: for the pension in payment to the member, and for the survivor's pension.
#[derive(Clone, Copy, Debug, PartialEq, Eq)]
pub struct Factors {
    pub member: u8,
    pub survivor: u8,
}

// A row as the document prints it: the member's factor and the survivor's.
macro_rules! row {
    ($member:literal, $survivor:literal) => {
        Factors { member: $member, survivor: $survivor }
    };
}

// Table 1, the 1987 scheme.
const TABLE_1: [Factors; 40] = [
    row!(192, 28), // 60
    row!(187, 28), // 61
    row!(182, 29), // 62
    row!(176, 29), // 63
    row!(171, 28), // 64
    row!(165, 28), // 65
    row!(160, 28), // 66
    row!(154, 28), // 67
    row!(149, 28), // 68
    row!(143, 28), // 69
    row!(137, 27), // 70
    row!(131, 27), // 71
    row!(126, 27), // 72
    row!(120, 27), // 73
    row!(114, 25), // 74
    row!(108, 24), // 75
    row!(103, 24), // 76
    row!(97, 23), // 77
    row!(92, 23), // 78
    row!(86, 21), // 79
    row!(81, 19), // 80
    row!(76, 18), // 81
    row!(70, 18), // 82
    row!(65, 17), // 83
    row!(61, 15), // 84
    row!(56, 13), // 85
    row!(52, 12), // 86
    row!(48, 12), // 87
    row!(44, 11), // 88
    row!(40, 9), // 89
    row!(37, 7), // 90
    row!(34, 6), // 91
    row!(31, 6), // 92
    row!(28, 5), // 93
    row!(26, 5), // 94
    row!(24, 5), // 95
    row!(22, 4), // 96
    row!(21, 4), // 97
    row!(19, 4), // 98
    row!(18, 3), // 99
];

// Table 2, the 2006 and 2015 schemes.
const TABLE_2: [Factors; 40] = [
    row!(192, 30), // 60
    row!(187, 30), // 61
    row!(182, 30), // 62
    row!(176, 31), // 63
    row!(171, 30), // 64
    row!(165, 29), // 65
    row!(160, 29), // 66
    row!(154, 29), // 67
    row!(149, 29), // 68
    row!(143, 28), // 69
    row!(137, 28), // 70
    row!(131, 28), // 71
    row!(126, 28), // 72
    row!(120, 28), // 73
    row!(114, 26), // 74
    row!(108, 25), // 75
    row!(103, 24), // 76
    row!(97, 24), // 77
    row!(92, 23), // 78
    row!(86, 21), // 79
    row!(81, 19), // 80
    row!(76, 19), // 81
    row!(70, 18), // 82
    row!(65, 18), // 83
    row!(61, 15), // 84
    row!(56, 13), // 85
    row!(52, 12), // 86
    row!(48, 12), // 87
    row!(44, 11), // 88
    row!(40, 9), // 89
    row!(37, 7), // 90
    row!(34, 6), // 91
    row!(31, 6), // 92
    row!(28, 6), // 93
    row!(26, 5), // 94
    row!(24, 5), // 95
    row!(22, 4), // 96
    row!(21, 4), // 97
    row!(19, 4), // 98
    row!(18, 3), // 99
];

// Which of the two tables a scheme has its factors in.
#[derive(Clone, Copy, Debug, PartialEq, Eq)]
pub enum Table {
    First,
    Second,
}

impl Table {
    // The rows of the table, from age 60 on.
    #[tactic(auto, unfolding(crate::specs::Tables::small_pension_1987, crate::specs::Tables::small_pension_2006_and_2015))]
    fn rows(self) -> &'static [Factors; 40]
        ensures { result.now ≡ map (λ (r : Row). r.factors) (rows_of (Some self)) }
    {
        match self {
            Table::First => &TABLE_1,
            Table::Second => &TABLE_2,
        }
    }
}

// The table of a scheme, given by its year; None for a year that is no scheme's.
#[tactic(auto, unfolding(crate::specs::TrivialCommutation::uses_table_1, crate::specs::TrivialCommutation::uses_table_2, crate::specs::TrivialCommutation::table_of))]
pub fn table_of(scheme: u32) -> Option<Table>
    ensures listed { is_some result ≡ (uses_table_1 scheme || uses_table_2 scheme) }
    ensures rows { rows_of result ≡ table_of scheme }
{
    match scheme {
        1987 => Some(Table::First),
        2006 | 2015 => Some(Table::Second),
        _ => None,
    }
}

// The factors at an age by the table of a scheme; zeros where there are none, as those of the definition no_row.
#[tactic(auto, using(crate::proofs::OwnRow::placed, crate::proofs::OwnRow::no_age))]
pub fn factors_of(scheme: u32, age: u32) -> Factors
    ensures { result ≡ (row_of (table_of scheme) age).factors }
{
    match (table_of(scheme), age) {
        (Some(table), 60..=99) => table.rows()[(age - 60) as usize],
        _ => row!(0, 0),
    }
}
