// Dates: whether they are in the calendar and what is wrong with them if not, their order, and the months between them.
#![tactic(auto)]

ghost use Rattle.std.specs.Prelude.{◌≡◌, ◌+◌, ◌*◌, ◌≤◌};
ghost use Rattle.calendar.specs.Calendar.{date, leap, month_length, length_in, date_fault, fault_number, in_calendar, common_date, earlier, last_day, incomplete, months, sixtieth_birthday};

// The years of the calendar.
const FIRST_YEAR: u32 = 1900;

const LAST_YEAR: u32 = 2199;

// Any three numbers of these widths, as they stand in a case line; in_calendar tells which are dates.
#[derive(Clone, Copy, Debug, PartialEq, Eq, PartialOrd, Ord)]
pub struct Date {
    pub year: u16,
    pub month: u8,
    pub day: u8,
}

// The tests of the calendar, each by the number that tells it to a C program, which has 0 for a date that breaks none.
#[derive(Clone, Copy, Debug, PartialEq, Eq)]
pub enum DateFault {
    Day = 1,
    Month = 2,
    Year = 3,
    MonthLength = 4,
}

#[tactic(auto, unfolding(crate::specs::Calendar::leap))]
fn leap_year(year: u32) -> bool
    ensures { result ≡ leap year }
{
    let fourth = year % 4 == 0;
    let hundredth = year % 100 == 0;
    let four_hundredth = year % 400 == 0;
    fourth & (!hundredth | four_hundredth)
}

// The days that a month has in every year, so without 29 February, as in 1901; 0 where there is no such month, as the definition
// month_length has it. An arm a month is a table to the compiler. Months that share an arm, as `4 | 6 | 9 | 11`, are branches, by which in_calendar takes twice as long.
#[tactic(auto, unfolding(crate::specs::Calendar::month_length, crate::specs::Calendar::month_in, crate::specs::Calendar::thirty, crate::specs::Calendar::leap))]
fn days_of(month: u32) -> u32
    ensures { result ≡ month_length 1901 month }
{
    match month {
        1 => 31,
        2 => 28,
        3 => 31,
        4 => 30,
        5 => 31,
        6 => 30,
        7 => 31,
        8 => 31,
        9 => 30,
        10 => 31,
        11 => 30,
        12 => 31,
        _ => 0,
    }
}

// Whether d is a date whose day its month has in every year: a date of the calendar, and any of them but a 29 February.
#[tactic(auto, unfolding(crate::specs::Calendar::year_in, crate::specs::Calendar::common_date))]
pub fn is_common_date(d: Date) -> bool
    ensures { result ≡ common_date d }
{
    let year = d.year as u32;
    let day = d.day as u32;
    let year_in = (FIRST_YEAR <= year) & (year <= LAST_YEAR);
    year_in & ((1 <= day) & (day <= days_of(d.month as u32)))
}

// Whether the month of a year has the day. Whether a year is a leap year takes divisions: only 29 February asks.
#[tactic(auto, using(crate::proofs::CalendarLaws::usual_day, crate::proofs::CalendarLaws::leap_day, crate::proofs::CalendarLaws::no_day))]
fn has_day(year: u32, month: u32, day: u32) -> bool
    ensures { result ≡ length_in year month day }
{
    if day <= days_of(month) {
        return true;
    }
    if (month == 2) & (day == 29) {
        return leap_year(year);
    }
    false
}

// Which test of the calendar the date of these numbers, all 32 bits of them, breaks first; None where it breaks none.
#[tactic(auto, unfolding(crate::specs::Calendar::date_fault, crate::specs::Calendar::broken_tests, crate::specs::Calendar::day_in, crate::specs::Calendar::month_in, crate::specs::Calendar::year_in))]
pub fn date_fault(year: u32, month: u32, day: u32) -> Option<DateFault>
    ensures { fault_number result ≡ date_fault year month day }
{
    if !((1 <= day) & (day <= 31)) {
        return Some(DateFault::Day);
    }
    if !((1 <= month) & (month <= 12)) {
        return Some(DateFault::Month);
    }
    if !((FIRST_YEAR <= year) & (year <= LAST_YEAR)) {
        return Some(DateFault::Year);
    }
    if !has_day(year, month, day) {
        return Some(DateFault::MonthLength);
    }
    None
}

// Whether d is a date of the calendar: one without a fault. Most are dates of every year, which are let in at once: of the tests in
// their order the compiler makes a jump by the length of the month, which can't be foreseen.
pub fn in_calendar(d: Date) -> bool
    ensures { result ≡ in_calendar d }
{
    if is_common_date(d) {
        return true;
    }
    date_fault(d.year as u32, d.month as u32, d.day as u32).is_none()
}

// A date as one number, in the order of dates. The derived order branches, and dates come in any order: a comparison by it takes twice
// as long or more.
fn order(d: Date) -> u32
    ensures { result ≡ d.year * 65536 + (d.month * 256 + d.day) }
{
    d.year as u32 * 65536 + (d.month as u32 * 256 + d.day as u32)
}

// Whether a is strictly before b.
#[tactic(auto, using(crate::proofs::CalendarLaws::earlier_numbers))]
pub fn is_earlier(a: Date, b: Date) -> bool
    ensures { result ≡ earlier a b }
{
    order(a) < order(b)
}

// 12 times the year plus the month, by which months are counted.
fn month_index(year: u32, month: u8) -> u32
    requires { year ≤ 65595 }
    ensures { result ≡ 12 * year + month }
{
    12 * year + month as u32
}

// Whether the date of these numbers is the last day of its month, or past it: the month has no day after it.
#[tactic(auto, using(crate::proofs::CalendarLaws::day_after), unfolding(crate::specs::Calendar::last_day))]
fn is_last_day(year: u32, month: u8, day: u8) -> bool
    ensures { result ≡ last_day (date year month day) }
{
    !has_day(year, month as u32, day as u32 + 1)
}

// Whether the last month from a to a later date is not complete. The later date comes as plain numbers, since the year of
// a 60th birthday may pass those of a Date.
#[tactic(auto, unfolding(crate::specs::Calendar::incomplete))]
fn is_incomplete(a: Date, year: u32, month: u8, day: u8) -> bool
    ensures { result ≡ incomplete a (date year month day) }
{
    let below = day < a.day;
    below & !is_last_day(year, month, day)
}

// Whole months from a to the date of these numbers, of which the year is at most 60 past the years of a Date.
#[tactic(auto, unfolding(crate::specs::Calendar::months, crate::specs::Calendar::month_index))]
fn months_to(a: Date, year: u32, month: u8, day: u8) -> u32
    requires { year ≤ 65595 }
    ensures { result ≡ months a (date year month day) }
{
    let from = month_index(a.year as u32, a.month);
    let to = month_index(year, month);
    // A number and not a branch of its own: days come in any order, so that a branch on them is mispredicted half of the time.
    let short = u32::from(is_incomplete(a, year, month, day));
    to.saturating_sub(from + short)
}

// Whole months from a to b; 0 where b is before a.
pub fn months_between(a: Date, b: Date) -> u32
    ensures { result ≡ months a b }
{
    months_to(a, b.year as u32, b.month, b.day)
}

// Whole months from a date to the 60th birthday of one born at birth; 0 where that is past.
#[tactic(auto, unfolding(crate::specs::Calendar::sixtieth_birthday))]
pub fn months_to_sixtieth_birthday(birth: Date, from: Date) -> u32
    ensures { result ≡ months from (sixtieth_birthday birth) }
{
    months_to(from, birth.year as u32 + 60, birth.month, birth.day)
}
