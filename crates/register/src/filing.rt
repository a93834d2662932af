// Filing a case: the next line after the used part and no other byte, or a refusal and no byte at all.
ghost use Rattle.std.specs.Prelude.{◌≡◌, Ok};
ghost use Rattle.split.specs.Refusal.{refusal_of};
ghost use Rattle.split.specs.Quote.{as_quote, quote_of};
ghost use Rattle.register.specs.Layout.{lent};
ghost use Rattle.register.specs.File.{filing, number_set, number_from, file_step};
ghost use Rattle.register.specs.Text.{FiledText, FiledAll};
ghost use Rattle.register.specs.Answers.{filed_as};
ghost use Rattle.register.specs.Scan.{next_after, scanned_as, Known, EnteredAs};

use crate::answers::{Fault, FiledLines};
use crate::layout::LINE_LENGTH;
use crate::text::Lines;
use crate::{checking, layout};
use refusals::Refusal;
use split::answers::Granted;

// Where the commencement date stands in a case line.
const COMMENCEMENT_AT: usize = 16;

// What one year is worth in the number of a date's four bytes.
const YEAR_UNIT: u32 = 65536;

// How far the default first numbers of one year and the next are apart.
const YEAR_NUMBERS: u64 = 100000;

// What is filed: the first number, which an empty register takes, and the case line. A first number 0 stands for the default, as the
// definition number_set and C have it.
#[derive(Clone, Copy)]
struct Filing<'a> {
    first_number: u32,
    line: &'a [u8],
}

impl<'a> Filing<'a> {
    // The number that the filing sets in an empty register: the first number, and for 0 the default of its case.
    fn number_set(self) -> u64
        ensures { result ≡ number_set (filing self.entry.first_number self.entry.line.now) }
    {
        if self.first_number == 0 {
            let year = split::number_at(self.line, COMMENCEMENT_AT) / YEAR_UNIT;
            return year as u64 * YEAR_NUMBERS + 1;
        }
        self.first_number as u64
    }

    // The number given behind the last line, and where there is none the one that the filing sets.
    fn number_given(self, last: Option<u32>) -> u64
        ensures { result ≡ number_from (next_after last) (filing self.entry.first_number self.entry.line.now) }
    {
        match last {
            Some(number) => checking::following_number(number),
            None => self.number_set(),
        }
    }
}

// A line that was filed: its number, and the used length past it.
#[derive(Clone, Copy)]
struct Entered {
    number: u32,
    used: usize,
}

// Files an accepted case, of which this is the quote, in a sound register, of which the last line's number is known. Bytes and used length
// stand side by side: a struct with the lent bytes in it is no plainer, as it would be lent on for each line, and the contracts say lent.
fn enter(
    register: &mut [u8],
    used: usize,
    last: Option<u32>,
    case: Filing,
    quote: Granted,
) -> Result<Entered, Refusal>
    requires { Known (lent register.old used) (scanned_as (Ok last)) × (refusal_of case.line.now ≡ 0) × (as_quote quote ≡ quote_of case.line.now) }
    ensures { EnteredAs (lent register.old used) (filing case.entry.first_number case.entry.line.now) (next_after last) result register.new }
{
    if register.len() - used < LINE_LENGTH {
        return Err(Refusal::RegisterFull);
    }
    let number = case.number_given(last);
    if 4294967296 <= number {
        return Err(Refusal::NumbersUsedUp);
    }
    let end = used + LINE_LENGTH;
    layout::write_line(&mut register[used..end], number as u32, quote);
    Ok(Entered {
        number: number as u32,
        used: end,
    })
}

// Files a case in a register that was gone along.
fn file_known(
    register: &mut [u8],
    used: usize,
    known: Result<Option<u32>, Fault>,
    case: Filing,
) -> Result<Entered, Refusal>
    requires { Known (lent register.old used) (scanned_as known) }
    ensures { EnteredAs (lent register.old used) (filing case.entry.first_number case.entry.line.now) (scanned_as known).next result register.new }
{
    let quote = split::quote(case.line)?;
    let last = known?;
    enter(register, used, last, case, quote)
}

// Files a case: the lowest of the refusals that apply, or the used length past the new line. The register is checked for an
// accepted case only. The line gets the first number in an empty register, where 0 stands for the default of the case, and the
// last plus one in one that has lines.
pub fn file(
    register: &mut [u8],
    used: usize,
    first_number: u32,
    line: &[u8],
) -> Result<usize, Refusal>
    ensures { (filed_as result ≡ (file_step (lent register.old used) (filing first_number line.now)).answer) × (register.new ≡ (file_step (lent register.old used) (filing first_number line.now)).state.bytes) }
{
    let quote = split::quote(line)?;
    let last = checking::scan(register, used)?;
    let case = Filing { first_number, line };
    let entered = enter(register, used, last, case, quote)?;
    Ok(entered.used)
}

// Files the lines of a text one after the other, each with the same first number, with one check of the register: the used length
// from then on and how many lines there were, and a refusal for each line as far as there is room, as a number in a byte that C lends.
pub fn file_lines(
    register: &mut [u8],
    used: usize,
    first_number: u32,
    lines: &[u8],
    refusals: &mut [u8],
) -> FiledLines
    ensures { FiledText (lent register.old used) first_number lines.now refusals.old register.new refusals.new result }
{
    let mut known = checking::scan(register, used);
    let mut filled = used;
    // Counted by hand: the answer has the count, and `enumerate` keeps its own within the loop.
    let mut count = 0;
    for line in Lines::of(lines) {
        let case = Filing { first_number, line };
        let filed = file_known(register, filled, known, case);
        // By the index: what the contract of `get_mut` says of the slice is its length alone.
        if count < refusals.len() {
            refusals[count] = refusals::number_of(&filed);
        }
        if let Ok(entered) = filed {
            filled = entered.used;
            known = Ok(Some(entered.number));
        }
        count += 1;
    }
    FiledLines {
        used: filled,
        lines: count,
    }
}

// Files every line of a text into an empty register, each with the same first number: the used length, and a refusal for each line
// as far as there is room, as a number in a byte that C lends.
pub fn file_all(register: &mut [u8], first_number: u32, lines: &[u8], refusals: &mut [u8]) -> usize
    ensures { FiledAll register.old first_number lines.now refusals.old register.new refusals.new result }
{
    let filed = file_lines(register, 0, first_number, lines, refusals);
    filed.used
}
