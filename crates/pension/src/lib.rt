// The C interface: quoting, checking, filing, finding, joining, trivial commutation and the fault of a date under their C names, with
// the same promises. A slice passes as a pointer and a length. host/include/pension.h declares these for C.
#![tactic(auto)]

mod answers;
mod conversions;

ghost use Rattle.std.specs.Prelude.{◌≡◌, length, take, drop};
ghost use Rattle.calendar.specs.Calendar.{date_fault};
ghost use Rattle.split.specs.Quote.{quote_of};
ghost use Rattle.register.specs.Check.{check_of};
ghost use Rattle.register.specs.Find.{has_number, has_member, find_line, locate, locate_member};
ghost use Rattle.register.specs.Layout.{lent};
ghost use Rattle.register.specs.File.{filing, file_step};
ghost use Rattle.register.specs.Text.{FiledAll};
ghost use Rattle.joining.specs.Join.{join_step};
ghost use Rattle.trivial_commutation.specs.TrivialCommutation.{trivial_commutation};
ghost use Rattle.pension.specs.Interface.{quote_for_c, checked_for_c, filed_for_c, FiledTextForC, found_for_c, found_member_for_c, commuted_for_c, written_for_c};

use answers::{
    PensionChecked, PensionCommuted, PensionFiled, PensionFiledLines, PensionFound,
    PensionFoundMember, PensionQuote, PensionWritten,
};
use trivial_commutation::YearlyAmount;

// The quote of a case line.
#[unsafe(no_mangle)]
pub extern "C" fn pension_quote(line: &[u8]) -> PensionQuote
    ensures { result ≡ quote_for_c (quote_of line.now) }
{
    PensionQuote::from(split::quote(line))
}

// The check of a register.
#[unsafe(no_mangle)]
pub extern "C" fn pension_check(register: &[u8], used: usize) -> PensionChecked
    ensures { result ≡ checked_for_c (check_of (lent register.now used)) }
{
    PensionChecked::from(register::check(register, used))
}

// Files a case line; in an empty register it gets the first number, where 0 stands for the default.
#[unsafe(no_mangle)]
pub extern "C" fn pension_file(
    register: &mut [u8],
    used: usize,
    first_number: u32,
    line: &[u8],
) -> PensionFiled
    ensures { (result ≡ filed_for_c (file_step (lent register.old used) (filing first_number line.now)).answer) × (register.new ≡ (file_step (lent register.old used) (filing first_number line.now)).state.bytes) }
{
    PensionFiled::from(register::file(register, used, first_number, line))
}

// Files the lines of a text, each with the same first number.
#[unsafe(no_mangle)]
pub extern "C" fn pension_file_lines(
    register: &mut [u8],
    used: usize,
    first_number: u32,
    lines: &[u8],
    refusals: &mut [u8],
) -> PensionFiledLines
    ensures { FiledTextForC (lent register.old used) first_number lines.now refusals.old register.new refusals.new result }
{
    let filed = register::file_lines(register, used, first_number, lines, refusals);
    PensionFiledLines::from(filed)
}

// Files every line of a text into an empty register, each with the same first number.
#[unsafe(no_mangle)]
pub extern "C" fn pension_file_all(
    register: &mut [u8],
    first_number: u32,
    lines: &[u8],
    refusals: &mut [u8],
) -> usize
    ensures { FiledAll register.old first_number lines.now refusals.old register.new refusals.new result }
{
    register::file_all(register, first_number, lines, refusals)
}

// Where the line with a number is: the same bytes that find_number hands back.
#[unsafe(no_mangle)]
pub extern "C" fn pension_find_number(register: &[u8], used: usize, number: u32) -> PensionFound
    ensures { (result ≡ found_for_c (locate (has_number number) (lent register.now used))) × (take result.length (drop result.offset register.now) ≡ find_line (has_number number) (lent register.now used)) }
{
    PensionFound::from(register::locate_number(register, used, number))
}

// Where a member's newest line is: the same bytes that find_member hands back; and how many lines were compared.
#[unsafe(no_mangle)]
pub extern "C" fn pension_find_member(
    register: &[u8],
    used: usize,
    member: u32,
) -> PensionFoundMember
    ensures { (result ≡ found_member_for_c (locate_member member (lent register.now used))) × (take result.length (drop result.offset register.now) ≡ find_line (has_member member) (lent register.now used)) }
{
    PensionFoundMember::from(register::locate_member(register, used, member))
}

// Joins two registers into a third buffer.
#[unsafe(no_mangle)]
pub extern "C" fn pension_join(
    first: &[u8],
    first_used: usize,
    second: &[u8],
    second_used: usize,
    target: &mut [u8],
) -> PensionWritten
    ensures { (result ≡ written_for_c (join_step (lent first.now first_used) (lent second.now second_used) target.old).answer) × (target.new ≡ (join_step (lent first.now first_used) (lent second.now second_used) target.old).state) }
{
    let written = joining::join(first, first_used, second, second_used, target);
    PensionWritten::from(written)
}

// Commutes the small pension of a scheme in payment to a former officer of an age, and the survivor's pension with it.
#[unsafe(no_mangle)]
pub extern "C" fn pension_trivial_commutation(
    scheme: u32,
    age: u32,
    member_pension: u64,
    survivor_pension: u64,
) -> PensionCommuted
    ensures { result ≡ commuted_for_c (trivial_commutation scheme age member_pension survivor_pension) }
{
    let member = YearlyAmount(member_pension);
    let survivor = YearlyAmount(survivor_pension);
    PensionCommuted::from(trivial_commutation::commute(scheme, age, member, survivor))
}

// Which test the date of these numbers breaks first, or 0 for none, since C has a number and no Option.
#[unsafe(no_mangle)]
pub extern "C" fn pension_date_fault(year: u32, month: u32, day: u32) -> u32
    ensures { result ≡ date_fault year month day }
{
    match calendar::date_fault(year, month, day) {
        None => 0,
        Some(fault) => fault as u32,
    }
}
