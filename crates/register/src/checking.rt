// The check of a register. Bytes and used length stand side by side, as C hands them over.
ghost use Rattle.std.specs.Prelude.{◌≡◌, cond, not, ◌&&◌, ◌+◌, ◌%◌, ◌≤◌, ltb, eqb, length, get_or, take};
ghost use Rattle.split.specs.Frame.{is_no_digit, bad_character, number_at};
ghost use Rattle.register.specs.Line.{figure_width, text_length};
ghost use Rattle.register.specs.Layout.{lent, line_length, used_lines};
ghost use Rattle.register.specs.Check.{following, wrong_number, bad_used, check_lines, check_of};
ghost use Rattle.register.specs.Answers.{checked_as};
ghost use Rattle.register.specs.Scan.{next_after, scanned_as, ScannedAs, DigitsAt};

use crate::answers::Fault;
use crate::layout::{FIGURE_WIDTH, LINE_LENGTH, TEXT_LENGTH};

// Characters that the compiler judges together, how many of a line's digits fill whole spans, and where its last span begins.
const SPAN: usize = 16;

const WHOLE_SPANS: usize = TEXT_LENGTH / SPAN * SPAN;

const LAST_SPAN: usize = TEXT_LENGTH - SPAN;

// Whether a character may not stand at a place of a line.
fn is_bad(character: u8, place: usize) -> bool
    ensures { result ≡ cond (ltb place text_length) (is_no_digit character) (not (eqb character 10)) }
{
    if place < TEXT_LENGTH {
        return split::hex_value(character) == 16;
    }
    character != b'\n'
}

// Whether the characters of a line are its digits and its newline. It looks at them all, with no branch for each, and in whole
// spans: the last one overlaps those before it, so that no digits are left to be judged one by one. With one call for all the
// digits the check of a register took a ninth longer.
fn has_layout(line: &[u8]) -> bool
    requires { length line.now ≡ line_length }
    ensures { result ≡ (not (bad_character (take text_length line.now)) && eqb (get_or line.now text_length 0) 10) }
{
    let bad_whole = split::has_bad_character(&line[0..WHOLE_SPANS]);
    let bad_last = split::has_bad_character(&line[LAST_SPAN..TEXT_LENGTH]);
    !(bad_whole | bad_last) & (line[TEXT_LENGTH] == b'\n')
}

// The number of the line at a place, where its characters are digits. It is worked out without asking whether they are: by the split's
// number_at, which asks, a check takes an eighth longer.
fn line_number(register: &[u8], at: usize) -> u32
    requires { at + figure_width ≤ length register.now }
    ensures { DigitsAt register.now at figure_width → result ≡ number_at register.now at figure_width }
{
    let mut value: u32 = 0;
    for i in 0..FIGURE_WIDTH {
        value = value * 16 + split::digit_value(register[at + i]) as u32;
    }
    value
}

// The number that follows another.
pub fn following_number(number: u32) -> u64
    ensures { result ≡ following number }
{
    number as u64 + 1
}

// Whether a line behind the last one has a wrong number: the first of all may have any from 1, and the others the following one.
fn is_wrong_number(last: Option<u32>, number: u32) -> bool
    ensures { result ≡ wrong_number (next_after last) number }
{
    match last {
        Some(last) => number as u64 != following_number(last),
        None => number == 0,
    }
}

fn is_bad_used(buffer: usize, used: usize) -> bool
    ensures { result ≡ bad_used buffer used }
{
    (buffer < used) | !(used % LINE_LENGTH == 0)
}

// Goes along whole lines to the fault of the first bad one; the last line's number, and None where there is no line. Only a bad
// line's characters are gone through one by one. The rules ask for nested loops, left by a label with the finding, which a
// `for` can't give as its value.
fn scan_lines(register: &[u8], used: usize) -> Result<Option<u32>, Fault>
    requires { (used ≤ length register.now) × (used % line_length ≡ 0) }
    ensures { ScannedAs (check_lines 0 0 (used_lines (lent register.now used))) (used_lines (lent register.now used)) (scanned_as result) }
{
    let mut at = 0;
    let mut last = None;
    'lines: loop {
        if used <= at {
            break 'lines Ok(last);
        }
        let number = line_number(register, at);
        let wrong = is_wrong_number(last, number);
        let whole = has_layout(&register[at..at + LINE_LENGTH]);
        if wrong | !whole {
            for (place, character) in register[at..at + LINE_LENGTH].iter().enumerate() {
                if (place == FIGURE_WIDTH) & wrong {
                    break 'lines Err(Fault { offset: at });
                }
                if is_bad(*character, place) {
                    break 'lines Err(Fault { offset: at + place });
                }
            }
        }
        last = Some(number);
        at += LINE_LENGTH;
    }
}

// Goes along the used part of a register: what is bad, or the last line's number, and None where there is no line.
pub fn scan(register: &[u8], used: usize) -> Result<Option<u32>, Fault>
    ensures { ScannedAs (check_of (lent register.now used)) (used_lines (lent register.now used)) (scanned_as result) }
{
    if is_bad_used(register.len(), used) {
        return Err(Fault { offset: used });
    }
    scan_lines(register, used)
}

// The check of the used part of a register: what is bad, if anything is.
pub fn check(register: &[u8], used: usize) -> Result<(), Fault>
    ensures { checked_as result ≡ check_of (lent register.now used) }
{
    scan(register, used)?;
    Ok(())
}
