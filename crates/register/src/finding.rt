// Finding a line by its number, and a member's newest line. Each find has two calls: one hands back the line's own bytes, the
// one beside it the refusal or where they are, and for a member also how many lines were compared. One find for both would be no plainer:
// what they share is line_at and bytes_at, and a number's line needs no search. Bytes and used length
// stand side by side, as C hands them over.
ghost use Rattle.std.specs.Prelude.{◌≡◌, ◌+◌, ◌*◌, ◌%◌, ◌^◌, ◌≤◌, ◌<◌, length, take, drop, IfSome};
ghost use Rattle.split.specs.Frame.{number_at};
ghost use Rattle.register.specs.Line.{figure_width, member_place};
ghost use Rattle.register.specs.Layout.{lent, line_length};
ghost use Rattle.register.specs.Find.{has_number, has_member, find_line, locate, with_found, lines_compared, locate_member};
ghost use Rattle.register.specs.Answers.{located_as, located_member_as};
ghost use Rattle.register.specs.Scan.{DigitsAt, lines_in, SoundLines, FoundAt, placed};

use crate::answers::{Extent, FoundMember};
use crate::layout::{FIGURE_WIDTH, LINE_LENGTH, MEMBER_AT};
use crate::{checking, layout};
use refusals::Refusal;

// The place of a number among sound lines, whose numbers rise by one from the first's.
fn place_of_number(lines: &[u8], number: u32) -> Option<usize>
    requires { SoundLines (lines_in lines.now) }
    ensures { FoundAt (has_number number) (lines_in lines.now) result }
{
    let first = split::number_at(lines, 0);
    let place = number.checked_sub(first)? as usize;
    (place < lines.len() / LINE_LENGTH).then_some(place)
}

// Whether a line's member has these digits. They are compared one by one from the last, where figures differ most: the comparison
// of slices, which begins with the first, takes three to four times as long.
fn has_figure(line: &[u8], digits: &[u8; FIGURE_WIDTH]) -> bool
    requires { (length line.now ≡ line_length) × DigitsAt line.now member_place figure_width × DigitsAt digits.now 0 figure_width }
    ensures { result ≡ has_member (number_at digits.now 0 figure_width) line.now }
{
    for i in (0..FIGURE_WIDTH).rev() {
        if line[MEMBER_AT + i] != digits[i] {
            return false;
        }
    }
    true
}

// What the search for a member among lines gives: the place of the line found, and how many lines were compared.
#[derive(Clone, Copy)]
struct Searched {
    place: Option<usize>,
    compared: usize,
}

// How many lines were compared where one is found: the newer ones and itself.
fn with_found(newer: usize) -> usize
    requires { newer < 18446744073709551615 }
    ensures { result ≡ with_found newer }
{
    newer + 1
}

// Looks for the last of sound lines with a member, from the newest back, and counts the lines that it compares. `rchunks_exact`
// begins at the end: `chunks_exact` with `rposition` divides at each line, and takes eight times as long.
fn search_member(lines: &[u8], member: u32) -> Searched
    requires { (length lines.now % line_length ≡ 0) × SoundLines (lines_in lines.now) }
    ensures { FoundAt (has_member member) (lines_in lines.now) result.place × (result.compared ≡ lines_compared (has_member member) (lines_in lines.now)) }
{
    let mut digits = [0u8; FIGURE_WIDTH];
    layout::write_figure(&mut digits, member);
    let count = lines.len() / LINE_LENGTH;
    for (newer, line) in lines.rchunks_exact(LINE_LENGTH).enumerate() {
        if has_figure(line, &digits) {
            let place = count - 1 - newer;
            return Searched {
                place: Some(place),
                compared: with_found(newer),
            };
        }
    }
    Searched {
        place: None,
        compared: count,
    }
}

// Where the line at a place is, and the refusal where none was found.
fn line_at(place: Option<usize>) -> Result<Extent, Refusal>
    requires { IfSome place (λ p. p * line_length < 2 ^ 64) }
    ensures { located_as result ≡ placed place }
{
    let place = place.ok_or(Refusal::NotFound)?;
    Ok(Extent {
        offset: place * LINE_LENGTH,
        length: LINE_LENGTH,
    })
}

// The bytes where a line is; none under a refusal.
fn bytes_at<'a>(register: &'a [u8], line: Result<Extent, Refusal>) -> &'a [u8]
    requires { (located_as line).offset + (located_as line).length ≤ length register.now }
    ensures { result.now ≡ take (located_as line).length (drop (located_as line).offset register.now) }
{
    match line {
        Ok(at) => &register[at.offset..at.offset + at.length],
        Err(_) => &register[..0],
    }
}

// Where the bytes of the line with a number are.
pub fn locate_number(register: &[u8], used: usize, number: u32) -> Result<Extent, Refusal>
    ensures { located_as result ≡ locate (has_number number) (lent register.now used) }
{
    checking::check(register, used)?;
    let place = place_of_number(&register[..used], number);
    line_at(place)
}

// The line with a number, as its own bytes of the register; empty under a refusal.
pub fn find_number<'a>(register: &'a [u8], used: usize, number: u32) -> &'a [u8]
    ensures { result.now ≡ find_line (has_number number) (lent register.now used) }
{
    let line = locate_number(register, used, number);
    bytes_at(register, line)
}

// Where the bytes of a member's newest line are, and how many lines were compared.
pub fn locate_member(register: &[u8], used: usize, member: u32) -> FoundMember
    ensures { located_member_as result ≡ locate_member member (lent register.now used) }
{
    if let Err(fault) = checking::check(register, used) {
        return FoundMember {
            line: Err(Refusal::from(fault)),
            compared: 0,
        };
    }
    let search = search_member(&register[..used], member);
    FoundMember {
        line: line_at(search.place),
        compared: search.compared,
    }
}

// A member's newest line, as its own bytes of the register; empty under a refusal.
pub fn find_member<'a>(register: &'a [u8], used: usize, member: u32) -> &'a [u8]
    ensures { result.now ≡ find_line (has_member member) (lent register.now used) }
{
    let found = locate_member(register, used, member);
    bytes_at(register, found.line)
}
