// Joining two registers whose numbers meet or overlap into a third buffer. Nothing is written before every refusal is decided, and
// the registers are compared and copied by whole parts: their numbers rise by one, so the first of each tells which lines both have.
#![tactic(auto)]

ghost use Rattle.std.specs.Prelude.{◌≡◌, not, ◌++◌, length};
ghost use Rattle.register.specs.Layout.{lent, used_lines};
ghost use Rattle.joining.specs.Join.{first_number, same_characters, join_step};
ghost use Rattle.joining.specs.Answers.{written_as};
ghost use Rattle.joining.specs.Parts.{Ordered, lines_before, write_step};

use refusals::Refusal::{self, NotJoinable, TargetTooShort};
use register::LINE_LENGTH;

// A register as it is lent: its bytes, and how many of them are used.
#[derive(Clone, Copy)]
struct Lent<'a> {
    bytes: &'a [u8],
    used: usize,
}

impl<'a> Lent<'a> {
    // The number of the first line. Where there is none it is 0, as the definition has it: so one comparison tells which of two
    // registers begins first, and an empty one does.
    fn first_number(self) -> u32
        ensures { result ≡ first_number (used_lines (lent self.entry.bytes.now self.entry.used)) }
    {
        if self.used < LINE_LENGTH {
            return 0;
        }
        split::number_at(self.bytes, 0)
    }
}

// Whether two parts differ. It looks at all characters of two parts of one length, with no branch for each.
fn is_unlike(first: &[u8], second: &[u8]) -> bool
    ensures { result ≡ not (same_characters first.now second.now) }
{
    if first.len() != second.len() {
        return true;
    }
    let mut unlike = false;
    for (place, character) in first.iter().enumerate() {
        unlike |= *character != second[place];
    }
    unlike
}

// Copies a part over another of its length. `copy_from_slice` calls the C library's memmove, and the C archive calls nothing.
fn copy(from: &[u8], to: &mut [u8])
    requires { length from.now ≡ length to.old }
    ensures { to.new ≡ from.now }
{
    for (place, character) in from.iter().enumerate() {
        to[place] = *character;
    }
}

// Writes two parts one behind the other at a buffer's start, and nothing where it is too short for both.
fn write_parts(first: &[u8], second: &[u8], target: &mut [u8]) -> Result<usize, Refusal>
    ensures { (written_as result ≡ (write_step (first.now ++ second.now) target.old).answer) × (target.new ≡ (write_step (first.now ++ second.now) target.old).state) }
{
    let seam = first.len();
    if target.len() < seam {
        return Err(TargetTooShort);
    }
    if target.len() - seam < second.len() {
        return Err(TargetTooShort);
    }
    let used = seam + second.len();
    copy(first, &mut target[0..seam]);
    copy(second, &mut target[seam..used]);
    Ok(used)
}

// How many numbers a register begins behind another, 0 where the other has no lines.
fn lines_before(low: Lent<'_>, high: Lent<'_>) -> usize
    requires { Ordered (lent low.bytes.now low.used) (lent high.bytes.now high.used) }
    ensures { result ≡ lines_before (used_lines (lent low.entry.bytes.now low.entry.used)) (used_lines (lent high.entry.bytes.now high.entry.used)) }
{
    let low_first = low.first_number();
    let high_first = high.first_number();
    if low_first == 0 {
        return 0;
    }
    (high_first - low_first) as usize
}

// Joins two sound registers of which the second does not begin before the first: the whole of the first, and behind it the lines
// of the second whose numbers the first does not have.
fn join_ordered(low: Lent<'_>, high: Lent<'_>, target: &mut [u8]) -> Result<usize, Refusal>
    requires { Ordered (lent low.bytes.now low.used) (lent high.bytes.now high.used) }
    ensures { (written_as result ≡ (join_step (lent low.entry.bytes.now low.entry.used) (lent high.entry.bytes.now high.entry.used) target.old).answer) × (target.new ≡ (join_step (lent low.entry.bytes.now low.entry.used) (lent high.entry.bytes.now high.entry.used) target.old).state) }
{
    let before = lines_before(low, high);
    let lines = low.used / LINE_LENGTH;
    if lines < before {
        return Err(NotJoinable);
    }
    let common_length = (lines - before).min(high.used / LINE_LENGTH) * LINE_LENGTH;
    let common_at = before * LINE_LENGTH;
    let common_end = common_at + common_length;
    if is_unlike(
        &low.bytes[common_at..common_end],
        &high.bytes[0..common_length],
    ) {
        return Err(NotJoinable);
    }
    write_parts(
        &low.bytes[0..low.used],
        &high.bytes[common_length..high.used],
        target,
    )
}

// Joins two registers into a third buffer: the used length of the result, which stands at the buffer's start; or that a register is
// bad, that the two can't be joined or that the buffer is too short, and the buffer as it was. Bytes and used length stand side by side,
// as C hands them over.
pub fn join(
    first: &[u8],
    first_used: usize,
    second: &[u8],
    second_used: usize,
    target: &mut [u8],
) -> Result<usize, Refusal>
    ensures { (written_as result ≡ (join_step (lent first.now first_used) (lent second.now second_used) target.old).answer) × (target.new ≡ (join_step (lent first.now first_used) (lent second.now second_used) target.old).state) }
{
    register::check(first, first_used)?;
    register::check(second, second_used)?;
    let one = Lent {
        bytes: first,
        used: first_used,
    };
    let other = Lent {
        bytes: second,
        used: second_used,
    };
    if other.first_number() < one.first_number() {
        return join_ordered(other, one, target);
    }
    join_ordered(one, other, target)
}
