// The frame reader: a line of uppercase hexadecimal digits becomes bytes, and fields, highest byte first, are taken from
// them one after the other.
ghost use Rattle.std.specs.Prelude.{◌≡◌, false, ◌+◌, ◌%◌, ◌^◌, ◌≤◌, ◌<◌, length};
ghost use Rattle.split.specs.Frame.{hex_value, is_no_digit, digit_at, number_at, date_at, bad_character};
ghost use Rattle.split.specs.Case.{longest_line};
ghost use Rattle.split.specs.Bytes.{block_length, Decoded, Bytes, Taken, number_of};

use calendar::Date;

// The characters of a head, of a pension, of the field that may follow the pensions, and of the longest case line.
pub const HEAD_LENGTH: usize = 26;

pub const PENSION_LENGTH: usize = 44;

pub const ALLOWANCE_USED_LENGTH: usize = 8;

pub const LONGEST: usize = HEAD_LENGTH + 4 * PENSION_LENGTH + ALLOWANCE_USED_LENGTH;

// How many characters are decoded together.
pub const BLOCK: usize = 32;

// The value of a character: 0-9 and A-F, and 16 for any other. The definition says 16, so it is no `Option`, and a `match` on
// ranges of characters makes `has_bad_character` 1.8 times as slow and `decode` 1.3 times.
pub fn hex_value(character: u8) -> u8
    ensures { result ≡ hex_value character }
{
    if (b'0' <= character) & (character <= b'9') {
        return character - b'0';
    }
    if (b'A' <= character) & (character <= b'F') {
        return character - b'A' + 10;
    }
    16
}

// Whether some character of the line is no digit. It looks at them all, with no branch for each.
pub fn has_bad_character(line: &[u8]) -> bool
    ensures { result ≡ bad_character line.now }
{
    let mut bad = false;
    for character in line {
        bad |= hex_value(*character) == 16;
    }
    bad
}

// The value of a character that is a digit, with no branch; of any other, some number below 16.
pub fn digit_value(character: u8) -> u8
    ensures { (result < 16) × (is_no_digit character ≡ false → result ≡ hex_value character % 16) }
{
    (character % 16 + 9 * (character / 64)) % 16
}

// Decodes a block of a line from a place on, each character with the one after it into a byte. Told whether a character
// before the block is no digit, it says whether one before the block's end is. The loop's length is fixed and it has no
// branch, so that the compiler takes many characters at once.
fn decode_block(line: &[u8], bytes: &mut [u8; LONGEST], at: usize, found: bool) -> bool
    requires { (at + block_length < length line.now) × (length line.now ≤ longest_line) × Decoded line.now bytes.old found at }
    ensures { Decoded line.now bytes.new result (at + block_length) }
{
    let mut bad = found;
    for i in 0..BLOCK {
        let place = at + i;
        let character = line[place];
        bad |= hex_value(character) == 16;
        bytes[place] = digit_value(character) * 16 + digit_value(line[place + 1]);
    }
    bad
}

// Decodes a line that is longer than a block, and says whether some character is no digit. The last block ends before the
// last character, wherever it begins: it may overlap the block before it. It answers a flag and no Result, since every block is decoded
// before any is judged, with no branch.
pub fn decode(line: &[u8], bytes: &mut [u8; LONGEST]) -> bool
    requires { (block_length < length line.now) × (length line.now ≤ longest_line) × (length bytes.old ≡ longest_line) }
    ensures { (result ≡ bad_character line.now) × (result ≡ false → Bytes line.now bytes.new) }
{
    let last = line.len() - BLOCK - 1;
    let mut bad = false;
    for block in 0..last.div_ceil(BLOCK) {
        bad = decode_block(line, bytes, block * BLOCK, bad);
    }
    bad = decode_block(line, bytes, last, bad);
    bad | (hex_value(line[last + BLOCK]) == 16)
}

// The digit at a place of any bytes; 0 past the end and where the character is no digit, as the definition digit_at has it.
fn digit_at(line: &[u8], at: usize) -> u32
    ensures { (result ≡ digit_at line.now at) × (result < 16) }
{
    match line.get(at) {
        Some(character) => (hex_value(*character) % 16) as u32,
        None => 0,
    }
}

// The number of this many digits of any bytes, from a place on.
fn digits_at(line: &[u8], at: usize, count: usize) -> u32
    requires { (at ≤ 2 ^ 63) × (count ≤ 8) }
    ensures { result ≡ number_at line.now at count }
{
    let mut value: u32 = 0;
    for i in 0..count {
        value = value * 16 + digit_at(line, at + i);
    }
    value
}

// A place in a line. Each method takes the next field and hands the cursor back moved on. The bytes are no part of it: else every contract
// would have to say that the next cursor has the same.
#[derive(Clone, Copy)]
pub struct Cursor {
    pub at: usize,
}

// A field that was taken: its value, and the cursor moved on behind it.
#[derive(Clone, Copy)]
pub struct Field<T> {
    pub value: T,
    pub next: Cursor,
}

impl Cursor {
    // A number of one byte.
    pub fn byte(self, bytes: &[u8; LONGEST]) -> Field<u8>
        requires { self.at + 2 ≤ longest_line }
        ensures { Taken bytes.now self.at (number_of 2) 2 result.value result.next.at }
    {
        Field {
            value: bytes[self.at],
            next: Cursor { at: self.at + 2 },
        }
    }

    // A number of two bytes.
    pub fn short(self, bytes: &[u8; LONGEST]) -> Field<u16>
        requires { self.at + 4 ≤ longest_line }
        ensures { Taken bytes.now self.at (number_of 4) 4 result.value result.next.at }
    {
        let high = self.byte(bytes);
        let low = high.next.byte(bytes);
        Field {
            value: high.value as u16 * 256 + low.value as u16,
            next: low.next,
        }
    }

    // A number of four bytes.
    pub fn number(self, bytes: &[u8; LONGEST]) -> Field<u32>
        requires { self.at + 8 ≤ longest_line }
        ensures { Taken bytes.now self.at (number_of 8) 8 result.value result.next.at }
    {
        let high = self.short(bytes);
        let low = high.next.short(bytes);
        Field {
            value: high.value as u32 * 65536 + low.value as u32,
            next: low.next,
        }
    }

    // A date: two bytes of year, one of month, one of day.
    pub fn date(self, bytes: &[u8; LONGEST]) -> Field<Date>
        requires { self.at + 8 ≤ longest_line }
        ensures { Taken bytes.now self.at date_at 8 result.value result.next.at }
    {
        let year = self.short(bytes);
        let month = year.next.byte(bytes);
        let day = month.next.byte(bytes);
        Field {
            value: Date {
                year: year.value,
                month: month.value,
                day: day.value,
            },
            next: day.next,
        }
    }
}

// The number of four bytes at a place of any bytes; 0 past the end, and no Option, as the definition number_at has it: an open reader can't
// fail.
pub fn number_at(line: &[u8], at: usize) -> u32
    ensures { result ≡ number_at line.now at 8 }
{
    if at < line.len() {
        return digits_at(line, at, 8);
    }
    0
}
