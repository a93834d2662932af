// A register line: the header's figures, the figures of each share, and a newline.
ghost use Rattle.std.specs.Prelude.{◌≡◌, ◌*◌, ◌<◌, length};
ghost use Rattle.split.specs.Frame.{hex_character, hex_text};
ghost use Rattle.split.specs.Quote.{as_quote};
ghost use Rattle.register.specs.Line.{figure_width, share_count, figures_of, line_text};
ghost use Rattle.register.specs.Layout.{line_length};
ghost use Rattle.register.specs.Scan.{byte_digits, figure_bytes, figures_bytes, byte_values, spelled};

use split::answers::Granted;

// The digits of a figure, and where the member's begin in a line.
pub const FIGURE_WIDTH: usize = 8;

pub const MEMBER_AT: usize = FIGURE_WIDTH;

// The digits of a byte, and the bytes of a figure.
const BYTE_DIGITS: usize = 2;

const FIGURE_BYTES: usize = FIGURE_WIDTH / BYTE_DIGITS;

// The bytes of the header and of a share, which have three figures each.
const HEADER_BYTES: usize = 3 * FIGURE_BYTES;

const SHARE_BYTES: usize = 3 * FIGURE_BYTES;

// The shares of a line, the bytes of its figures, its characters before the newline, and with it.
const SHARES: usize = 4;

const TEXT_BYTES: usize = HEADER_BYTES + SHARES * SHARE_BYTES;

pub const TEXT_LENGTH: usize = BYTE_DIGITS * TEXT_BYTES;

pub const LINE_LENGTH: usize = TEXT_LENGTH + 1;

// The character of a digit.
fn hex_character(digit: u8) -> u8
    requires { digit < 16 }
    ensures { result ≡ hex_character digit }
{
    if digit < 10 {
        b'0' + digit
    } else {
        b'A' - 10 + digit
    }
}

// Writes the bytes of figures one after the other, the highest of each first.
fn write_figures(bytes: &mut [u8], figures: &[u32])
    requires { length bytes.old ≡ figure_bytes * length figures.now }
    ensures { bytes.new ≡ figures_bytes figures.now }
{
    for (i, figure) in figures.iter().enumerate() {
        let at = FIGURE_BYTES * i;
        bytes[at..at + FIGURE_BYTES].copy_from_slice(&figure.to_be_bytes());
    }
}

// Writes the values of each byte's two digits.
fn write_values(digits: &mut [u8], bytes: &[u8])
    requires { length digits.old ≡ byte_digits * length bytes.now }
    ensures { digits.new ≡ byte_values bytes.now }
{
    for (i, byte) in bytes.iter().enumerate() {
        digits[BYTE_DIGITS * i] = *byte / 16;
        digits[BYTE_DIGITS * i + 1] = *byte % 16;
    }
}

// Makes characters of the values of digits. The remainder changes no digit, and nothing need be known of the bytes.
fn spell(digits: &mut [u8])
    ensures { digits.new ≡ spelled digits.old }
{
    for digit in digits.iter_mut() {
        *digit = hex_character(*digit % 16);
    }
}

// Writes the digits of bytes: the values of all, and then the characters of all, since in each of the two loops the compiler takes
// 16 together. One loop, from bytes to characters, takes half as long again.
fn write_digits(digits: &mut [u8], bytes: &[u8])
    requires { length digits.old ≡ byte_digits * length bytes.now }
    ensures { digits.new ≡ spelled (byte_values bytes.now) }
{
    write_values(digits, bytes);
    spell(digits);
}

// Writes a figure's digits over as many characters.
pub fn write_figure(digits: &mut [u8], value: u32)
    requires { length digits.old ≡ figure_width }
    ensures { digits.new ≡ hex_text figure_width value }
{
    write_digits(digits, &value.to_be_bytes());
}

// Writes the line of a numbered quote over a whole line's bytes: the bytes of its figures first, and then the digits of them all
// together.
pub fn write_line(line: &mut [u8], number: u32, quote: Granted)
    requires { (length line.old ≡ line_length) × (length quote.shares ≡ share_count) }
    ensures { line.new ≡ line_text (figures_of number (as_quote quote)) }
{
    let mut bytes = [0u8; TEXT_BYTES];
    write_figures(
        &mut bytes[0..HEADER_BYTES],
        &[number, quote.member, quote.total.0],
    );
    for (i, share) in quote.shares.iter().enumerate() {
        let at = HEADER_BYTES + SHARE_BYTES * i;
        let figures = [share.lump.0, share.remaining.0, share.second.0];
        write_figures(&mut bytes[at..at + SHARE_BYTES], &figures);
    }
    write_digits(&mut line[0..TEXT_LENGTH], &bytes);
    line[TEXT_LENGTH] = b'\n';
}
