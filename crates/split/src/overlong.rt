// Overlong lines: what is kept of the beginning of a line whose end has not been read.
ghost use Rattle.std.specs.Prelude.{◌≡◌, ◌++◌, length, take, drop};
ghost use Rattle.split.specs.Overlong.{kept_line, QuotedAs};

use crate::frame;

// One character more than the longest case line has: a longer line is refused by its characters and its length alone.
const KEPT: usize = frame::LONGEST + 1;

// Keeps what a text has from a place on, the beginning of a line, at the text's start, and says how many characters are kept.
// However the line goes on, what is kept and the rest are quoted as the whole line is.
pub fn keep_line(text: &mut [u8], from: usize) -> usize
    ensures count { result ≡ length (kept_line (drop from text.old)) }
    ensures written { text.new ≡ kept_line (drop from text.old) ++ drop result text.old }
    ensures quoted { QuotedAs (take result text.new) (drop from text.old) }
{
    let end = text.len();
    let start = from.min(end);
    let kept = KEPT.min(end - start);
    let bad = frame::has_bad_character(&text[start + kept..end]);
    text.copy_within(start..start + kept, 0);
    if bad {
        text[0] = 0;
    }
    kept
}
