// The split: from the bytes of a case line to its refusal or its quote.
#![tactic(auto)]

mod allowance;
pub mod answers;
mod basis;
mod case;
mod frame;
mod grant;
mod kind;
mod limits;
mod overlong;
mod pensions;
mod quoting;
mod refusal;

ghost use Rattle.std.specs.Prelude.{◌≡◌, true, ℕ, length};
ghost use Rattle.split.specs.Refusal.{bad_length};
ghost use Rattle.split.specs.Quote.{answered, quote_of};

use answers::Granted;
use frame::Cursor;
pub use frame::{LONGEST, digit_value, has_bad_character, hex_value, number_at};
pub use overlong::keep_line;
use refusals::Refusal;

// The refusal of a line of a length that no case has.
fn unread_quote(line: &[u8]) -> Result<Granted, Refusal>
    requires { (n : ℕ) → bad_length (length line.now) n ≡ true }
    ensures { answered result ≡ quote_of line.now }
{
    if frame::has_bad_character(line) {
        return Err(Refusal::BadCharacter);
    }
    Err(Refusal::BadLength)
}

// The quote of a case line, whatever its bytes: the refusal or the grant. One cursor goes through the whole line.
pub fn quote(line: &[u8]) -> Result<Granted, Refusal>
    ensures { answered result ≡ quote_of line.now }
{
    if (line.len() <= frame::BLOCK) | (LONGEST < line.len()) {
        return unread_quote(line);
    }
    let mut bytes = [0u8; LONGEST];
    if frame::decode(line, &mut bytes) {
        return Err(Refusal::BadCharacter);
    }
    let head = case::read_head(&bytes, Cursor { at: 0 });
    if refusal::has_bad_length(line.len(), head.value.count) {
        return Err(Refusal::BadLength);
    }
    quoting::case_quote(&bytes, head, line.len())
}
