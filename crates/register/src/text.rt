// The lines of a text of case lines.
ghost use Rattle.std.specs.Prelude.{◌≡◌};
ghost use Rattle.std.specs.Iterator.{YieldsFirstRef, item_count};
ghost use Rattle.register.specs.Text.{text_lines};
ghost use Rattle.register.specs.Scan.{lines_left};

use memchr::memchr;

// The lines of the text that is left. A newline ends a line, and the last may lack it.
#[derive(Drop)]
pub struct Lines<'a>(&'a [u8]);

impl<'a> Lines<'a> {
    pub fn of(text: &'a [u8]) -> Lines<'a>
        ensures { lines_left result ≡ text_lines text.now }
    {
        Lines(text)
    }
}

impl<'a> Iterator for Lines<'a> {
    type Item = &'a [u8];

    ghost next_gives = { YieldsFirstRef lines_left };

    ghost remaining = { item_count lines_left };

    // Takes the first line off. Made part of the loop that files the lines, it makes that loop three hundredths slower.
    #[inline(never)]
    fn next(&mut self) -> Option<&'a [u8]> {
        let text = self.0;
        if text.is_empty() {
            return None;
        }
        match memchr(b'\n', text) {
            Some(end) => {
                self.0 = &text[end + 1..];
                Some(&text[..end])
            }
            None => {
                self.0 = &[];
                Some(text)
            }
        }
    }
}
