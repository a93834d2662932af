// Files the case lines of standard input in a register of 65,536 bytes that starts empty, with numbers from 1 on, and prints each
// filed line, or R and the refusal as two decimal digits.
#![tactic(auto)]

ghost use Rattle.std.specs.Prelude.{◌+◌, ◌≤◌, ◌≡◌, length, take, drop, IfOk, IfSome, OnOk, OnErr};
ghost use Rattle.split.specs.Case.{longest_line};
ghost use Rattle.split.specs.Overlong.{QuotedAs};
ghost use Rattle.register.specs.Layout.{lent};
ghost use Rattle.quotes.specs.Block.{WholeLines, after_text, BlockTaken};
ghost use Rattle.quotes.specs.Bounds.{input_length, register_length, output_length};

use memchr::memrchr;
use register::LINE_LENGTH;
use std::io;
use std::io::Read;

// The bytes of a block of input, and the refusals that it has room for, one a line. The register is checked once a block, so a
// larger block spends less on checks.
const INPUT_LENGTH: usize = 262144;

const REGISTER_LENGTH: usize = 65536;

const OUTPUT_LENGTH: usize = 65536;

// The number of the first filed line.
const FIRST_NUMBER: u32 = 1;

// A block of input, and how many characters of a line without its end are kept at its start. The memory of the program is fixed, so that
// each of its buffers has a length beside it.
#[derive(Drop)]
struct Input {
    bytes: [u8; INPUT_LENGTH],
    kept: usize,
    ghost room: { kept ≤ longest_line + 1 },
}

impl Input {
    // Reads a block behind what is kept, and tells where it ends, or that the input has ended.
    fn read_block(&mut self, reader: &mut impl Read) -> io::Result<Option<usize>>
        ensures { IfOk result (λ block. IfSome block (λ end. end ≤ input_length)) }
    {
        let kept = self.kept;
        let count = reader.read(&mut self.bytes[kept..])?;
        if count == 0 {
            return Ok(None);
        }
        Ok(Some(kept + count))
    }

    // Where the last line with a newline ends before a place; 0 where there is none.
    fn whole_lines(&self, before: usize) -> usize
        requires { before ≤ input_length }
        ensures { WholeLines (take before self.now.bytes) result }
    {
        let newline = memrchr(b'\n', &self.bytes[..before]);
        newline.map_or(0, |at| at + 1)
    }

    // Keeps the characters from a place on, the beginning of a line, at the start. Of more than there is room for, the first are
    // kept, and a bad character among the others takes the first place: however the line goes on, it is refused as the whole
    // line is.
    fn keep_rest(&mut self, from: usize, end: usize)
        requires { (from ≤ end) × (end ≤ input_length) }
        ensures quoted { QuotedAs (take self.new.kept self.new.bytes) (drop from (take end self.old.bytes)) }
    {
        self.kept = split::keep_line(&mut self.bytes[0..end], from);
    }
}

// The register, its used length, and the refusals of the lines that were filed last. Those are bytes, 0 for none, since the call
// that writes them is C's too.
#[derive(Drop)]
struct Register {
    bytes: [u8; REGISTER_LENGTH],
    used: usize,
    refusals: [u8; INPUT_LENGTH],
    ghost within: { used ≤ register_length },
}

impl Register {
    // Files the lines of a text behind the used part, and tells how many lines it has; the first refusals are theirs.
    fn file(&mut self, text: &[u8]) -> usize
        requires { length text.now ≤ input_length }
        ensures filed { lent self.new.bytes self.new.used ≡ after_text (lent self.old.bytes self.old.used) text.now }
        ensures few { result ≤ input_length }
    {
        let filed = register::file_lines(
            &mut self.bytes,
            self.used,
            FIRST_NUMBER,
            text,
            &mut self.refusals,
        );
        self.used = filed.used;
        filed.lines
    }
}

// The output, of which the first bytes wait to be written.
#[derive(Drop)]
struct Output<'a, P: Print> {
    printer: &'a P,
    bytes: [u8; OUTPUT_LENGTH],
    waiting: usize,
    ghost within: { waiting ≤ output_length },
}

impl<P: Print> Output<'_, P> {
    // Writes out what waits.
    fn write_waiting(&mut self) -> io::Result<()>
        ensures ok { OnOk result (self.new.waiting ≡ 0) }
        ensures err { OnErr result (self.new ≡ self.old) }
    {
        self.printer.write_all(&self.bytes[..self.waiting])?;
        self.waiting = 0;
        Ok(())
    }

    // Puts a text behind what waits, which is written out first where there is no room.
    fn queue(&mut self, text: &[u8]) -> io::Result<()>
        requires { length text.now ≤ output_length }
        ensures err { OnErr result (self.new ≡ self.old) }
    {
        if self.bytes.len() - self.waiting < text.len() {
            self.write_waiting()?;
        }
        let end = self.waiting + text.len();
        self.bytes[self.waiting..end].copy_from_slice(text);
        self.waiting = end;
        Ok(())
    }

    // Queues what each filing answered: the next of the filed lines, or the refusal.
    fn say_answers(&mut self, filed: &[u8], refusals: &[u8]) -> io::Result<()> {
        let mut lines = filed.as_chunks::<LINE_LENGTH>().0.iter();
        for &refusal in refusals {
            if refusal != 0 {
                self.queue(&[b'R', b'0' + refusal / 10 % 10, b'0' + refusal % 10, b'\n'])?;
            } else if let Some(line) = lines.next() {
                self.queue(line)?;
            }
        }
        Ok(())
    }
}

// A run of the program: where it reads, and what it works on.
#[derive(Drop)]
struct Run<'a, R: Read + Drop, P: Print> {
    reader: R,
    input: Input,
    register: Register,
    output: Output<'a, P>,
}

impl<R: Read + Drop, P: Print> Run<'_, R, P> {
    // Files the input's lines before an end, if it has any, and queues what each filing answered.
    fn file_text(&mut self, end: usize) -> io::Result<()>
        requires { end ≤ input_length }
        ensures input { (self.new.input.bytes ≡ self.old.input.bytes) × (self.new.input.kept ≡ self.old.input.kept) }
        ensures filed { lent self.new.register.bytes self.new.register.used ≡ after_text (lent self.old.register.bytes self.old.register.used) (take end self.old.input.bytes) }
    {
        if end == 0 {
            return Ok(());
        }
        let from = self.register.used;
        let lines = self.register.file(&self.input.bytes[..end]);
        let register = &self.register;
        self.output
            .say_answers(&register.bytes[from..], &register.refusals[..lines])
    }

    // Takes the input up to an end: its whole lines are filed, and what is left is kept.
    fn take_block(&mut self, end: usize) -> io::Result<()>
        requires { end ≤ input_length }
        ensures taken { OnOk result (BlockTaken (lent self.old.register.bytes self.old.register.used) (take end self.old.input.bytes) (lent self.new.register.bytes self.new.register.used) (take self.new.input.kept self.new.input.bytes)) }
    {
        let whole = self.input.whole_lines(end);
        self.file_text(whole)?;
        self.input.keep_rest(whole, end);
        Ok(())
    }

    // Reads and takes blocks until the input ends. What waits is written out before each: the next line may come only after the
    // answers to those before it. A proved loop has to end, so it goes over more turns than any run takes.
    fn take_all(&mut self) -> io::Result<()> {
        for _ in 0..u64::MAX {
            self.output.write_waiting()?;
            let Some(end) = self.input.read_block(&mut self.reader)? else {
                break;
            };
            self.take_block(end)?;
        }
        Ok(())
    }

    // A last line needs no newline. What waits is written out.
    fn finish(&mut self) -> io::Result<()> {
        self.file_text(self.input.kept)?;
        self.output.write_waiting()
    }
}

fn main(rt: HostRuntime) -> io::Result<()> {
    let mut run = Run {
        reader: rt.stdin(),
        input: Input {
            bytes: [0; INPUT_LENGTH],
            kept: 0,
        },
        register: Register {
            bytes: [0; REGISTER_LENGTH],
            used: 0,
            refusals: [0; INPUT_LENGTH],
        },
        output: Output {
            printer: &rt,
            bytes: [0; OUTPUT_LENGTH],
            waiting: 0,
        },
    };
    run.take_all()?;
    run.finish()
}
