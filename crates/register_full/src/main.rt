// Fills a register of 65,536 bytes with one case and prints what filing, the check and the finds then answer.
#![tactic(auto)]

use refusals::{Refusal, number_of};
use std::io;

const REGISTER_LENGTH: usize = 65536;

// The number of the first filed line.
const FIRST_NUMBER: u32 = 1;

// More filings than the register has room for.
const FILINGS: u64 = 1000;

// A register and its used length. The memory of the program is fixed, so that the buffer has a length beside it.
#[derive(Drop)]
struct Register {
    bytes: [u8; REGISTER_LENGTH],
    used: usize,
}

impl Register {
    // Files a case. Refused, it leaves the register as it is and tells the refusal.
    fn file(&mut self, line: &[u8]) -> Result<(), Refusal> {
        self.used = register::file(&mut self.bytes, self.used, FIRST_NUMBER, line)?;
        Ok(())
    }

    // Files a case again and again until it is refused: how many lines were filed, and the refusal.
    fn fill(&mut self, line: &[u8]) -> Option<(u64, Refusal)> {
        for lines in 0..FILINGS {
            if let Err(refusal) = self.file(line) {
                return Some((lines, refusal));
            }
        }
        None
    }

    fn say_number(&self, rt: &impl Print, quote: u32) -> io::Result<()> {
        rt.write_all(register::find_number(&self.bytes, self.used, quote))?;
        let found = register::locate_number(&self.bytes, self.used, quote);
        println!(rt; "{}", number_of(&found))
    }

    fn say_member(&self, rt: &impl Print, member: u32) -> io::Result<()> {
        rt.write_all(register::find_member(&self.bytes, self.used, member))?;
        let found = register::locate_member(&self.bytes, self.used, member);
        println!(rt;
            "{}, lines compared: {}",
            number_of(&found.line),
            found.compared
        )
    }
}

// What filing a case answered.
fn say_filed(rt: &impl Print, filed: Result<(), Refusal>) -> io::Result<()> {
    println!(rt; "{}", number_of(&filed))
}

fn say_checked(rt: &impl Print, register: &[u8], used: usize) -> io::Result<()> {
    match register::check(register, used) {
        Ok(()) => println!(rt; "0 at offset 0"),
        Err(fault) => println!(rt;
            "{} at offset {}",
            Refusal::from(fault).number(),
            fault.offset
        ),
    }
}

fn main(rt: HostRuntime) -> io::Result<()> {
    let mut register = Register {
        bytes: [0; REGISTER_LENGTH],
        used: 0,
    };
    let line = b"0000000107B2060F07E707010101002DC6C007C9060107E70701000000000000000000";
    match register.fill(line) {
        Some((lines, refusal)) => println!(rt;
            "{lines} lines filed, then refusal {}",
            refusal.number()
        )?,
        None => println!(rt; "{FILINGS} lines filed, and no refusal")?,
    }
    print!(rt; "A bad character still gives refusal ")?;
    say_filed(&rt, register.file(b"x"))?;
    print!(rt; "An empty line still gives refusal ")?;
    say_filed(&rt, register.file(b""))?;
    print!(rt; "The check gives ")?;
    say_checked(&rt, &register.bytes, register.used)?;
    print!(rt; "The check of one byte more, 65462, gives ")?;
    say_checked(&rt, &register.bytes, 65462)?;
    println!(rt; "Number 541 and its refusal:")?;
    register.say_number(&rt, 541)?;
    print!(rt; "Number 542, which is absent: ")?;
    register.say_number(&rt, 542)?;
    println!(rt; "The newest line of member 1, its refusal and how many lines were compared:")?;
    register.say_member(&rt, 1)?;
    print!(rt; "Member 2, who is absent: ")?;
    register.say_member(&rt, 2)
}
